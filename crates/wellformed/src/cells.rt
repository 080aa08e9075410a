// The tests of an image's cells, once it is known where each part is: all below g², no cell twice in one body, food ascending.
ghost use Rattle.std.specs.Prelude.{◌≡◌, [], ◌∷◌, ◌+◌, ◌<◌};
ghost use Rattle.lists.specs.Lists.{every, ascending};
ghost use Rattle.boards.specs.Boards.{Board, Stamped};
ghost use Rattle.rules.specs.Image.{snakes_in, body_at, food_start, cells_fit, bodies_fit, food_fits};
ghost use Rattle.wellformed.specs.Checked.{Ranged, Laid, OnBoard, Below};

use layout::{front, length_at, start_at};

// It reads all cells, since without an exit the loop runs on vectors.
fn cells_below(cells: &[u16], area: u16) -> bool
    ensures { Below cells.now area result }
{
    let mut below = true;
    for c in cells {
        below &= *c < area;
    }
    below
}

// No cell of the i-th body twice, by its own stamp.
pub fn body_once(image: &[u16], i: usize, board: &mut [u8; 1024]) -> bool
    requires on_board { OnBoard image.now × (i < snakes_in image.now) }
    requires board { Board (i + 1) board.old }
    ensures { Stamped (body_at image.now i) (i + 1) result board.new }
{
    let start = image[start_at(i)] as usize;
    let len = image[length_at(i)] as usize;
    boards::stamps_once(&image[start..start + len], board, (i + 1) as u8)
}

// One board for all bodies, never cleared: the stamps tell them apart.
fn bodies_fit(image: &[u16]) -> bool
    requires { OnBoard image.now }
    ensures { result ≡ bodies_fit image.now }
{
    let n = image[0] as usize;
    let mut board = [0u8; 1024];
    for i in 0..n {
        if !body_once(image, i, &mut board) {
            return false;
        }
    }
    true
}

// Each cell is above the one before it.
fn rising(food: &[u16]) -> bool
    ensures { result ≡ ascending 0 food.now }
{
    let mut rises = true;
    let mut low = 0;
    for cell in food {
        let c = *cell as usize;
        rises &= low <= c;
        low = c + 1;
    }
    rises
}

pub fn cells_fit(image: &[u16]) -> bool
    requires { Ranged image.now }
    ensures { result ≡ cells_fit image.now }
{
    let from = front(image[0] as usize);
    let g = image[1];
    cells_below(&image[from..], g * g)
}

// What comes after the contents, once it is known where each part is.
pub(crate) fn parts_fit(image: &[u16], food: usize) -> bool
    requires laid { Laid image.now }
    requires food_value { food ≡ food_start image.now }
    ensures { result ≡ every (cells_fit image.now ∷ bodies_fit image.now ∷ food_fits image.now ∷ []) }
{
    cells_fit(image) && bodies_fit(image) && rising(&image[food..])
}
