// Refusals 9 to 12: the bodies are placed, and only then is any cell judged.
ghost use Rattle.std.specs.Prelude.{◌≡◌, ltb, pos, length, ◌-◌, ◌≤◌, Ok, Err};
ghost use Rattle.lists.specs.Choice.{◌if◌else◌};
ghost use Rattle.lists.specs.Below.{concat_below};
ghost use Rattle.boards.specs.Boards.{Under};
ghost use Rattle.lists.specs.Lists.{distinct};
ghost use Rattle.rules.specs.SettingParts.{place_says, cells_of, start_cells, Limited};
ghost use Rattle.placement.specs.Traces.{Traceable};
ghost use Rattle.placed.specs.Tested.{Tested};

use bounds::side_of;
use placement::{place_snakes, span};
use rules::{Refusal, Setting};

// No cell twice, by a board of all squares.
#[tactic(auto, using(boards::proofs::Boards::board_blank))]
fn all_new(cells: &[u16]) -> bool
    requires { Under 1024 cells.now }
    ensures { result ≡ distinct cells.now }
{
    let mut board = [0u8; 1024];
    boards::stamps_once(cells, &mut board, 1)
}

// Refusal 12: what the bodies leave of the area is less than the food.
fn check_food(area: u64, total: u64, food: u64) -> Result<(), Refusal>
    requires { (total ≤ 1024) × (food ≤ 1024) }
    ensures { result ≡ (Err Refusal.FoodFree if ltb (area - total) food else Ok tt) }
{
    if 0 < food && area < food + total {
        Err(Refusal::FoodFree)
    } else {
        Ok(())
    }
}

// On a grid of 3 and more every start is inside, so that no cell is outside: 9, 11 or 12.
fn judge(cells: &mut [u16], g: u16, n: u16, size: usize, food: usize) -> Result<(), Refusal>
    requires traceable { Traceable g n size cells.old }
    requires food_bound { food ≤ 1024 }
    ensures { Tested (place_says (pos g) n size food) (concat_below n (cells_of g n size)) cells.old cells.new result }
{
    place_snakes(cells, g, n, size)?;
    let total = n as usize * size;
    if !all_new(&cells[..total]) {
        return Err(Refusal::CellTaken);
    }
    check_food(g as u64 * g as u64, total as u64, food as u64)
}

// Some body cannot be traced beyond `reach`; up to that length its first bad cell is outside.
fn beyond(reach: u64, size: u64) -> Refusal
    ensures { result ≡ (Refusal.Untraceable if ltb reach size else Refusal.CellOutside) }
{
    if reach < size {
        Refusal::Untraceable
    } else {
        Refusal::CellOutside
    }
}

// On grids below 3 column g - g/3 is off the grid, so that none is accepted: a trace reaches 3 places on grid 2, else 1.
pub fn place_check(setting: Setting, cells: &mut [u16]) -> Result<(), Refusal>
    requires limited { Limited setting }
    requires cells_len { length cells.old ≡ 1024 }
    ensures { Tested (place_says setting.grid_size setting.num_snakes setting.initial_length setting.initial_food_count) (start_cells setting) cells.old cells.new result }
{
    let grid = setting.grid_size;
    let size = setting.initial_length;
    if grid < 2 {
        return Err(beyond(1, size));
    }
    if grid < 3 {
        return Err(beyond(3, size));
    }
    let n = setting.num_snakes as u16;
    let food = setting.initial_food_count as usize;
    judge(cells, grid as u16, n, size as usize, food)
}

// The same where no cell is asked for: bodies below the span need no trace.
pub fn check_places(setting: Setting) -> Result<(), Refusal>
    requires { Limited setting }
    ensures { result ≡ place_says setting.grid_size setting.num_snakes setting.initial_length setting.initial_food_count }
{
    let n = setting.num_snakes;
    let g = side_of(setting.grid_size);
    let size = setting.initial_length;
    if size < span(g, n) {
        return check_food(g * g, n * size, setting.initial_food_count);
    }
    let mut cells = [0u16; 1024];
    place_check(setting, &mut cells)
}
