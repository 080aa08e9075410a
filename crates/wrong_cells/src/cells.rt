// Faults of the cells: one beyond the grid, one twice in a body, food that does not rise. Words and places are no Option: they are asked for only where
// there is one, and where there is none `cell_word`, `twice_in` and `food_word` have a value too.
ghost use Rattle.std.specs.Prelude.{◌≡◌, ◌+◌, ◌<◌};
ghost use Rattle.lists.specs.Lists.{distinct};
ghost use Rattle.rules.specs.Image.{snakes_in, start_at, body_at, food_start};
ghost use Rattle.rules.specs.Faults.{cell_word, twice_in, food_word};
ghost use Rattle.wellformed.specs.Checked.{FirstOut, Ranged, Laid, OnBoard};

use layout::{front, length_at, start_at};
use wellformed::body_once;

// 54: the first word past the records that is g² or more.
pub fn first_beyond(image: &[u16]) -> usize
    requires { Ranged image.now }
    ensures { result ≡ cell_word image.now }
{
    let g = image[1];
    for k in front(image[0] as usize)..image.len() {
        if g * g <= image[k] {
            return k;
        }
    }
    image.len()
}

// 55: the first snake with a cell twice in its body. One board for all bodies, as in the check; a loop, since a closure that writes on it tells its caller nothing.
pub fn first_twice(image: &[u16]) -> Option<usize>
    requires { OnBoard image.now }
    ensures { FirstOut (snakes_in image.now) (λ i. distinct (body_at image.now i)) result }
{
    let n = image[0] as usize;
    let mut board = [0u8; 1024];
    for i in 0..n {
        if !body_once(image, i, &mut board) {
            return Some(i);
        }
    }
    None
}

// The first place whose cell stood earlier in the body.
fn twice_in(body: &[u16]) -> usize
    ensures { result ≡ twice_in body.now }
{
    for (k, cell) in body.iter().enumerate() {
        if lists::find(&body[..k], *cell).is_some() {
            return k;
        }
    }
    body.len()
}

pub fn twice_at(image: &[u16], i: usize) -> usize
    requires { OnBoard image.now × (i < snakes_in image.now) }
    ensures { result ≡ start_at image.now i + twice_in (body_at image.now i) }
{
    let start = image[start_at(i)] as usize;
    let len = image[length_at(i)] as usize;
    start + twice_in(&image[start..start + len])
}

// 56: the first word of the food that is not above the one before it.
pub fn first_fall(image: &[u16], food: usize) -> usize
    requires { Laid image.now × (food ≡ food_start image.now) }
    ensures { result ≡ food_word image.now }
{
    for k in food + 1..image.len() {
        if image[k] <= image[k - 1] {
            return k;
        }
    }
    image.len().max(food + 1)
}
