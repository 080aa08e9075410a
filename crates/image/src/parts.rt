// Parts of an image, as parts of the caller's own slice: a snake's body, the food, and the search in a part.
ghost use Rattle.std.specs.Prelude.{◌≡◌, ◌+◌, ◌<◌, ◌≤◌, length, take, drop};
ghost use Rattle.lists.specs.Search.{found_in};
ghost use Rattle.rules.specs.Facts.{Sound};
ghost use Rattle.rules.specs.Image.{snakes_in, start_at, food_start, body_at, food_at};
ghost use Rattle.rules.specs.Promises.{Parts};
ghost use Rattle.image.specs.Memory.{word_place, start_asked};

use layout::{length_at, start_at};
use wellformed::well_formed;

// Snake i's body.
pub fn body_of(image: &[u16], i: usize) -> &[u16]
    requires sound { Sound image.now }
    requires i_bound { i < snakes_in image.now }
    ensures words { result.now ≡ body_at image.now i }
    ensures place { result.ref_ptr ≡ word_place image.entry (start_at image.now i) }
{
    let start = image[start_at(i)] as usize;
    let len = image[length_at(i)] as usize;
    &image[start..start + len]
}

// A snake's body, as the caller's own words and no copy; the empty part at the front for a malformed image or no such snake.
// The number is a usize, as every place in a slice is: it is compared with the words and becomes one of their indices.
pub fn body(image: &[u16], snake: usize) -> &[u16]
    ensures words { Parts image.now snake result.now }
    ensures place { result.ref_ptr ≡ word_place image.entry (start_asked image.now snake) }
{
    if !well_formed(image) || image[0] as usize <= snake {
        return &image[0..0];
    }
    body_of(image, snake)
}

// The word at which the food starts: past the last body.
pub fn food_start(image: &[u16]) -> usize
    requires { Sound image.now }
    ensures { result ≡ food_start image.now }
{
    let last = image[0] as usize - 1;
    image[start_at(last)] as usize + image[length_at(last)] as usize
}

pub fn food_of(image: &[u16]) -> &[u16]
    requires { Sound image.now }
    ensures { result.now ≡ food_at image.now }
{
    let start = food_start(image);
    &image[start..]
}

// The first place of a cell in the part of `len` words from `start` on.
pub fn find_in(image: &[u16], start: usize, len: usize, cell: u16) -> Option<usize>
    requires { start + len ≤ length image.now }
    ensures { result ≡ found_in (take len (drop start image.now)) cell }
{
    lists::find(&image[start..start + len], cell)
}
