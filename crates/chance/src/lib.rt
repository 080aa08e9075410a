// Chance (`chance_node`, `apply_chance_node` of the Rust): how many outcomes a draw has, what an index draws, and the index of a list.
#![tactic(auto)]

mod next;
mod ranks;

ghost use Rattle.rules.specs.Promises.{Counts, Draws, Ranks};

use image::check_image;
use next::draw_due;
use outcomes::count_due;
use ranks::rank_due;
use rules::{Drawn, Refusal};

// Refusals 50 to 56, 23, 28.
pub fn count(image: &[u16]) -> Result<u64, Refusal>
    ensures { Counts image.now result }
{
    check_image(image)?;
    count_due(image)
}

// Refusals 50 to 56, 23, 28, 27, 29. The next image goes to `out`, the cells in the order drawn to `list`.
pub fn draw(image: &[u16], index: u64, out: &mut [u16], list: &mut [u16]) -> Result<Drawn, Refusal>
    ensures { Draws image.now index out.old out.new list.old list.new result }
{
    check_image(image)?;
    draw_due(image, index, out, list)
}

// Refusals 50 to 56, 23, 28, 30.
pub fn rank(image: &[u16], list: &[u16]) -> Result<u64, Refusal>
    ensures { Ranks image.now list.now result }
{
    check_image(image)?;
    rank_due(image, list)
}
