// Squares as bits: 16 strips of 64 squares, whatever the grid's side. Taken squares are marked once; the others are then counted strip by strip, and found by
// these counts.
#![tactic(auto)]

mod counts;
mod finds;
mod marks;

pub use counts::{count_open, count_strips};
pub use finds::{free_below, nth_free, take};
pub use marks::{is_marked, mark_all};
