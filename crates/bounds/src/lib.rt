// What the numbers of a setting tell before any snake is placed.
#![tactic(auto)]

mod numbers;

pub use numbers::{limits, side_of};
