// What a draw starts from: the free cells by their marks, how many outcomes it has, and the digits of an index.
#![tactic(auto)]

mod index;
mod odds;

pub use index::{pick_cells, split};
pub use odds::{Odds, count_due, odds_of};
