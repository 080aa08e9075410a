// What an agent gets: the reward of an event, and the cell that its match's lengths fall into.
#![tactic(auto)]

mod lengths;
mod rewards;

pub use lengths::length_cell;
pub use rewards::reward;
