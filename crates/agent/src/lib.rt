// What an agent may do: turns, legal actions, the spaces, and the mark of a truncation.
#![tactic(auto)]

mod spaces;
mod turns;

pub use grid::relative_to_absolute;
pub use spaces::{action_space, observation_space};
pub use turns::{actor, legal_actions, truncation};
