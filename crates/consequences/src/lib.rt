// What the judgement brings: the settled snakes, who killed, who leads, the end, the events.
#![tactic(auto)]

mod after;
mod killers;
mod leads;
mod settled;
mod snake_events;

pub use after::{After, settle_all, size_of};
pub use leads::is_terminal;
pub use settled::Snakes;
