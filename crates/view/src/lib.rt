// What an agent sees: five planes, turned so that it looks up.
#![tactic(auto)]

mod observation;
mod planes;

pub use observation::observe;
