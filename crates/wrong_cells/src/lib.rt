// Which cell shows a fault of an image: a search for each of 54 to 56.
#![tactic(auto)]

mod cells;

pub use cells::{first_beyond, first_fall, first_twice, twice_at};
