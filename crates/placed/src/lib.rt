// What the first bodies tell: traced, apart, with cells left for the food.
#![tactic(auto)]

mod place;

pub use place::{check_places, place_check};
