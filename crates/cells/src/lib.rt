// How the cells of an image are written: a body with or without a new head, food with cells put in or less those eaten. They know no move and no draw.
#![tactic(auto)]

mod added;
mod bodies;
mod eaten;

pub use added::put_all;
pub use bodies::write_body;
pub use eaten::{count_left, write_left};
