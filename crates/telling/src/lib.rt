// What several exported calls tell: a number, how many words were written, where a body lies; a lent array is untouched on a refusal.
#![tactic(auto)]

mod answers;
mod bodies;

pub use answers::{tell_number, tell_words};
pub use bodies::tell_body;
