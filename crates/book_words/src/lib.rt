// A book's words: numbers of one, two and four words, and a setting's, both ways.
#![tactic(auto)]

mod settings;
mod words;

pub use settings::{setting_in, write_front};
pub use words::{four, pair, word, write_pair};
