// A book's table of contents: whether contents are accepted (40), and where they say that a page lies (41). It passes on a book's words.
#![tactic(auto)]

mod places;
mod tests;

pub use book_words::{pair, setting_in, word, write_front, write_pair};
pub use places::find;

// Where a page lies in its book, in words.
#[derive(Clone, Copy)]
pub struct Span {
    pub start: usize,
    pub len: usize,
}
