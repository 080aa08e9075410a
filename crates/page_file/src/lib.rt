// A page of a book's file: the file as words, the page that the contents find there, its board, and the line of the match that leads to it.
#![tactic(auto)]

mod board;
mod entry;
mod file;
mod moves;
mod pages;

pub use board::put_board;
pub use entry::put_entry;
pub use file::read_words;
pub use moves::moves_to;
pub use pages::{NotLoaded, load};
