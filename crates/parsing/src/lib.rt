// The text of the programs, read: the input cut into lines, the lines into fields and numbers. The types that its modules share.
#![tactic(auto)]

mod fields;
mod lines;
mod numbers;
mod split;

pub use fields::start_of;
pub use lines::{next_number, read_first, read_later};
pub use numbers::grid_in;
pub use split::{feed, line_end};

// A line after the first: a draw of an index, or a move with an action for each snake.
#[derive(Clone, Copy)]
pub enum Line {
    Draw(u64),
    Move([u64; 8]),
}

// A part of a line.
#[derive(Clone, Copy)]
pub struct Span {
    pub from: usize,
    pub to: usize,
}

// A number, and where the field after it starts.
#[derive(Clone, Copy)]
pub struct Got {
    pub num: Option<u64>,
    pub next: usize,
}
