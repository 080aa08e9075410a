// All living snakes move, and all are judged on that one world.
#![tactic(auto)]

mod causes;
mod hits;
mod moves;

pub use causes::{find_other, find_rest, judge};
pub use hits::hit_at;
use rules::{Cause, Heading, Place};

// A snake after the move: its head, whether that is inside the grid, and its cell there; the rest is the first `keep` words of its body in the image.
// Sixteen bytes: eight of them are copied in a few instructions.
#[derive(Clone, Copy)]
pub struct Move {
    pub moves: bool,
    pub heading: Heading,
    pub eats: bool,
    pub inside: bool,
    pub head: Place,
    pub cell: u16,
    pub keep: u16,
}

// All moves, and the death that each led to.
#[derive(Clone, Copy)]
pub struct Judged {
    pub moves: [Move; 8],
    pub causes: [Option<Cause>; 8],
}
