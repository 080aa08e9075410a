// The replay's library: the match played line by line, its placings. The types that its modules share.
#![tactic(auto)]

mod play;
mod turns;

pub use play::{close, new_desk, take_line};
use standing::Match;

// What a line did: whether the match goes on, the match, how many words the next image has, how many bytes were printed. It is no Result, since
// `Plays` says of a line that stops the match too which match stands and what is printed.
#[derive(Clone, Copy)]
pub struct Turned {
    pub more: bool,
    pub game: Match,
    pub words: usize,
    pub text: usize,
}

// Where a replay stands: whether the first line was taken, the match, and how many words its image has. It is no Option, since the definitions
// `line_says` and `desk_after` read its fields.
#[derive(Clone, Copy)]
pub struct Desk {
    pub begun: bool,
    pub game: Match,
    pub words: usize,
}
