// How a match stands: the moves made, who died when, its end and its placings; and the line that shows an image. A match is a value: a server
// keeps it beside the image, `new_match`, `take_move` and `places` are its calls, and none of them has a `requires`.
#![tactic(auto)]

mod calls;
mod moves;
mod placings;
mod shown;

pub use calls::{new_match, take_move};
pub use moves::{after_move, events_shown, snakes_of};
pub use placings::places;
use rules::{Event, Setting};
pub use shown::{put_end, put_line};

// The setting, the moves made, for each snake the move on which it died (0 while it lives) and whether it lost and lives, whether the
// match is over, and whether max_ticks ended it. A death is a number with 0 for the living, since the definitions `outlives` and `death_at` count so.
#[derive(Clone, Copy)]
pub struct Match {
    pub setting: Setting,
    pub moves: u64,
    pub deaths: [u64; 8],
    pub behind: [bool; 8],
    pub over: bool,
    pub timeout: bool,
}

// What a move makes of a match, and its events as the replay shows them.
#[derive(Clone, Copy)]
pub struct Taken {
    pub game: Match,
    pub events: [Event; 8],
}
