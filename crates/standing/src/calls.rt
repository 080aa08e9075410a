// A match for a server: it keeps the value beside the image, and after each step the value takes the move.
ghost use Rattle.std.specs.Prelude.{◌≡◌};
ghost use Rattle.standing.specs.Standing.{fresh};
ghost use Rattle.standing.specs.Calls.{move_says, Takes};

use crate::moves::{after_move, events_shown};
use crate::{Match, Taken};
use rules::{Event, Refusal, Setting};

// A match that has just begun.
pub fn new_match(setting: Setting) -> Match
    ensures { result ≡ fresh setting }
{
    Match {
        setting,
        moves: 0,
        deaths: [0; 8],
        behind: [false; 8],
        over: false,
        timeout: false,
    }
}

// A move: `over` and `events` are a step's answer, `image` is what it wrote. Refusal 33.
pub fn take_move(m: Match, over: bool, image: &[u16], events: [Event; 8]) -> Result<Taken, Refusal>
    ensures { Takes (move_says m over image.now events) result }
{
    if m.over {
        return Err(Refusal::Over);
    }
    let game = after_move(m, over, &events);
    Ok(Taken {
        game,
        events: events_shown(m, over, image, events),
    })
}
