// A match and a move's events, both ways.
ghost use Rattle.std.specs.Prelude.{◌≡◌};
ghost use Rattle.flat.specs.Games.{events_in, match_in, match_numbers};

use crate::readings::event_in;
use crate::tells::bit;
use rules::{Event, Setting};
use standing::Match;

// The eight events of a step.
pub fn events_in(e: &[[u8; 8]; 8]) -> [Event; 8]
    ensures { result ≡ events_in e.now }
{
    [
        event_in(&e[0]),
        event_in(&e[1]),
        event_in(&e[2]),
        event_in(&e[3]),
        event_in(&e[4]),
        event_in(&e[5]),
        event_in(&e[6]),
        event_in(&e[7]),
    ]
}

// moves, over, timeout, the eight deaths, the eight that lost and live.
pub fn match_in(setting: Setting, m: &[u64; 19]) -> Match
    ensures { result ≡ match_in setting m.now }
{
    Match {
        setting,
        moves: m[0],
        deaths: [m[3], m[4], m[5], m[6], m[7], m[8], m[9], m[10]],
        behind: [
            m[11] != 0,
            m[12] != 0,
            m[13] != 0,
            m[14] != 0,
            m[15] != 0,
            m[16] != 0,
            m[17] != 0,
            m[18] != 0,
        ],
        over: m[1] != 0,
        timeout: m[2] != 0,
    }
}

pub fn match_numbers(m: Match) -> [u64; 19]
    ensures { result ≡ match_numbers m }
{
    [
        m.moves,
        bit(m.over),
        bit(m.timeout),
        m.deaths[0],
        m.deaths[1],
        m.deaths[2],
        m.deaths[3],
        m.deaths[4],
        m.deaths[5],
        m.deaths[6],
        m.deaths[7],
        bit(m.behind[0]),
        bit(m.behind[1]),
        bit(m.behind[2]),
        bit(m.behind[3]),
        bit(m.behind[4]),
        bit(m.behind[5]),
        bit(m.behind[6]),
        bit(m.behind[7]),
    ]
}
