// The match as a value: what a move makes of it, and which events its line shows.
ghost use Rattle.std.specs.Prelude.{◌≡◌, ◌<◌, ◌≤◌};
ghost use Rattle.lists.specs.Choice.{◌if◌else◌};
ghost use Rattle.lists.specs.Below.{filled};
ghost use Rattle.rules.specs.Events.{blank};
ghost use Rattle.standing.specs.Shown.{mark_shown, events_shown};
ghost use Rattle.standing.specs.Standing.{few, snakes_of, counted, reached, ends_by, deaths_after, lost_alive, behind_after, moved};

use crate::Match;
use events::{mark, no_events};
use layout::alive_at;
use lists::word_at;
use rules::Event;

fn at_most_eight(n: u64) -> usize
    ensures { (result ≡ few n) × (result ≤ 8) }
{
    n.min(8) as usize
}

// At most eight, as every accepted setting has.
pub fn snakes_of(m: Match) -> usize
    ensures { (result ≡ snakes_of m) × (result ≤ 8) }
{
    at_most_eight(m.setting.num_snakes)
}

// One move more; 2^64 - 1 of them are never made.
fn count_on(k: u64) -> u64
    ensures { result ≡ counted k }
{
    k.saturating_add(1)
}

fn has_reached(limit: Option<u64>, k: u64) -> bool
    ensures { result ≡ reached limit k }
{
    limit.is_some_and(|most| most <= k)
}

// Whether a move ends the match by max_ticks.
fn ends_by(m: Match, over: bool) -> bool
    ensures { result ≡ ends_by m over }
{
    !over && has_reached(m.setting.max_ticks, count_on(m.moves))
}

// The events of n snakes, the living marked y.
fn mark_all(image: &[u16], events: [Event; 8], n: usize) -> [Event; 8]
    requires { n ≤ 8 }
    ensures { result ≡ filled (mark_shown image.now events) n 8 blank }
{
    let mut out = no_events();
    for (i, event) in events[..n].iter().enumerate() {
        out[i] = mark(*event, word_at(image, alive_at(i)) == 1);
    }
    out
}

// The events that a move's line shows: the living marked y where max_ticks ends the match.
pub fn events_shown(m: Match, over: bool, image: &[u16], events: [Event; 8]) -> [Event; 8]
    ensures { result ≡ events_shown m over image.now events }
{
    if ends_by(m, over) {
        let n = at_most_eight(word_at(image, 0));
        return mark_all(image, events, n);
    }
    events
}

// For each snake the move on which it died: move k for those that die on it.
fn deaths_after(k: u64, deaths: [u64; 8], events: &[Event; 8]) -> [u64; 8]
    ensures { result ≡ deaths_after k deaths events.now }
{
    let mut after = deaths;
    for (i, event) in events.iter().enumerate() {
        if event.died {
            after[i] = k;
        }
    }
    after
}

fn lost_alive(e: Event) -> bool
    ensures { result ≡ lost_alive e }
{
    e.lost && !e.died
}

// For each snake whether it lost on this move and lives.
fn behind_after(events: &[Event; 8]) -> [bool; 8]
    ensures { result ≡ behind_after events.now }
{
    // A loop: the library's map fills an array of Options first.
    let mut behind = [false; 8];
    for (i, event) in events.iter().enumerate() {
        behind[i] = lost_alive(*event);
    }
    behind
}

// The match after a move.
pub fn after_move(m: Match, over: bool, events: &[Event; 8]) -> Match
    ensures { result ≡ moved m over events.now }
{
    let moves = count_on(m.moves);
    let timeout = ends_by(m, over);
    Match {
        setting: m.setting,
        moves,
        deaths: deaths_after(moves, m.deaths, events),
        behind: behind_after(events),
        over: over || timeout,
        timeout,
    }
}
