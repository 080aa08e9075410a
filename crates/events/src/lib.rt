// What an event says: its causes and their numbers, the blank one, the mark of a truncation.
#![tactic(auto)]

ghost use Rattle.std.specs.Prelude.{◌≡◌, ◌≤◌, replicate};
ghost use Rattle.rules.specs.Events.{dies, blank};
ghost use Rattle.rules.specs.Turns.{truncated};
ghost use Rattle.rules.specs.Causes.{cause_number, cause_in};

use rules::{Cause, DeathCause, Event};

pub fn is_death(cause: Option<Cause>) -> bool
    ensures { result ≡ dies cause }
{
    cause.is_some()
}

// No From: an event without a cause has a number too, and an Option takes no impl from here.
pub fn cause_number(cause: Option<Cause>) -> u16
    ensures { (result ≡ cause_number cause) × (result ≤ 4) }
{
    u16::from(DeathCause::new(cause).number())
}

pub fn cause_in(number: u16) -> Option<Cause>
    ensures { result ≡ cause_in number }
{
    match number {
        1 => Some(Cause::Wall),
        2 => Some(Cause::SelfBody),
        3 => Some(Cause::OppBody),
        4 => Some(Cause::HeadOn),
        _ => None,
    }
}

// Eight blank events.
pub fn no_events() -> [Event; 8]
    ensures { result ≡ replicate 8 blank }
{
    [Event {
        ate_food: false,
        died: false,
        death_cause: DeathCause::new(None),
        killed_opponent: false,
        won: false,
        lost: false,
        drew: false,
        survived_to_max_ticks: false,
    }; 8]
}

// Truncation: the survival flag is the alive flag, and nothing else changes.
pub fn mark(event: Event, alive: bool) -> Event
    ensures { result ≡ truncated event alive }
{
    Event {
        survived_to_max_ticks: alive,
        ..event
    }
}
