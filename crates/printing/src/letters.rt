// The parts of an output line: head, body, events; the lines of a refusal and of the placings.
ghost use Rattle.std.specs.Prelude.{◌≡◌, ◌∷◌, ◌+◌, ◌≤◌, length};
ghost use Rattle.lists.specs.Below.{concat_below};
ghost use Rattle.printing.specs.Text.{Wrote, letter_of, deeds_text, ends_text, events_text, first_text, body_text, head_text, refusal_text, placing_text, placings_text};

use crate::bytes::{digit_of, put, put_if, put_item, put_two};
use events::is_death;
use rules::{Cause, Event};

fn letter_of(c: Option<Cause>) -> u8
    ensures { result ≡ letter_of c }
{
    match c {
        None => 0,
        Some(Cause::Wall) => b'W',
        Some(Cause::SelfBody) => b'S',
        Some(Cause::OppBody) => b'O',
        Some(Cause::HeadOn) => b'H',
    }
}

fn put_deeds(out: &mut [u8], at: usize, e: Event) -> usize
    requires { at + 3 ≤ length out.old }
    ensures { Wrote out.old out.new at result (deeds_text e) 3 }
{
    let i = put_if(out, at, e.ate_food, b'a');
    let cause = e.death_cause.get();
    let j = put_if(out, i, is_death(cause), letter_of(cause));
    put_if(out, j, e.killed_opponent, b'k')
}

fn put_ends(out: &mut [u8], at: usize, e: Event) -> usize
    requires { at + 4 ≤ length out.old }
    ensures { Wrote out.old out.new at result (ends_text e) 4 }
{
    let i = put_if(out, at, e.won, b'w');
    let j = put_if(out, i, e.lost, b'l');
    let k = put_if(out, j, e.drew, b'x');
    put_if(out, k, e.survived_to_max_ticks, b'y')
}

// The events' letters, `-` if none.
pub fn put_events(out: &mut [u8], at: usize, e: Event) -> usize
    requires { at + 7 ≤ length out.old }
    ensures { Wrote out.old out.new at result (events_text e) 7 }
{
    let event = &e;
    let i = put_deeds(out, at, *event);
    let j = put_ends(out, i, *event);
    if j == at { put(out, at, b'-') } else { j }
}

// The first cell, `-` if there is none.
fn put_first(out: &mut [u8], at: usize, size: u64, cell: u64) -> usize
    requires { at + 21 ≤ length out.old }
    ensures { Wrote out.old out.new at result (58 ∷ first_text size cell) 21 }
{
    if size == 0 {
        put_two(out, at, b':', b'-')
    } else {
        put_item(out, at, b':', cell)
    }
}

pub fn put_body(out: &mut [u8], at: usize, alive: bool, size: u64, cell: u64) -> usize
    requires { at + 44 ≤ length out.old }
    ensures { Wrote out.old out.new at result (body_text alive size cell) 44 }
{
    let i = put_two(out, at, b' ', digit_of(alive));
    let j = put_item(out, i, b':', size);
    put_first(out, j, size, cell)
}

pub fn put_head(out: &mut [u8], at: usize, letter: u8, over: bool, due: u64, food: u64) -> usize
    requires { at + 45 ≤ length out.old }
    ensures { Wrote out.old out.new at result (head_text letter over due food) 45 }
{
    let i = put(out, at, letter);
    let j = put_two(out, i, b' ', digit_of(over));
    let k = put_item(out, j, b' ', due);
    put_item(out, k, b' ', food)
}

// A refusal's line, at the front of a lent buffer, with its length.
pub fn put_refusal(out: &mut [u8], k: u64) -> usize
    requires { 23 ≤ length out.old }
    ensures { Wrote out.old out.new 0 result (refusal_text k) 23 }
{
    let i = put(out, 0, b'r');
    let j = put_item(out, i, b' ', k);
    put(out, j, b'\n')
}

fn put_each(out: &mut [u8], from: usize, places: &[u64]) -> usize
    requires { (length places.now ≤ 8) × (from + 168 ≤ length out.old) }
    ensures { Wrote out.old out.new from result (concat_below (length places.now) (placing_text places.now)) 168 }
{
    let mut at = from;
    for place in places {
        at = put_item(out, at, b' ', *place);
    }
    at
}

// The line of the placings.
pub fn put_placings(out: &mut [u8], all: [u64; 8], n: usize) -> usize
    requires { (n ≤ 8) × (170 ≤ length out.old) }
    ensures { Wrote out.old out.new 0 result (placings_text all n) 170 }
{
    let i = put(out, 0, b'p');
    let j = put_each(out, i, &all[..n]);
    put(out, j, b'\n')
}
