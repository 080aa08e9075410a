// The calls that take a setting: the check, the initial state, the step, who was hit where and, in `books`, the writer. A setting is read from its text just before
// it is used, since each step of a proof speaks of every value at hand.
ghost use Rattle.std.specs.Prelude.{◌≤◌};

use crate::books::write_line;
use parsing::{read_first, start_of};
use replies::{
    Fields, Numbers, PATTERN, end, kept, nothing, put, put_events, put_hits, put_number, put_words,
    put_written, refuse,
};
use rules::{Refusal, Stepped};

// `v S`
pub fn validate(s: &[u8]) -> Option<Result<Numbers, Refusal>> {
    let setting = read_first(s)?;
    Some(arena::validate(setting).map(nothing))
}

// `i S cap`; s starts at cap.
fn initial_line(setting: &[u8], s: &[u8], text: &mut [u8], at: usize) -> Option<usize> {
    let mut values = [0u64; 1];
    Fields::of(s).last_numbers(&mut values)?;
    let [cap] = values;
    if 16384 < cap {
        return None;
    }
    let setting = read_first(setting)?;
    let mut room = [PATTERN; 16384];
    let out = &mut room[..cap as usize];
    let answer = arena::initial_state(setting, out);
    Some(put_written(text, at, answer, out))
}

fn put_step(text: &mut [u8], at: usize, stepped: Result<Stepped, Refusal>, out: &[u16]) -> usize {
    match stepped {
        Ok(stepped) => {
            let a = put(text, at, b'a');
            let b = put_number(text, a, u64::from(stepped.terminal));
            let c = put_events(text, b, stepped.events);
            let d = put_words(text, c, out, stepped.words);
            end(text, d, kept(out, stepped.words))
        }
        Err(r) => refuse(text, at, r, kept(out, 0)),
    }
}

// With the first k actions.
fn step(
    setting: &[u8],
    words: &[u16],
    actions: [u64; 64],
    k: usize,
    cap: u64,
    text: &mut [u8],
    at: usize,
) -> Option<usize>
    requires { k ≤ 64 }
{
    if 16384 < cap {
        return None;
    }
    let setting = read_first(setting)?;
    let mut room = [PATTERN; 16384];
    let out = &mut room[..cap as usize];
    let stepped = arena::step(setting, words, &actions[..k], out);
    Some(put_step(text, at, stepped, out))
}

// Who was hit where, with the first k actions.
fn struck(
    setting: &[u8],
    words: &[u16],
    actions: [u64; 64],
    k: usize,
    text: &mut [u8],
    at: usize,
) -> Option<usize>
    requires { k ≤ 64 }
{
    let setting = read_first(setting)?;
    match arena::struck(setting, words, &actions[..k]) {
        Ok(hits) => {
            let a = put(text, at, b'a');
            let b = put_hits(text, a, hits);
            Some(end(text, b, true))
        }
        Err(r) => Some(refuse(text, at, r, true)),
    }
}

// How many numbers stand before the actions, of two: `s` has a buffer's length and their count, `H` their count.
fn missing(letter: u8) -> usize
    ensures { result ≤ 2 }
{
    if letter == b's' { 0 } else { 1 }
}

// `s S cap K a1..aK W` or `H S K a1..aK W`; s starts behind S.
fn acting_line(
    letter: u8,
    setting: &[u8],
    s: &[u8],
    words: &mut [u16],
    text: &mut [u8],
    at: usize,
) -> Option<usize> {
    let mut fields = Fields::of(s);
    let mut values = [0u64; 2];
    fields.numbers(&mut values[missing(letter)..])?;
    let [cap, k] = values;
    if 64 < k {
        return None;
    }
    let mut actions = [0u64; 64];
    fields.numbers(&mut actions[..k as usize])?;
    let image = fields.last_words(16384, words)?;
    if letter == b'H' {
        struck(setting, image, actions, k as usize, text, at)
    } else {
        step(setting, image, actions, k as usize, cap, text, at)
    }
}

// `i`, `s`, `H` or `B`: S stands before the eighth field.
pub fn setting_line(
    letter: u8,
    s: &[u8],
    words: &mut [u16],
    text: &mut [u8],
    at: usize,
) -> Option<usize> {
    let eighth = start_of(s, 7);
    if eighth < 1 || s.len() < eighth {
        return None;
    }
    let setting = &s[..eighth - 1];
    let rest = &s[eighth..];
    match letter {
        b'i' => initial_line(setting, rest, text, at),
        b's' | b'H' => acting_line(letter, setting, rest, words, text, at),
        _ => write_line(setting, rest, words, text, at),
    }
}
