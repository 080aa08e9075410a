// The answer to one line: the call by its letter.
use crate::{books, steps};
use replies::{Numbers, flush, put, put_reply};
use rules::Refusal;

// The calls that say few numbers.
fn reply(letter: u8, s: &[u8], words: &mut [u16]) -> Option<Result<Numbers, Refusal>> {
    match letter {
        b'v' => steps::validate(s),
        b'k' => replies::rank(s, words),
        b'p' => replies::observation_space(s),
        b'w' => replies::reward(s),
        b'n' => replies::outcome_of(s),
        b'h' => replies::turn(s),
        _ => replies::image_reply(letter, s, words),
    }
}

// The fields of a call are the bytes behind its letter and a space.
fn call(letter: u8, s: &[u8], words: &mut [u16], text: &mut [u8], at: usize) -> Option<usize> {
    match letter {
        b'i' | b's' | b'H' | b'B' => steps::setting_line(letter, s, words, text, at),
        b'd' | b'o' | b'b' => replies::image_line(letter, s, words, text, at),
        b'P' => books::page_line(s, words, text, at),
        _ => Some(put_reply(text, at, reply(letter, s, words)?)),
    }
}

// Only `q` has no fields.
fn answer(s: &[u8], words: &mut [u16], text: &mut [u8], at: usize) -> Option<usize> {
    match s {
        [letter] => Some(put_reply(text, at, replies::action_space(*letter)?)),
        [letter, b' ', fields @ ..] => call(*letter, fields, words, text, at),
        _ => None,
    }
}

// The line of a line that is no call.
fn put_no_call(text: &mut [u8], at: usize) -> usize {
    let i = put(text, at, b'e');
    put(text, i, b'\n')
}

// Answers a line that has ended; one that fills its room is longer than any call. A line that is no call has put nothing.
pub fn answer_line(
    line: &[u8],
    held: usize,
    words: &mut [u16],
    text: &mut [u8],
    at: usize,
) -> usize {
    let from = flush(text, at, 32768);
    if line.len() <= held {
        return put_no_call(text, from);
    }
    match answer(&line[..held], words, text, from) {
        Some(end) => end,
        None => put_no_call(text, from),
    }
}
