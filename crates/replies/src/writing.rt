// Answers as text, put one after the other into a lent buffer. Each call answers the index after what it put.
// What was put is written out from 32,768 bytes on, before each answer and among many words, so that the room of 65,536 never ends.
use crate::buffers::kept;
use printing::put_item;
use rules::Refusal;

// Standard output, as `io` numbers it.
const STDOUT: i32 = 1;

pub fn put(text: &mut [u8], at: usize, b: u8) -> usize {
    if text.len() <= at {
        return at;
    }
    text[at] = b;
    at + 1
}

// Writes what was put, where it is at least so much.
pub fn flush(text: &[u8], at: usize, least: usize) -> usize {
    if at < least {
        return at;
    }
    if text.len() < at {
        return 0;
    }
    io::write_all(STDOUT, &text[..at]);
    0
}

// A space and a number, of at most twenty digits.
pub fn put_number(text: &mut [u8], at: usize, v: u64) -> usize {
    if text.len() < 21 || text.len() - 21 < at {
        return at;
    }
    put_item(text, at, b' ', v)
}

// Each word, after a space.
pub fn put_each(text: &mut [u8], from: usize, words: &[u16]) -> usize {
    let mut at = from;
    for word in words {
        at = flush(text, at, 32768);
        at = put_number(text, at, u64::from(*word));
    }
    at
}

// W: how many words, then each. There are never more than were lent.
pub fn put_words(text: &mut [u8], at: usize, words: &[u16], n: usize) -> usize {
    let i = put_number(text, at, n as u64);
    if words.len() < n {
        return i;
    }
    put_each(text, i, &words[..n])
}

// The line's end; `!` before it where a word has changed that the promise leaves alone.
pub fn end(text: &mut [u8], at: usize, kept: bool) -> usize {
    if kept {
        return put(text, at, b'\n');
    }
    let i = put(text, at, b' ');
    let j = put(text, i, b'!');
    put(text, j, b'\n')
}

// Whether a refusal has a word: what is wrong with an image.
pub fn has_word(r: Refusal) -> bool {
    matches!(r.number(), 50..=56)
}

fn put_refusal(text: &mut [u8], at: usize, r: Refusal) -> usize {
    let i = put_number(text, at, u64::from(r.number()));
    if has_word(r) {
        put_number(text, i, r.word() as u64)
    } else {
        i
    }
}

// The line of a refusal.
pub fn refuse(text: &mut [u8], at: usize, r: Refusal, kept: bool) -> usize {
    let i = put(text, at, b'r');
    let j = put_refusal(text, i, r);
    end(text, j, kept)
}

// The line of an answer that is the words of a lent buffer.
pub fn put_written(
    text: &mut [u8],
    at: usize,
    answer: Result<usize, Refusal>,
    out: &[u16],
) -> usize {
    match answer {
        Ok(n) => {
            let i = put(text, at, b'a');
            let j = put_words(text, i, out, n);
            end(text, j, kept(out, n))
        }
        Err(r) => refuse(text, at, r, kept(out, 0)),
    }
}
