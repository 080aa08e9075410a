// What most calls say: at most eight numbers, or why they are refused. It is put into the text in one place.
use crate::writing::{put, put_number, refuse};
use rules::Refusal;

// The first `count` of these.
#[derive(Clone, Copy)]
pub struct Numbers {
    pub count: usize,
    pub all: [u64; 8],
}

// An answer that says nothing more.
pub fn nothing(_: ()) -> Numbers {
    Numbers {
        count: 0,
        all: [0u64; 8],
    }
}

pub fn number(v: u64) -> Numbers {
    Numbers {
        count: 1,
        all: [v, 0, 0, 0, 0, 0, 0, 0],
    }
}

// Each number, after a space.
pub fn put_numbers(text: &mut [u8], from: usize, numbers: &[u64]) -> usize {
    let mut at = from;
    for number in numbers {
        at = put_number(text, at, *number);
    }
    at
}

// The line of a reply; no buffer was lent.
pub fn put_reply(text: &mut [u8], at: usize, reply: Result<Numbers, Refusal>) -> usize {
    match reply {
        Ok(numbers) => {
            let i = put(text, at, b'a');
            let j = put_numbers(text, i, &numbers.all[..numbers.count.min(8)]);
            put(text, j, b'\n')
        }
        Err(r) => refuse(text, at, r, true),
    }
}
