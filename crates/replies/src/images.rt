// A snake's body.
use crate::writing::{put, put_number, put_words};
use layout::start_at;
use lists::word_at;

// The start word of a snake's record; 0 for a malformed image or no such snake.
fn start_of(words: &[u16], snake: u64) -> u64 {
    if !arena::well_formed(words) || word_at(words, 0) <= snake || 7 < snake {
        return 0;
    }
    word_at(words, start_at(snake as usize))
}

// `b SNAKE W`
pub fn body_line(snake: u64, words: &[u16], text: &mut [u8], at: usize) -> usize {
    let a = put(text, at, b'a');
    let b = put_number(text, a, start_of(words, snake));
    let body = arena::body(words, snake as usize);
    let c = put_words(text, b, body, body.len());
    put(text, c, b'\n')
}
