// The calls on books: `B` writes one, `P` reads a page.
use contents::Span;
use parsing::read_first;
use replies::{Fields, PATTERN, book_room, put, put_each, put_number, put_written, refuse};

fn write_long(
    setting: &[u8],
    pages: u64,
    row: &[u16],
    cap: u64,
    text: &mut [u8],
    at: usize,
) -> Option<usize> {
    if 262144 < cap {
        return None;
    }
    let setting = read_first(setting)?;
    let mut room = book_room();
    let out = &mut room[..cap as usize];
    let answer = book::write(setting, pages, row, out);
    Some(put_written(text, at, answer, out))
}

// A short buffer where that is enough, since each is filled anew.
fn write(
    setting: &[u8],
    pages: u64,
    row: &[u16],
    cap: u64,
    text: &mut [u8],
    at: usize,
) -> Option<usize> {
    if 16384 < cap {
        return write_long(setting, pages, row, cap, text, at);
    }
    let setting = read_first(setting)?;
    let mut room = [PATTERN; 16384];
    let out = &mut room[..cap as usize];
    let answer = book::write(setting, pages, row, out);
    Some(put_written(text, at, answer, out))
}

// `B S cap PAGES W`; s starts at cap.
pub fn write_line(
    setting: &[u8],
    s: &[u8],
    words: &mut [u16],
    text: &mut [u8],
    at: usize,
) -> Option<usize> {
    let mut fields = Fields::of(s);
    let mut values = [0u64; 2];
    fields.numbers(&mut values)?;
    let [cap, pages] = values;
    let row = fields.last_words(262144, words)?;
    write(setting, pages, row, cap, text, at)
}

// The place by one call, the words by the other.
fn put_page(text: &mut [u8], at: usize, book: &[u16], page: u64) -> usize {
    match book::page_in(book, page) {
        Ok(Span { start, len }) => {
            let a = put(text, at, b'a');
            let b = put_number(text, a, start as u64);
            let c = put_number(text, b, len as u64);
            let d = put_each(text, c, book::page_of(book, page));
            put(text, d, b'\n')
        }
        Err(r) => refuse(text, at, r, true),
    }
}

// `P PAGE W`
pub fn page_line(s: &[u8], words: &mut [u16], text: &mut [u8], at: usize) -> Option<usize> {
    let mut fields = Fields::of(s);
    let mut values = [0u64; 1];
    fields.numbers(&mut values)?;
    let book = fields.last_words(262144, words)?;
    Some(put_page(text, at, book, values[0]))
}
