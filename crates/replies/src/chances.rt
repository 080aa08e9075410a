// The chance calls: the draw and the rank.
use crate::buffers::{PATTERN, kept};
use crate::fields::Fields;
use crate::reply::{Numbers, number};
use crate::writing::{end, put, put_words, refuse};
use rules::{Drawn, Refusal};

// `k K c1..cK W`
pub fn rank(s: &[u8], words: &mut [u16]) -> Option<Result<Numbers, Refusal>> {
    let mut list = [PATTERN; 2048];
    let mut fields = Fields::of(s);
    let count = fields.words(&mut list)?;
    let cells = list.get(..count)?;
    let image = fields.last_words(16384, words)?;
    Some(arena::rank(image, cells).map(number))
}

fn put_draw(
    text: &mut [u8],
    at: usize,
    drawn: Result<Drawn, Refusal>,
    out: &[u16],
    list: &[u16],
) -> usize {
    match drawn {
        Ok(drawn) => {
            let a = put(text, at, b'a');
            let b = put_words(text, a, out, drawn.words);
            let c = put_words(text, b, list, drawn.cells);
            end(text, c, kept(out, drawn.words) && kept(list, drawn.cells))
        }
        Err(r) => refuse(text, at, r, kept(out, 0) && kept(list, 0)),
    }
}

// `d cap capList INDEX W`
pub fn draw_line(values: [u64; 9], words: &[u16], text: &mut [u8], at: usize) -> Option<usize> {
    let [cap, cap_list, index, ..] = values;
    if 16384 < cap || 16384 < cap_list {
        return None;
    }
    let mut out_room = [PATTERN; 16384];
    let mut list_room = [PATTERN; 16384];
    let out = &mut out_room[..cap as usize];
    let list = &mut list_room[..cap_list as usize];
    let drawn = arena::draw(words, index, out, list);
    Some(put_draw(text, at, drawn, out, list))
}
