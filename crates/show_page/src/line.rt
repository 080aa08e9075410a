// The line that the replay prints for a page's state. A book holds no events: they are those of the move that leads from the page before to this one.
ghost use Rattle.std.specs.Prelude.{◌≤◌, length};

use crate::messages::STDOUT;
use events::no_events;
use lists::word_at;
use page_file::{load, moves_to, put_entry};
use referee::Desk;
use rules::Setting;
use std::io::{Read, Seek};

// Whether it is known what leads to the page, and whether the line could be written.
#[derive(Clone, Copy)]
pub struct Shown {
    pub known: bool,
    pub heard: bool,
}

fn print(out: &[u8], n: usize) -> bool {
    match out.get(..n) {
        Some(line) => io::write_all(STDOUT, line),
        None => false,
    }
}

// A line without events.
fn put_still(letter: u8, image: &[u16]) -> bool {
    let mut out = [0u8; 512];
    let n = (word_at(image, 0) as usize).min(8);
    let k = standing::put_line(&mut out, letter, false, image, no_events(), n);
    print(&out, k)
}

// `s`, a state: the page is not the start, and the page before does not lead here.
fn put_unknown(image: &[u16]) -> Shown {
    Shown {
        known: false,
        heard: put_still(b's', image),
    }
}

// ---- what leads to the page: the start, or a line of the match after the page before

fn put_start(setting: Setting, image: &[u16]) -> Shown {
    let mut start = [0u16; 9253];
    match arena::initial_state(setting, &mut start) {
        Ok(words) if start.get(..words) == Some(image) => Shown {
            known: true,
            heard: put_still(b'i', image),
        },
        _ => put_unknown(image),
    }
}

// A move is shown as the replay shows it, with its events.
fn put_turn(setting: Setting, moves: u64, past: &mut [u16], len: usize, image: &[u16]) -> Shown
    requires { (len ≤ length past.old) × (9253 ≤ length past.old) }
{
    let mut line = [0u8; 32];
    let mut next = [0u16; 9253];
    let mut list = [0u16; 1024];
    let mut out = [0u8; 512];
    let k = put_entry(&mut line, &past[..len], image);
    let mut game = standing::new_match(setting);
    game.moves = moves;
    let desk = Desk {
        begun: true,
        game,
        words: len,
    };
    let t = referee::take_line(desk, past, &mut next, &mut list, &line[..k], &mut out);
    if !t.more || past.get(..t.words) != Some(image) {
        return put_unknown(image);
    }
    Shown {
        known: true,
        heard: print(&out, t.text),
    }
}

// After the page before.
fn put_next<F: Read + Seek>(
    file: &mut F,
    contents: &[u16],
    words: usize,
    page: u64,
    setting: Setting,
    image: &[u16],
    bytes: &mut [u8],
) -> Shown {
    let mut past = [0u16; 9254];
    match load(file, contents, words, page, &mut past, bytes) {
        Ok(len) => put_turn(
            setting,
            moves_to(file, contents, page),
            &mut past,
            len,
            image,
        ),
        Err(_) => put_unknown(image),
    }
}

pub(crate) fn put_state<F: Read + Seek>(
    file: &mut F,
    contents: &[u16],
    words: usize,
    page: u64,
    image: &[u16],
    bytes: &mut [u8],
) -> Shown {
    if contents.len() < 17 {
        return put_unknown(image);
    }
    let setting = contents::setting_in(contents);
    if page == 0 {
        return put_start(setting, image);
    }
    put_next(file, contents, words, page - 1, setting, image, bytes)
}
