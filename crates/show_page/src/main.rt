// A page of a match book, as a person reads it. The first argument is the page's number, standard input the book: a file, or what is read whole first,
// as a pipe. What is wrong is said on standard error, in one line.
#![tactic(auto)]

mod line;
mod messages;

use line::put_state;
use messages::{put_foot, tell};
use page_file::{NotLoaded, load, put_board, read_words};
use rules::Refusal;
use std::env::{Env, FillError};
use std::io::{Read, Seek, SeekFrom};

// What is wrong.
#[derive(Clone, Copy)]
pub enum Fault {
    NoPage,
    NoFile,
    OddFile,
    NotRead,
    // The page asked for, and how many the contents count.
    Refused { why: Refusal, page: u64, pages: u64 },
    NotWritten,
}

// Whether the program has that argument.
fn has_arg(rt: &HostRuntime, i: usize, text: &mut [u8]) -> bool {
    !matches!(rt.arg(i, text), Err(FillError::NotPresent))
}

// The page asked for: the one argument, a number.
fn asked(rt: &HostRuntime) -> Result<u64, Fault> {
    let mut text = io::buffer();
    if has_arg(rt, 2, &mut text) {
        return Err(Fault::NoPage);
    }
    let Ok(n) = rt.arg(1, &mut text) else {
        return Err(Fault::NoPage);
    };
    let got = parsing::next_number(&text[..n], 0);
    match got.num {
        Some(page) if n < got.next => Ok(page),
        _ => Err(Fault::NoPage),
    }
}

// All of it is written, even where a part could not be.
fn put_page<F: Read + Seek>(
    file: &mut F,
    contents: &[u16],
    words: usize,
    page: u64,
    image: &[u16],
    bytes: &mut [u8],
) -> Result<(), Fault> {
    let state = put_state(file, contents, words, page, image, bytes);
    let board = put_board(image);
    let foot = put_foot(file, contents, page, state);
    if state.heard & board & foot {
        Ok(())
    } else {
        Err(Fault::NotWritten)
    }
}

fn fault_of(cause: NotLoaded, page: u64, contents: &[u16]) -> Fault {
    match cause {
        NotLoaded::NotRead => Fault::NotRead,
        NotLoaded::Refused(why) => Fault::Refused {
            why,
            page,
            pages: lists::word_at(contents, 16),
        },
    }
}

fn show_in<F: Read + Seek>(
    file: &mut F,
    contents: &[u16],
    words: usize,
    page: u64,
    bytes: &mut [u8],
) -> Result<(), Fault> {
    let mut image = [0u16; 9254];
    match load(file, contents, words, page, &mut image, bytes) {
        Ok(len) => put_page(file, contents, words, page, &image[..len], bytes),
        Err(cause) => Err(fault_of(cause, page, contents)),
    }
}

// The contents are among the first words, which are at most as many as the longest contents.
fn show_page<F: Read + Seek>(
    file: &mut F,
    page: u64,
    contents: &mut [u16],
    bytes: &mut [u8],
) -> Result<(), Fault> {
    let Ok(size) = file.seek(SeekFrom::End(0)) else {
        return Err(Fault::NoFile);
    };
    if size % 2 == 1 {
        return Err(Fault::OddFile);
    }
    let words = (size / 2) as usize;
    let k = words.min(contents.len());
    if read_words(file, 0, &mut contents[..k], bytes).is_err() {
        return Err(Fault::NotRead);
    }
    show_in(file, &contents[..k], words, page, bytes)
}

fn show_in_file<F: Read + Seek>(file: &mut F, page: u64) -> Result<(), Fault> {
    let mut contents = [0u16; 131087];
    let mut bytes = [0u8; 262174];
    show_page(file, page, &mut contents, &mut bytes)
}

fn show_in_all(rt: &HostRuntime, page: u64) -> Result<(), Fault> {
    match input::read_all(rt.alloc(), &mut rt.stdin()) {
        Ok(mut all) => show_in_file(&mut all, page),
        Err(_) => Err(Fault::NoFile),
    }
}

fn show(rt: &HostRuntime) -> Result<(), Fault> {
    let page = asked(rt)?;
    match input::open(rt) {
        Ok(mut file) => show_in_file(&mut file, page),
        Err(_) => show_in_all(rt, page),
    }
}

fn main(rt: HostRuntime) {
    if let Err(fault) = show(&rt) {
        tell(fault);
    }
}
