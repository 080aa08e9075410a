// The book of a match. Standard input is gone over twice: first its lines are taken as the replay takes them and each page's words are counted, then the
// pages are written behind their contents. What cannot be gone over twice, as a pipe, is read whole first. What is wrong is said on standard error, in
// one line.
#![tactic(auto)]

mod messages;
mod pages;
mod table;
mod walk;
mod words;

use messages::tell;
use rules::Setting;
use std::io::{Read, Seek};
use table::put_contents;
use walk::go_over;

// What is wrong.
#[derive(Clone, Copy)]
pub enum Fault {
    NoFile,
    NotRead,
    NoLine,
    RefusedLine,
    TooMany,
    Changed,
    NotWritten,
}

// What a pass has done: whether it writes the pages or counts their words, how many pages it has seen, and what has stopped it.
#[derive(Clone, Copy)]
pub struct Tally {
    pub writes: bool,
    pub pages: u16,
    pub fault: Option<Fault>,
}

// The contents, then the pages in a second pass.
fn write_book<F: Read + Seek>(
    input: &mut F,
    setting: Setting,
    pages: u16,
    lengths: &mut [u16; 65535],
    bytes: &mut [u8],
) -> Result<(), Fault> {
    if input.rewind().is_err() {
        return Err(Fault::NoFile);
    }
    if !put_contents(setting, &lengths[..pages as usize], bytes) {
        return Err(Fault::NotWritten);
    }
    let second = go_over(input, true, lengths, bytes)?;
    if second.pages != pages {
        return Err(Fault::Changed);
    }
    Ok(())
}

// Only what can seek can be gone over twice.
fn make_book<F: Read + Seek>(
    input: &mut F,
    lengths: &mut [u16; 65535],
    bytes: &mut [u8],
) -> Result<(), Fault> {
    if input.rewind().is_err() {
        return Err(Fault::NoFile);
    }
    let first = go_over(input, false, lengths, bytes)?;
    if first.pages == 0 {
        return Err(Fault::NoLine);
    }
    write_book(input, first.setting, first.pages, lengths, bytes)
}

fn make_book_of_all(
    rt: &HostRuntime,
    lengths: &mut [u16; 65535],
    bytes: &mut [u8],
) -> Result<(), Fault> {
    match input::read_all(rt.alloc(), &mut rt.stdin()) {
        Ok(mut all) => make_book(&mut all, lengths, bytes),
        Err(_) => Err(Fault::NoFile),
    }
}

fn main(rt: HostRuntime) {
    let mut lengths = [0u16; 65535];
    let mut bytes = [0u8; 262174];
    let made = match input::open(&rt) {
        Ok(mut file) => make_book(&mut file, &mut lengths, &mut bytes),
        Err(_) => make_book_of_all(&rt, &mut lengths, &mut bytes),
    };
    if let Err(fault) = made {
        tell(fault);
    }
}
