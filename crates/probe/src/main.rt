// Reads one call a line and answers each with a line, as docs/PROBE.md says. The buffers are made once, and lent on.
#![tactic(auto)]

mod answer;
mod books;
mod steps;

ghost use Rattle.std.specs.Prelude.{◌≤◌, length};

use crate::answer::answer_line;
use replies::{book_room, flush, put};
use std::io::{Read, Stdin};

// Takes the bytes that were read, after the `begun` that are held; each newline ends a line, and its answer follows. The
// answers are written at the end, so that whoever waits for them gets them before the next read.
fn take_all(
    input: &[u8],
    begun: usize,
    line: &mut [u8],
    words: &mut [u16],
    answers: &mut [u8],
) -> usize {
    let mut held = begun;
    let mut at = 0;
    for b in input {
        if *b == b'\n' {
            at = answer_line(line, held, words, answers, at);
            held = 0;
        } else {
            held = put(line, held, *b);
        }
    }
    flush(answers, at, 0);
    held
}

// The last line, whose newline is missing.
fn take_last(held: usize, line: &mut [u8], words: &mut [u16], answers: &mut [u8]) {
    if held != 0 {
        take_all(b"\n", held, line, words, answers);
    }
}

// One read: how many bytes came; 0 at the end of the input, and where it cannot be read.
fn read(mut stdin: Stdin, part: &mut [u8]) -> usize
    ensures { result ≤ length part.new }
{
    match stdin.read(part) {
        Ok(n) => n,
        Err(_) => 0,
    }
}

// Nothing says that the input ends, so the loop has a number of turns that no run uses up.
fn serve(stdin: Stdin, input: &mut [u8], line: &mut [u8], words: &mut [u16], answers: &mut [u8]) {
    let mut held = 0;
    for _ in 0..u64::MAX {
        let n = read(stdin, input);
        if n == 0 {
            take_last(held, line, words, answers);
            return;
        }
        held = take_all(&input[..n], held, line, words, answers);
    }
}

// The most bytes of a call: a setting, two numbers, and 262,144 words of five digits. Made apart, as `book_room` is.
fn line_room() -> [u8; 1573200] {
    [0u8; 1573200]
}

fn main(rt: HostRuntime) {
    let mut input = [0u8; 65536];
    let mut line = line_room();
    let mut words = book_room();
    let mut answers = [0u8; 65536];
    serve(rt.stdin(), &mut input, &mut line, &mut words, &mut answers);
}
