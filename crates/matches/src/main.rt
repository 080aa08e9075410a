// Many stored matches in one input, each replayed as `replay` does it. A line `= NAME` begins a match and is printed, `> TEXT` is a line of the
// match's input, `~ TEXT` its last one, whose newline is missing.
#![tactic(auto)]

ghost use Rattle.std.specs.Prelude.{◌≡◌, ◌+◌, ◌<◌, ◌≤◌, length};
ghost use Rattle.stream.specs.Room.{Ready};

use std::io::{Read, Stdin};
use stream::Progress;

// Standard output, as `io` numbers it.
const STDOUT: i32 = 1;

// The match under way; how many bytes of the line's front came, up to two, and its mark; where to go on in what came; whether more may come.
#[derive(Clone, Copy)]
pub struct Frame {
    pub progress: Progress,
    pub column: u8,
    pub mark: u8,
    pub at: usize,
    pub more: bool,
}

// No match is under way before the first name.
fn idle() -> Progress
    ensures { (result.fill ≡ 0) × (result.desk.words ≡ 0) }
{
    Progress {
        on: false,
        ..stream::start()
    }
}

// The end of a match, and the start of the next.
fn begin(old: Progress, line: &[u8], image: &mut [u16]) -> Progress
    requires { Ready old line.now image.old }
    ensures { Ready result line.now image.new }
{
    stream::finish(old, line, image);
    io::write_all(STDOUT, b"= ");
    stream::start()
}

// A byte of a line's front: the mark, then a space.
fn take_front(f: Frame, byte: u8, line: &[u8], image: &mut [u16]) -> Progress
    requires { Ready f.progress line.now image.old }
    ensures { Ready result line.now image.new }
{
    if f.column == 0 && byte == b'=' {
        return begin(f.progress, line, image);
    }
    f.progress
}

// Text of a line: a name is printed, all else goes to the match.
fn take_text(f: Frame, text: &[u8], line: &mut [u8], image: &mut [u16]) -> Progress
    requires { Ready f.progress line.old image.old }
    ensures { Ready result line.new image.new }
{
    if f.mark == b'=' {
        io::write_all(STDOUT, text);
        return f.progress;
    }
    stream::take_all(f.progress, text, line, image)
}

// Where the text of a line ends that has its newline at `end`: the match gets the newline too, but for a last line without one.
fn text_end(mark: u8, end: usize, len: usize) -> usize
    requires { end < len }
    ensures { (end ≤ result) × (result ≤ len) }
{
    if mark == b'~' { end } else { end + 1 }
}

fn mark_of(f: Frame, byte: u8) -> u8 {
    if f.column == 0 { byte } else { f.mark }
}

// The next byte of a line's front, or the line's text as far as it came.
fn take_some(f: Frame, part: &[u8], line: &mut [u8], image: &mut [u16]) -> Frame
    requires ready { Ready f.progress line.old image.old }
    requires at_in_bounds { f.at < length part.now }
    ensures { (Ready result.progress line.new image.new) × (f.at < result.at) }
{
    if f.column < 2 {
        let byte = part[f.at];
        return Frame {
            progress: take_front(f, byte, line, image),
            column: f.column + 1,
            mark: mark_of(f, byte),
            at: f.at + 1,
            ..f
        };
    }
    let end = parsing::line_end(part, f.at);
    if end == part.len() {
        return Frame {
            progress: take_text(f, &part[f.at..], line, image),
            at: end + 1,
            ..f
        };
    }
    let last = text_end(f.mark, end, part.len());
    Frame {
        progress: take_text(f, &part[f.at..last], line, image),
        column: 0,
        at: end + 1,
        ..f
    }
}

// All that came.
fn take_part(first: Frame, part: &[u8], line: &mut [u8], image: &mut [u16]) -> Frame
    requires { Ready first.progress line.old image.old }
    ensures { Ready result.progress line.new image.new }
{
    let mut f = first;
    // No count of an index: a turn takes the next byte of a line's front, or all of the line that came.
    while f.at < part.len() {
        f = take_some(f, part, line, image);
    }
    f
}

// One read: how many bytes came; 0 at the end of the input, and where it cannot be read.
fn read(mut stdin: Stdin, part: &mut [u8]) -> usize
    ensures { result ≤ length part.new }
{
    stdin.read(part).unwrap_or(0)
}

// What one read brought.
fn read_some(stdin: Stdin, f: Frame, line: &mut [u8], image: &mut [u16]) -> Frame
    requires { Ready f.progress line.old image.old }
    ensures { Ready result.progress line.new image.new }
{
    let mut part = io::large_buffer();
    let n = read(stdin, &mut part);
    let start = Frame {
        at: 0,
        more: 0 < n,
        ..f
    };
    take_part(start, &part[..n], line, image)
}

// As in `replay`, the loop has a number of turns that no run uses up.
fn replay_all(stdin: Stdin, first: Frame, line: &mut [u8], image: &mut [u16])
    requires { Ready first.progress line.old image.old }
{
    let mut f = first;
    for _ in 0..u64::MAX {
        if !f.more {
            break;
        }
        f = read_some(stdin, f, line, image);
    }
    stream::finish(f.progress, line, image);
}

fn main(rt: HostRuntime) {
    let mut line = [0u8; 256];
    let mut image = [0u16; 9253];
    let first = Frame {
        progress: idle(),
        column: 0,
        mark: 0,
        at: 0,
        more: true,
    };
    replay_all(rt.stdin(), first, &mut line, &mut image);
}
