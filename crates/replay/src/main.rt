// The replay: lines from standard input, of any number, to standard output. `stream` takes what is read here.
#![tactic(auto)]

ghost use Rattle.std.specs.Prelude.{◌≤◌, length};
ghost use Rattle.stream.specs.Room.{Ready};

use std::io::{Read, Stdin};
use stream::Progress;

// How far the replay is, and whether more may come.
#[derive(Clone, Copy)]
pub struct Reading {
    pub progress: Progress,
    pub more: bool,
}

// One read: how many bytes came; 0 at the end of the input, and where it cannot be read.
fn read(mut stdin: Stdin, part: &mut [u8]) -> usize
    ensures { result ≤ length part.new }
{
    stdin.read(part).unwrap_or(0)
}

// What one read brought. No more comes after the end of the input, after a line that stops the replay, and where a text could not be written.
fn read_some(stdin: Stdin, r: Progress, line: &mut [u8], image: &mut [u16]) -> Reading
    requires { Ready r line.old image.old }
    ensures { Ready result.progress line.new image.new }
{
    let mut part = io::large_buffer();
    let n = read(stdin, &mut part);
    if n == 0 {
        return Reading {
            progress: r,
            more: false,
        };
    }
    let progress = stream::take_all(r, &part[..n], line, image);
    Reading {
        progress,
        more: progress.on && progress.heard,
    }
}

// A proved loop has to end, and nothing says that the input does: the loop has a number of turns that no run uses up.
fn replay(stdin: Stdin, first: Progress, line: &mut [u8], image: &mut [u16])
    requires { Ready first line.old image.old }
{
    let mut reading = Reading {
        progress: first,
        more: first.on,
    };
    for _ in 0..u64::MAX {
        if !reading.more {
            break;
        }
        reading = read_some(stdin, reading.progress, line, image);
    }
    stream::finish(reading.progress, line, image);
}

fn main(rt: HostRuntime) {
    let mut line = [0u8; 256];
    let mut image = [0u16; 9253];
    replay(rt.stdin(), stream::start(), &mut line, &mut image);
}
