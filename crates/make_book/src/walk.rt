// One pass over standard input, from its front to its end or to the first fault.
ghost use Rattle.stream.specs.Room.{Ready};

use crate::messages::tell_line;
use crate::pages::{see, stop};
use crate::{Fault, Tally};
use rules::Setting;
use std::io::Read;
use stream::Progress;

// How far the replay is, what the pass has done, and whether more may come.
#[derive(Clone, Copy)]
pub struct Pass {
    pub progress: Progress,
    pub tally: Tally,
    pub more: bool,
}

#[derive(Clone, Copy)]
pub struct Passed {
    pub setting: Setting,
    pub pages: u16,
}

// All that came, up to the first fault. As in `stream`, the buffers that serve one line are made here.
fn take_part(
    first: Pass,
    part: &[u8],
    line: &mut [u8],
    image: &mut [u16],
    lengths: &mut [u16; 65535],
    bytes: &mut [u8],
) -> Pass
    requires { Ready first.progress line.old image.old }
    ensures { Ready result.progress line.new image.new }
{
    let mut next = [0u16; 9253];
    let mut list = [0u16; 1024];
    let mut out = [0u8; 512];
    let mut r = first.progress;
    let mut t = first.tally;
    r.at = 0;
    // A `while`, since each step says by itself how far it came.
    while t.fault.is_none() && r.at < part.len() {
        r = stream::take_part(r, part, line, image, &mut next, &mut list, &mut out);
        t = see(t, r, image, lengths, bytes);
    }
    tell_line(t, &out, r.text);
    Pass {
        progress: r,
        tally: t,
        more: first.more,
    }
}

// One read.
fn read_some<F: Read>(
    input: &mut F,
    p: Pass,
    line: &mut [u8],
    image: &mut [u16],
    lengths: &mut [u16; 65535],
    bytes: &mut [u8],
) -> Pass
    requires ready { Ready p.progress line.old image.old }
    ensures ready_2 { Ready result.progress line.new image.new }
{
    let mut part = io::large_buffer();
    let Ok(n) = input.read(&mut part) else {
        return Pass {
            tally: stop(p.tally, Fault::NotRead),
            more: false,
            ..p
        };
    };
    let came = Pass { more: 0 < n, ..p };
    take_part(came, &part[..n], line, image, lengths, bytes)
}

// The last line, where no newline ended it; nothing after a fault.
fn finish(
    p: Pass,
    line: &[u8],
    image: &mut [u16],
    lengths: &mut [u16; 65535],
    bytes: &mut [u8],
) -> Pass
    requires ready { Ready p.progress line.now image.old }
{
    if p.tally.fault.is_some() {
        return p;
    }
    let mut next = [0u16; 9253];
    let mut list = [0u16; 1024];
    let mut out = [0u8; 512];
    let progress = stream::take_last(p.progress, line, image, &mut next, &mut list, &mut out);
    let tally = see(p.tally, progress, image, lengths, bytes);
    tell_line(tally, &out, progress.text);
    Pass {
        progress,
        tally,
        more: false,
    }
}

// As in `replay`, the loop has a number of turns that no run uses up.
fn walk<F: Read>(
    input: &mut F,
    first: Pass,
    line: &mut [u8],
    image: &mut [u16],
    lengths: &mut [u16; 65535],
    bytes: &mut [u8],
) -> Pass
    requires ready { Ready first.progress line.old image.old }
{
    let mut p = first;
    for _ in 0..u64::MAX {
        if !p.more || p.tally.fault.is_some() {
            break;
        }
        p = read_some(input, p, line, image, lengths, bytes);
    }
    finish(p, line, image, lengths, bytes)
}

// The setting of the first line and how many pages came, or what stopped the pass.
pub(crate) fn go_over<F: Read>(
    input: &mut F,
    writes: bool,
    lengths: &mut [u16; 65535],
    bytes: &mut [u8],
) -> Result<Passed, Fault> {
    let mut line = [0u8; 256];
    let mut image = [0u16; 9253];
    let first = Pass {
        progress: stream::start(),
        tally: Tally {
            writes,
            pages: 0,
            fault: None,
        },
        more: true,
    };
    let last = walk(input, first, &mut line, &mut image, lengths, bytes);
    match last.tally.fault {
        Some(fault) => Err(fault),
        None => Ok(Passed {
            setting: last.progress.desk.game.setting,
            pages: last.tally.pages,
        }),
    }
}
