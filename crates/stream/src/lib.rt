// A replay as it is read and printed: what came is cut into lines, `referee` takes each, and its text goes to standard output. What is taken and which
// bytes are to be printed is promised (specs/Steps.antt), and so is that all of them are the replay of the input (proofs/Printed.antt); that they
// are printed, each once and in turn, is not: no contract says what is written.
#![tactic(auto)]

ghost use Rattle.std.specs.Prelude.{◌≡◌, [], ◌<◌, ◌≤◌, length};
ghost use Rattle.stream.specs.Room.{Ready, Spare};
ghost use Rattle.stream.specs.Steps.{Fresh, Takes, Step, TakesAll, Last, Ends, Finishes};

use referee::Desk;

// Standard output, as `io` numbers it.
const STDOUT: i32 = 1;

// What is kept from part to part: the desk, how many bytes of a line are held, where to go on in what came, how many bytes the text to print has,
// whether the replay goes on, and whether all texts could be written.
#[derive(Clone, Copy)]
pub struct Progress {
    pub desk: Desk,
    pub fill: usize,
    pub at: usize,
    pub text: usize,
    pub on: bool,
    pub heard: bool,
}

// Before anything came.
pub fn start() -> Progress
    ensures { Fresh result }
{
    Progress {
        desk: referee::new_desk(),
        fill: 0,
        at: 0,
        text: 0,
        on: true,
        heard: true,
    }
}

// After a text that could not be written, none is.
fn print(heard: bool, out: &[u8], n: usize) -> bool {
    heard && n <= out.len() && io::write_all(STDOUT, &out[..n])
}

// The line that is held.
fn take_held(
    r: Progress,
    at: usize,
    line: &[u8],
    image: &mut [u16],
    next: &mut [u16],
    list: &mut [u16],
    out: &mut [u8],
) -> Progress
    requires { Ready r line.now image.old × Spare next.old list.old out.old }
    ensures ready { Ready result line.now image.new × Spare next.new list.new out.new }
    ensures takes { Takes r result line.now [] image.old image.new out.new }
    ensures at_value { result.at ≡ at }
{
    let t = referee::take_line(r.desk, image, next, list, &line[..r.fill], out);
    let desk = Desk {
        begun: true,
        game: t.game,
        words: t.words,
    };
    Progress {
        desk,
        fill: 0, // a new line
        at,
        text: t.text,
        on: t.more,
        ..r
    }
}

// What came, up to the end of a line: the line is taken there, or held where no newline came.
pub fn take_part(
    r: Progress,
    part: &[u8],
    line: &mut [u8],
    image: &mut [u16],
    next: &mut [u16],
    list: &mut [u16],
    out: &mut [u8],
) -> Progress
    requires ready { Ready r line.old image.old × Spare next.old list.old out.old }
    requires at_in_bounds { r.at < length part.now }
    ensures ready_2 { Ready result line.new image.new × Spare next.new list.new out.new }
    ensures step { Step r result part.now line.old line.new image.old image.new out.new }
    ensures at_lt_at { r.at < result.at }
{
    let end = parsing::line_end(part, r.at);
    let fill = parsing::feed(line, r.fill, &part[r.at..end]);
    let held = Progress {
        fill,
        at: end + 1,
        text: 0,
        ..r
    };
    if end == part.len() {
        return held;
    }
    take_held(held, end + 1, line, image, next, list, out)
}

// All lines that end in what came, each printed; what is left of it is held. The next image, the cells drawn and the text are made here, once for all
// lines, since whoever calls then lends what is kept alone.
pub fn take_all(first: Progress, part: &[u8], line: &mut [u8], image: &mut [u16]) -> Progress
    requires { Ready first line.old image.old }
    ensures ready { Ready result line.new image.new }
    ensures takes_all { TakesAll first result part.now line.old line.new image.old image.new }
{
    let mut next = [0u16; 9253];
    let mut list = [0u16; 1024];
    let mut out = [0u8; 512];
    let mut r = Progress {
        at: 0,
        text: 0,
        ..first
    };
    // No count of an index: a turn goes on behind the line that it took, and the replay may stop before the end of the part.
    while r.on && r.at < part.len() {
        r = take_part(r, part, line, image, &mut next, &mut list, &mut out);
        r.heard = print(r.heard, &out, r.text);
    }
    r
}

// The last line, where no newline ended it.
pub fn take_last(
    r: Progress,
    line: &[u8],
    image: &mut [u16],
    next: &mut [u16],
    list: &mut [u16],
    out: &mut [u8],
) -> Progress
    requires { Ready r line.now image.old × Spare next.old list.old out.old }
    ensures ready { Ready result line.now image.new × Spare next.new list.new out.new }
    ensures last { Last r result line.now image.old image.new out.new }
{
    let kept = Progress {
        at: 0,
        text: 0,
        ..r
    };
    if !r.on {
        return kept;
    }
    if r.fill == 0 {
        return kept;
    }
    take_held(r, 0, line, image, next, list, out)
}

fn write_end(r: Progress, out: &mut [u8]) -> usize
    requires { 462 ≤ length out.old }
    ensures { Ends r result out.new }
{
    if !r.on {
        return 0;
    }
    referee::close(r.desk, out)
}

// The end of the input: the last line and the placings, each printed. It answers how many bytes the placings have.
pub fn finish(r: Progress, line: &[u8], image: &mut [u16]) -> usize
    requires { Ready r line.now image.old }
    ensures { Finishes r result line.now image.old image.new }
{
    let mut next = [0u16; 9253];
    let mut list = [0u16; 1024];
    let mut out = [0u8; 512];
    let q = take_last(r, line, image, &mut next, &mut list, &mut out);
    let heard = print(q.heard, &out, q.text);
    let n = write_end(q, &mut out);
    print(heard, &out, n);
    n
}
