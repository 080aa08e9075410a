// What is wrong, in one line on standard error. A refusal's line begins with `r` and its number.
use crate::{Fault, Tally};

// Standard error, as `io` numbers it.
const STDERR: i32 = 2;

fn say(text: &[u8]) {
    io::write_all(STDERR, text);
}

// `shown` is what the replay prints for the line, up to its newline.
fn say_refused(line: u64, shown: &[u8]) {
    say(shown);
    say(b": line ");
    io::print_decimal(STDERR, line);
    say(b" of the match is refused, so there is no book\n");
}

// Of a pass that a refused line stopped. Every line before it showed a page.
pub(crate) fn tell_line(t: Tally, out: &[u8], text: usize) {
    if matches!(t.fault, Some(Fault::RefusedLine)) && 0 < text && text <= out.len() {
        say_refused(t.pages as u64 + 1, &out[..text - 1]);
    }
}

// Of all other faults.
pub(crate) fn tell(fault: Fault) {
    match fault {
        Fault::RefusedLine => {}
        Fault::NoFile => say(b"standard input is no file, and it is read twice\n"),
        Fault::NotRead => say(b"standard input cannot be read\n"),
        Fault::NoLine => say(b"standard input is empty: a match needs its first line\n"),
        Fault::TooMany => say(b"the match has more than 65,535 pages (42), so there is no book\n"),
        Fault::Changed => say(b"standard input changed while it was read: the book is not whole\n"),
        Fault::NotWritten => say(b"the book could not be written whole\n"),
    }
}
