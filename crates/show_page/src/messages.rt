// The words below the board, and what is wrong, in one line on standard error. A refusal's line begins with `r` and its number, for 50 to 56 its word too.
use crate::Fault;
use crate::line::Shown;
use lists::word_at;
use page_file::moves_to;
use rules::Refusal;
use std::io::{Read, Seek};

// Standard output and standard error, as `io` numbers them.
pub(crate) const STDOUT: i32 = 1;

const STDERR: i32 = 2;

// Pages are numbered from 0.
fn last_of(pages: u64) -> u64 {
    pages.saturating_sub(1)
}

// ---- on standard output

fn write(text: &[u8]) -> bool {
    io::write_all(STDOUT, text)
}

fn put_moves(moves: u64) -> bool {
    if moves == 0 {
        return write(b", before the first move\n");
    }
    write(b", after move ") & io::print_decimal(STDOUT, moves) & write(b"\n")
}

fn put_number(page: u64, pages: u64) -> bool {
    write(b"page ")
        & io::print_decimal(STDOUT, page)
        & write(b" of 0 to ")
        & io::print_decimal(STDOUT, last_of(pages))
}

fn put_place<F: Read + Seek>(file: &mut F, contents: &[u16], page: u64, state: Shown) -> bool {
    let number = put_number(page, word_at(contents, 16));
    if state.known {
        return number & put_moves(moves_to(file, contents, page));
    }
    number & write(b", which no line of a match leads to\n")
}

fn put_legend() -> bool {
    write(b"A to H: heads, a to h: bodies of the living; 0 to 7: corpses; *: food; .: free\n")
}

// Below the board.
pub(crate) fn put_foot<F: Read + Seek>(
    file: &mut F,
    contents: &[u16],
    page: u64,
    state: Shown,
) -> bool {
    let place = put_place(file, contents, page, state);
    place & put_legend()
}

// ---- on standard error

fn say(text: &[u8]) {
    io::write_all(STDERR, text);
}

fn say_number(n: u64) {
    io::print_decimal(STDERR, n);
}

fn say_pages(pages: u64) {
    if pages == 0 {
        say(b"r 41: the book has no page\n");
        return;
    }
    if pages == 1 {
        say(b"r 41: the book has page 0 alone\n");
        return;
    }
    say(b"r 41: the book has ");
    say_number(pages);
    say(b" pages, 0 to ");
    say_number(last_of(pages));
    say(b"\n");
}

fn say_page(front: &[u8], page: u64, back: &[u8]) {
    say(front);
    say_number(page);
    say(back);
}

// A refusal that shows a word of the page.
fn say_damaged(why: Refusal, page: u64, fault: &[u8]) {
    say(b"r ");
    say_number(why.number() as u64);
    say(b" ");
    say_number(why.word() as u64);
    say(b": page ");
    say_number(page);
    say(b" is damaged at its word ");
    say_number(why.word() as u64);
    say(fault);
}

fn tell_refused(why: Refusal, page: u64, pages: u64) {
    match why {
        Refusal::Contents => say(b"r 40: this is no match book, or its contents are damaged\n"),
        Refusal::Page => say_pages(pages),
        Refusal::CutShort(_) => {
            say_damaged(why, page, b": words are missing from its contents\n")
        }
        Refusal::OutOfRange(_) => { say_damaged(why, page, b": a content word is out of range\n") }
        Refusal::Start(_) => say_damaged(why, page, b": a start is out of line\n"),
        Refusal::Total(_) => say_damaged(why, page, b": its total length is wrong\n"),
        Refusal::CellBeyond(_) => say_damaged(why, page, b": a cell is beyond the grid\n"),
        Refusal::CellTwice(_) => say_damaged(why, page, b": a cell stands twice in a body\n"),
        Refusal::FoodOrder(_) => say_damaged(why, page, b": its food is not ascending\n"),
        _ => say_page(
            b"r 21: page ",
            page,
            b" has other snakes or another grid than its book\n",
        ),
    }
}

pub(crate) fn tell(fault: Fault) {
    match fault {
        Fault::NoPage => say(b"name one page by its number, counted from 0\n"),
        Fault::NoFile => say(b"standard input is no file\n"),
        Fault::OddFile => say(b"the file has an odd number of bytes: it is no match book\n"),
        Fault::Refused { why, page, pages } => tell_refused(why, page, pages),
        Fault::NotRead => say(b"standard input cannot be read\n"),
        Fault::NotWritten => say(b"the page could not be written whole\n"),
    }
}
