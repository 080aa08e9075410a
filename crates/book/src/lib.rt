// A match book: a table of contents and the state images one after another, written from a row of images and paged through.
#![tactic(auto)]

mod pages;
mod rows;
mod writer;

ghost use Rattle.std.specs.Prelude.{◌≡◌};
ghost use Rattle.book.specs.Promises.{Pages, Hands};
ghost use Rattle.book.specs.Turning.{page_after, page_before};

pub use contents::{Span, find, setting_in};
pub use pages::{check_page, page_in, page_of};
use rules::Refusal;
pub use writer::write;

// ---- the reader: it holds the lent book and the page it is at. Opening and turning need no check, since what is read says all.

#[derive(Clone, Copy)]
pub struct Reader<'a> {
    pub book: &'a [u16],
    pub page: u64,
}

// At page 0.
pub fn open<'a>(book: &'a [u16]) -> Reader<'a>
    ensures { (result.book ≡ book.entry) × (result.page ≡ 0) }
{
    Reader { book, page: 0 }
}

// To any page, which need not be there.
pub fn turn<'a>(reader: Reader<'a>, page: u64) -> Reader<'a>
    ensures { (result.book ≡ reader.entry.book) × (result.page ≡ page) }
{
    Reader {
        book: reader.book,
        page,
    }
}

// The page after; at the last number of 64 bits it stays there.
pub fn next<'a>(reader: Reader<'a>) -> Reader<'a>
    ensures { (result.book ≡ reader.entry.book) × (result.page ≡ page_after reader.entry.page) }
{
    Reader {
        book: reader.book,
        page: reader.page.saturating_add(1),
    }
}

// The page before; at page 0 it stays there.
pub fn previous<'a>(reader: Reader<'a>) -> Reader<'a>
    ensures { (result.book ≡ reader.entry.book) × (result.page ≡ page_before reader.entry.page) }
{
    Reader {
        book: reader.book,
        page: reader.page.saturating_sub(1),
    }
}

// Where the page lies, or why it is refused.
pub fn look<'a>(reader: Reader<'a>) -> Result<Span, Refusal>
    ensures { Pages reader.entry.book.now reader.entry.page result }
{
    page_in(reader.book, reader.page)
}

// The page, as a part of the lent book; the empty part at its front where it is refused.
pub fn read<'a>(reader: Reader<'a>) -> &'a [u16]
    ensures { Hands reader.entry.book reader.entry.page result }
{
    page_of(reader.book, reader.page)
}
