// The calls on a match book: one is written, a page of it is found.
ghost use Rattle.std.specs.Prelude.{length};
ghost use Rattle.book.specs.Calls.{write_says, page_says};
ghost use Rattle.flat.specs.Flat.{setting_in};
ghost use Rattle.bindings.specs.Exports.{whole, span_numbers, Tells, Writes};

use flat::{refusal_number, setting_in};
use telling::tell_words;

// How many words. Refusals 1 to 12, 42, then 50 to 56 and 21 page by page, 29.
#[unsafe(no_mangle)]
pub extern "C" fn lundaspro_flat_write_book(
    setting: &[u64; 9],
    pages: u64,
    row: &[u16],
    out: &mut [u16],
    written: &mut [u64; 1],
) -> u64
    ensures { Writes whole (write_says (setting_in setting.now) pages row.now (length out.old)) out.old out.new written.old written.new result }
{
    tell_words(book::write(setting_in(setting), pages, row, out), written)
}

// Where the page lies in the book, a start and a length. Refusals 40, 41, 50 to 56, 21.
#[unsafe(no_mangle)]
pub extern "C" fn lundaspro_flat_page(book: &[u16], page: u64, part: &mut [u64; 2]) -> u64
    ensures { Tells span_numbers (page_says book.now page) part.old part.new result }
{
    match book::page_in(book, page) {
        Ok(found) => {
            *part = [found.start as u64, found.len as u64];
            0
        }
        Err(r) => refusal_number(r),
    }
}
