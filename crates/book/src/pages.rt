// A page of a whole book: what its contents find, then 50 to 56 and 21 for that page alone. Other pages are not looked at.
ghost use Rattle.std.specs.Prelude.{◌+◌, ◌≤◌, length};
ghost use Rattle.book.specs.Read.{PageChecks, Cut};
ghost use Rattle.book.specs.Promises.{Pages, Hands};

use contents::Span;
use rules::{Refusal, Setting};

// 50 to 56, 21, or accepted.
pub fn check_page(setting: Setting, image: &[u16]) -> Result<(), Refusal>
    ensures { PageChecks setting image.now result }
{
    image::check_image(image)?;
    if setting::differs(setting, image) {
        return Err(Refusal::OtherSetting);
    }
    Ok(())
}

fn cut(book: &[u16], start: usize, len: usize) -> &[u16]
    requires { start + len ≤ length book.now }
    ensures { Cut book.entry start len result }
{
    &book[start..start + len]
}

// Where page `page` lies, or 40, 41, 50 to 56, 21.
pub fn page_in(book: &[u16], page: u64) -> Result<Span, Refusal>
    ensures { Pages book.now page result }
{
    let found = contents::find(book, book.len(), page)?;
    check_page(
        contents::setting_in(book),
        cut(book, found.start, found.len),
    )?;
    Ok(found)
}

// That page, as the caller's own words and no copy; the empty part at the book's front where it is refused.
pub fn page_of(book: &[u16], page: u64) -> &[u16]
    ensures { Hands book.entry page result }
{
    match page_in(book, page) {
        Ok(found) => cut(book, found.start, found.len),
        Err(_) => cut(book, 0, 0),
    }
}
