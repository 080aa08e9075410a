// The writer: one pass of checks over the row, then 29, then one copy.
ghost use Rattle.std.specs.Prelude.{◌+◌, ◌*◌, ◌<◌, ◌≤◌, length};
ghost use Rattle.book.specs.Writing.{Asked, AskedNone, RowFits, StartsTo, ContentsWritten};
ghost use Rattle.contents.specs.Written.{Wordy};
ghost use Rattle.book.specs.Promises.{Writes};

use crate::rows::{check_row, told};
use contents::{write_front, write_pair};
use rules::{Refusal, Setting};

// ---- the refusals but 29

fn asked(setting: Setting, pages: u64, row: &[u16]) -> Result<(), Refusal>
    ensures { Asked setting pages row.now result }
{
    setting::validate(setting)?;
    if 65535 < pages {
        return Err(Refusal::Pages);
    }
    check_row(setting, pages as usize, row)
}

// ---- the words

// A start is counted from the book's first word: past the contents, and the images before it. Each image's length is read again from its own
// contents, since nothing is written before all have passed.
fn write_starts(row: &[u16], p: usize, out: &mut [u16])
    requires row_fits { RowFits p row.now }
    requires p_in_bounds { 17 + 2 * p ≤ length out.old }
    ensures { StartsTo p row.now out.old p (length row.now) out.new }
{
    let mut at = 0;
    for i in 0..p {
        write_pair(out, 17 + 2 * i, 17 + 2 * p + at);
        at += told(&row[at..]);
    }
}

fn write_contents(setting: Setting, p: usize, row: &[u16], out: &mut [u16])
    requires wordy { Wordy setting }
    requires row_fits { RowFits p row.now }
    requires p_in_bounds { 17 + 2 * p ≤ length out.old }
    ensures { ContentsWritten setting p row.now out.old out.new }
{
    write_front(setting, p, out);
    write_starts(row, p, out);
}

// The book of a setting and a row that no number but 29 refuses.
fn write_book(setting: Setting, p: usize, row: &[u16], out: &mut [u16]) -> Result<usize, Refusal>
    requires asked_none { AskedNone setting p row.now }
    requires wordy { Wordy setting }
    requires row_fits { RowFits p row.now }
    ensures { Writes setting p row.now out.old out.new result }
{
    let words = 17 + 2 * p + row.len();
    if out.len() < words {
        return Err(Refusal::Buffer);
    }
    write_contents(setting, p, row, out);
    lists::write_at(out, 17 + 2 * p, row);
    Ok(words)
}

// The book of `pages` images that stand in a row: the setting's refusals, 42, then 50 to 56 and 21 page by page, 29.
pub fn write(setting: Setting, pages: u64, row: &[u16], out: &mut [u16]) -> Result<usize, Refusal>
    ensures { Writes setting pages row.now out.old out.new result }
{
    asked(setting, pages, row)?;
    write_book(setting, pages as usize, row, out)
}
