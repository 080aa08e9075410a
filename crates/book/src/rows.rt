// The writer's row: images one after the other, each checked where the one before it ends.
ghost use Rattle.std.specs.Prelude.{◌+◌, ◌*◌, ◌<◌, ◌≤◌, length};
ghost use Rattle.rules.specs.Image.{front};
ghost use Rattle.book.specs.Writing.{Summed, Told, Next, RowChecks};

use crate::pages::check_page;
use contents::word;
use rules::{Refusal, Setting};

fn lengths(words: &[u16], n: usize) -> usize
    requires { (front n ≤ length words.now) × (n < 65536) }
    ensures { Summed words.now n n result }
{
    let mut sum = 0;
    for i in 0..n {
        sum += word(words, 6 + 4 * i);
    }
    sum
}

// How long the contents at the front say that their image is; all words where they are cut short or not so many are left.
pub(crate) fn told(words: &[u16]) -> usize
    ensures { Told words.now result }
{
    if words.len() < 5 {
        return words.len();
    }
    let n = word(words, 0);
    if words.len() < 5 + 4 * n {
        return words.len();
    }
    (5 + 4 * n + lengths(words, n) + word(words, 4)).min(words.len())
}

// How many words the page at the front of what is left of a row has, if it is accepted.
fn next_page(setting: Setting, rest: &[u16]) -> Result<usize, Refusal>
    ensures { Next setting rest.now result }
{
    let len = told(rest);
    check_page(setting, &rest[..len])?;
    Ok(len)
}

// 50 to 56 and 21 page by page, 53 for words after the last, or accepted.
pub(crate) fn check_row(setting: Setting, p: usize, row: &[u16]) -> Result<(), Refusal>
    ensures { RowChecks setting p row.now result }
{
    let mut at = 0;
    let mut last = 0;
    for _page in 0..p {
        last = next_page(setting, &row[at..])?;
        at += last;
    }
    if at < row.len() {
        return Err(Refusal::Total(last));
    }
    Ok(())
}
