// Refusal 40: whether a book's contents are accepted, in one pass over them. `contents` is the front of a book of `words` words, and may be all of it.
ghost use Rattle.std.specs.Prelude.{◌+◌, ◌*◌, ◌<◌, ◌≤◌, length};
ghost use Rattle.contents.specs.Read.{OffLimit, SettingFits, LayoutFits, Rising, StartsFit, ContentsFit};

use book_words::{four, pair, setting_in, word};
use rules::Refusal;

fn limit_off(contents: &[u16], k: usize) -> bool
    requires { 4 + k < length contents.now }
    ensures { OffLimit contents.now k result }
{
    let flag = word(contents, k);
    (1 < flag) | ((flag == 0) & (four(contents, 1 + k) != 0))
}

#[tactic(auto, using(crate::proofs::Fitting::setting_fits_is))]
fn setting_fits(contents: &[u16]) -> bool
    requires { 17 ≤ length contents.now }
    ensures { SettingFits contents.now result }
{
    setting::validate(setting_in(contents)).is_ok()
}

// Words 0 to 15.
fn layout_fits(contents: &[u16]) -> bool
    requires { 17 ≤ length contents.now }
    ensures { LayoutFits contents.now result }
{
    if word(contents, 0) != 1 {
        return false;
    }
    if 1 < word(contents, 4) {
        return false;
    }
    if limit_off(contents, 5) {
        return false;
    }
    if limit_off(contents, 11) {
        return false;
    }
    setting_fits(contents)
}

// Each of the first n starts is below the next. It reads all of them, since without an exit the loop runs on vectors.
fn starts_rise(contents: &[u16], n: usize) -> bool
    requires { 19 + 2 * n ≤ length contents.now }
    ensures { Rising contents.now n n result }
{
    let mut all = true;
    for i in 0..n {
        all &= pair(contents, 17 + 2 * i) < pair(contents, 17 + 2 * (1 + i));
    }
    all
}

// The number of pages and the starts: since they rise, only the last is held against the book's end.
fn starts_fit(contents: &[u16], words: usize) -> bool
    requires { 17 ≤ length contents.now }
    ensures { StartsFit contents.now words result }
{
    let p = word(contents, 16);
    if contents.len() < 17 + 2 * p {
        return false;
    }
    if p == 0 {
        return words <= 17;
    }
    if pair(contents, 17) != 17 + 2 * p {
        return false;
    }
    if !starts_rise(contents, p - 1) {
        return false;
    }
    pair(contents, 17 + 2 * (p - 1)) < words
}

pub(crate) fn check_contents(contents: &[u16], words: usize) -> Result<(), Refusal>
    ensures { ContentsFit contents.now words result }
{
    if contents.len() < 17 || !layout_fits(contents) || !starts_fit(contents, words) {
        return Err(Refusal::Contents);
    }
    Ok(())
}
