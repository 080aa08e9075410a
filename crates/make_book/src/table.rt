// A book's contents, by how many words its pages have: the setting, then where each page starts.
ghost use Rattle.std.specs.Prelude.{◌+◌, ◌*◌, ◌≤◌, length};

use crate::words::put_words;
use rules::Setting;

// A start is counted from the book's first word: past the contents, and the pages before it.
fn write_starts(lengths: &[u16], contents: &mut [u16])
    requires few { length lengths.now ≤ 65535 }
    requires in_bounds { 17 + 2 * length lengths.now ≤ length contents.old }
{
    let mut at = 17 + 2 * lengths.len();
    for (i, words) in lengths.iter().enumerate() {
        contents::write_pair(contents, 17 + 2 * i, at);
        at += *words as usize;
    }
}

// Whether all of them could be written. The check, which a setting of a replay has passed, tells that each of its numbers fits a word.
pub(crate) fn put_contents(setting: Setting, lengths: &[u16], bytes: &mut [u8]) -> bool
    requires { length lengths.now ≤ 65535 }
{
    match setting::validate(setting) {
        Ok(()) => {
            let p = lengths.len();
            let mut contents = [0u16; 131087];
            contents::write_front(setting, p, &mut contents);
            write_starts(lengths, &mut contents);
            put_words(&contents[..17 + 2 * p], bytes)
        }
        Err(_) => false,
    }
}
