// A page that a line shows: its words are counted in the first pass and written in the second.
ghost use Rattle.std.specs.Prelude.{◌≡◌, ◌+◌, ◌<◌, ◌≤◌, length};

use crate::words::put_words;
use crate::{Fault, Tally};
use stream::Progress;

pub(crate) fn stop(t: Tally, fault: Fault) -> Tally
    ensures { result.pages ≡ t.pages }
{
    Tally {
        fault: Some(fault),
        ..t
    }
}

fn go_on(t: Tally) -> Tally
    requires { t.pages < 65535 }
    ensures { result.pages ≡ t.pages + 1 }
{
    Tally {
        pages: t.pages + 1,
        ..t
    }
}

fn count_page(t: Tally, words: usize, lengths: &mut [u16; 65535]) -> Tally {
    if t.pages == 65535 {
        return stop(t, Fault::TooMany);
    }
    lengths[t.pages as usize] = (words % 65536) as u16;
    go_on(t)
}

// The contents stand written: a page of another length would belie them.
fn put_page(t: Tally, page: &[u16], lengths: &[u16; 65535], bytes: &mut [u8]) -> Tally {
    if t.pages == 65535 || lengths[t.pages as usize] as usize != page.len() {
        return stop(t, Fault::Changed);
    }
    if !put_words(page, bytes) {
        return stop(t, Fault::NotWritten);
    }
    go_on(t)
}

fn refused(t: Tally) -> Tally
    ensures { result.pages ≡ t.pages }
{
    if t.writes {
        return stop(t, Fault::Changed);
    }
    stop(t, Fault::RefusedLine)
}

// What the stream's last step brought: a page where it has a state to print.
pub(crate) fn see(
    t: Tally,
    r: Progress,
    image: &[u16],
    lengths: &mut [u16; 65535],
    bytes: &mut [u8],
) -> Tally
    requires words_in_bounds { r.desk.words ≤ length image.now }
{
    if r.text == 0 {
        return t;
    }
    if !r.on {
        return refused(t);
    }
    if t.writes {
        return put_page(t, &image[..r.desk.words], lengths, bytes);
    }
    count_page(t, r.desk.words, lengths)
}
