// Where a page lies in its book, by the contents alone: 40, 41, or from its start to the next one. `contents` is the front of a book of `words` words.
ghost use Rattle.std.specs.Prelude.{◌<◌, Ok};
ghost use Rattle.contents.specs.Contents.{pages_in};
ghost use Rattle.contents.specs.Accepted.{Accepted};
ghost use Rattle.contents.specs.Read.{Ends};
ghost use Rattle.contents.specs.Promises.{Finds};

use crate::Span;
use crate::tests::check_contents;
use book_words::{pair, word};
use rules::Refusal;

// The next start, or the book's end.
fn end_at(contents: &[u16], words: usize, i: usize) -> usize
    requires accepted { Accepted contents.now words }
    requires i_bound { i < pages_in contents.now }
    ensures { Ends contents.now words i result }
{
    if 1 + i < word(contents, 16) {
        return pair(contents, 17 + 2 * (1 + i));
    }
    words
}

fn span_at(contents: &[u16], words: usize, i: usize) -> Span
    requires accepted { Accepted contents.now words }
    requires i_bound { i < pages_in contents.now }
    ensures { Finds contents.now words i (Ok result) }
{
    let start = pair(contents, 17 + 2 * i);
    let end = end_at(contents, words, i);
    Span {
        start,
        len: end - start,
    }
}

// Where page `page` lies, or 40, 41. A book that no buffer holds is paged through by its contents and its length.
pub fn find(contents: &[u16], words: usize, page: u64) -> Result<Span, Refusal>
    ensures { Finds contents.now words page result }
{
    check_contents(contents, words)?;
    if word(contents, 16) as u64 <= page {
        return Err(Refusal::Page);
    }
    Ok(span_at(contents, words, page as usize))
}
