// A book's numbers: one word, two or four of them, low one first; two are written too.
ghost use Rattle.std.specs.Prelude.{◌≡◌, ◌+◌, ◌<◌, ◌≤◌, length};
ghost use Rattle.book_words.specs.Settings.{four_at};
ghost use Rattle.book_words.specs.Read.{Word, Pair};
ghost use Rattle.book_words.specs.Written.{PairWritten};

pub fn word(book: &[u16], k: usize) -> usize
    requires { k < length book.now }
    ensures { Word book.now k result }
{
    book[k] as usize
}

pub fn pair(book: &[u16], k: usize) -> usize
    requires { 1 + k < length book.now }
    ensures { Pair book.now k result }
{
    word(book, k) + 65536 * word(book, 1 + k)
}

pub fn four(book: &[u16], k: usize) -> u64
    requires { 3 + k < length book.now }
    ensures { result ≡ four_at book.now k }
{
    pair(book, k) as u64 + 4294967296 * (pair(book, 2 + k) as u64)
}

pub fn write_pair(out: &mut [u16], k: usize, n: usize)
    requires { (k + 2 ≤ length out.old) × (n < 4294967296) }
    ensures { PairWritten k n out.old out.new }
{
    let words = [(n % 65536) as u16, (n / 65536) as u16];
    lists::write_at(out, k, &words);
}
