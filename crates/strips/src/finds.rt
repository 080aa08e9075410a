// A free square by its number, the number of a free square, and one taken: through the strips by their counts, then within one.
ghost use Rattle.std.specs.Prelude.{◌≡◌, length, get_or};
ghost use Rattle.strips.specs.Marks.{unmarked, clear_from, Among, Numbered, Free, Took};

use crate::marks::mark;

// The i-th square without a mark of a strip that begins at square `first`, run by run: squares that have a mark are passed, then those that have none.
// A run is as long as the word's bits say: no count of squares one by one.
fn nth_in(strip: u64, first: usize, i: usize) -> usize
    requires { Among strip first i }
    ensures { result ≡ get_or (clear_from first strip) i 0 }
{
    let mut rest = strip;
    let mut at = first;
    let mut left = i;
    while at < first + 64 {
        let marks = (rest + 1).trailing_zeros() as usize;
        rest >>= marks;
        at += marks;
        let clear = rest.trailing_zeros() as usize;
        if left < clear {
            return at + left;
        }
        left -= clear;
        rest >>= clear;
        at += clear;
    }
    0
}

// `nth_free_of`: the i-th square without a mark.
pub fn nth_free(strips: &[u64; 16], tally: &[u8; 16], area: usize, i: usize) -> usize
    requires { Numbered area strips.now tally.now i }
    ensures { result ≡ get_or (unmarked strips.now area) i 0 }
{
    let mut left = i;
    for (s, count) in tally.iter().enumerate() {
        let here = usize::from(*count);
        if left < here {
            return nth_in(strips[s], s * 64, left);
        }
        left -= here;
    }
    0
}

// How many squares below a free one have no mark.
pub fn free_below(strips: &[u64; 16], tally: &[u8; 16], area: usize, c: usize) -> usize
    requires { Free area strips.now tally.now c }
    ensures { result ≡ length (unmarked strips.now c) }
{
    let last = c / 64;
    let mut open = 0;
    for count in &tally[..last] {
        open += usize::from(*count);
    }
    let part = strips[last] % (1u64 << (c % 64));
    open + c % 64 - part.count_ones() as usize
}

// A free square gets its mark, and its strip has one less.
pub fn take(strips: &mut [u64; 16], tally: &mut [u8; 16], area: usize, c: usize)
    requires { Free area strips.old tally.old c }
    ensures { Took area c strips.old strips.new tally.new }
{
    mark(strips, c);
    tally[c / 64] -= 1;
}
