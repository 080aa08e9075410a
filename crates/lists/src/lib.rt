// What knows no snake: the definitions and laws of lists that all crates share, and the loops that are the same everywhere.
#![tactic(auto)]

mod numbers;

ghost use Rattle.std.specs.Prelude.{◌≡◌, ◌==◌, ◌+◌, ◌≤◌, length, get_or, position};
ghost use Rattle.lists.specs.Lists.{write_at, member};
ghost use Rattle.lists.specs.Search.{found_in};

pub use numbers::{more_if, product, smaller};

// The word at an index; 0 past the end, so that nothing is asked of the list.
pub fn word_at(list: &[u16], k: usize) -> u64
    ensures { result ≡ get_or list.now k 0 }
{
    match list.get(k) {
        Some(word) => u64::from(*word),
        None => 0,
    }
}

// The words of src, written from index `at` on.
pub fn write_at(out: &mut [u16], at: usize, src: &[u16])
    requires { at + length src.now ≤ length out.old }
    ensures { out.new ≡ write_at out.old at src.now }
{
    // A loop: the library's copy between slices needs `memmove` of whoever links the archive.
    for (j, word) in src.iter().enumerate() {
        out[at + j] = *word;
    }
}

// Whether the word stands in the list. It reads all words, since without an exit the loop runs on vectors.
pub fn holds(list: &[u16], x: u16) -> bool
    ensures { result ≡ member x list.now }
{
    let mut found = false;
    for word in list {
        found |= *word == x;
    }
    found
}

// The library's search, which stops at the word.
fn place_of(list: &[u16], x: u16) -> Option<usize>
    ensures { result ≡ position (λ y. y == x) list.now }
{
    list.iter().position(|word| *word == x)
}

// The first place of the word in a list, or none. Most lists that are asked do not hold it, and `holds` tells that sooner.
pub fn find(list: &[u16], x: u16) -> Option<usize>
    ensures { result ≡ found_in list.now x }
{
    if !holds(list, x) {
        return None;
    }
    place_of(list, x)
}
