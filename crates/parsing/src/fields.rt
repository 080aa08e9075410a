// A line's fields: how many, where the k-th stands, what it says.
ghost use Rattle.std.specs.Prelude.{◌≡◌, ◌==◌, ◌+◌, ◌≤◌, length, drop, position};
ghost use Rattle.parsing.specs.Numbers.{decimal_of, grid_of, bound_of, flag_of, is_byte};
ghost use Rattle.parsing.specs.Fields.{up_to, pieces_from, fields_of, field_at, Spans};

use crate::Span;
use crate::numbers::{bound_in, decimal, flag_by, grid_in, is_byte};

// One more than the line has spaces.
pub fn field_count(s: &[u8]) -> usize
    ensures { result ≡ length (fields_of s.now) }
{
    1 + s.iter().filter(|x| **x == b' ').count()
}

// The place of the first such byte.
fn place_of(s: &[u8], b: u8) -> Option<usize>
    ensures { result ≡ position (λ x. x == b) s.now }
{
    s.iter().position(|x| *x == b)
}

// The index after the piece that starts at `from`: that of the byte b, or the length.
pub fn piece_end(s: &[u8], from: usize, b: u8) -> usize
    requires { from ≤ length s.now }
    ensures { result ≡ from + length (up_to b (drop from s.now)) }
{
    match place_of(&s[from..], b) {
        Some(k) => from + k,
        None => s.len(),
    }
}

// The start of the field after the one that starts at `at`.
pub fn next_start(s: &[u8], at: usize) -> usize
    requires { at ≤ length s.now + 1 }
    ensures { (result ≤ length s.now + 1) × (pieces_from 32 s.now result ≡ drop 1 (pieces_from 32 s.now at)) }
{
    if s.len() < at {
        at
    } else {
        piece_end(s, at, b' ') + 1
    }
}

// Where the k-th field starts; past the line where there is none.
pub fn start_of(s: &[u8], k: usize) -> usize
    ensures { (result ≤ length s.now + 1) × (pieces_from 32 s.now result ≡ drop k (fields_of s.now)) }
{
    let mut at = 0;
    for _ in 0..k {
        at = next_start(s, at);
    }
    at
}

// The k-th field, empty where there is none.
fn field(s: &[u8], k: usize) -> Span
    ensures { Spans s.now k result }
{
    let at = start_of(s, k);
    if s.len() < at {
        Span {
            from: s.len(),
            to: s.len(),
        }
    } else {
        Span {
            from: at,
            to: piece_end(s, at, b' '),
        }
    }
}

pub fn number_at(s: &[u8], k: usize) -> Option<u64>
    ensures { result ≡ decimal_of (field_at (fields_of s.now) k) }
{
    let f = field(s, k);
    decimal(&s[f.from..f.to])
}

pub fn grid_at(s: &[u8], k: usize) -> Option<i32>
    ensures { result ≡ grid_of (field_at (fields_of s.now) k) }
{
    let f = field(s, k);
    grid_in(&s[f.from..f.to])
}

pub fn bound_at(s: &[u8], k: usize) -> Option<Option<u64>>
    ensures { result ≡ bound_of (field_at (fields_of s.now) k) }
{
    let f = field(s, k);
    bound_in(&s[f.from..f.to])
}

pub fn flag_at(s: &[u8], k: usize) -> Option<bool>
    ensures { result ≡ flag_of (field_at (fields_of s.now) k) }
{
    flag_by(number_at(s, k))
}

// Whether the k-th field is this byte alone.
pub fn word_is(b: u8, s: &[u8], k: usize) -> bool
    ensures { result ≡ is_byte b (field_at (fields_of s.now) k) }
{
    let f = field(s, k);
    is_byte(b, &s[f.from..f.to])
}
