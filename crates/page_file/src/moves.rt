// How many moves lead to a page: a draw follows a page with food due, a move any other.
ghost use Rattle.std.specs.Prelude.{◌≤◌};

use crate::file::word_in;
use std::io::{Read, Seek};

// Whether food is due on a page, by word 2 of its image.
fn is_due<F: Read + Seek>(file: &mut F, contents: &[u16], page: u64) -> bool {
    if 65535 <= page {
        return false;
    }
    let i = page as usize;
    if contents.len() < 19 + 2 * i {
        return false;
    }
    word_in(file, contents::pair(contents, 17 + 2 * i) + 2) != 0
}

pub fn moves_to<F: Read + Seek>(file: &mut F, contents: &[u16], page: u64) -> u64
    ensures { result ≤ page }
{
    let mut moves = 0;
    for before in 0..page {
        if !is_due(file, contents, before) {
            moves += 1;
        }
    }
    moves
}
