// The line of the match that leads from one image to the next, if one does: the draw of the food that is new where food is due, else the move by the
// headings. Whether it does is found by replaying it.
ghost use Rattle.std.specs.Prelude.{◌+◌, ◌*◌, ◌≤◌, length};

use crate::pages::food_in;
use arrayvec::ArrayVec;
use layout::heading_at;
use lists::word_at;
use printing::{put, put_item};

// ---- a draw

// The food that was not there before, as much of it as the list holds.
fn new_food(old: &[u16], food: &[u16]) -> ArrayVec<u16, 1024> {
    let mut list = ArrayVec::new();
    for cell in food {
        if !old.contains(cell) && !list.is_full() {
            list.push(*cell);
        }
    }
    list
}

// Empty where no index draws that food.
fn put_draw(line: &mut [u8], past: &[u16], image: &[u16]) -> usize
    requires { 32 ≤ length line.old }
    ensures { result ≤ 32 }
{
    let list = new_food(food_in(past), food_in(image));
    match arena::rank(past, &list) {
        Ok(index) => {
            let at = put(line, 0, b'd');
            put_item(line, at, b' ', index)
        }
        Err(_) => 0,
    }
}

// ---- a move

// The action that turns a heading into another; 3, which is none, for the way back.
fn action_between(old: u64, new: u64) -> u8 {
    if new == old {
        return b'0';
    }
    if new % 4 == (old % 4 + 3) % 4 {
        return b'1';
    }
    if new % 4 == (old % 4 + 1) % 4 {
        return b'2';
    }
    b'3'
}

fn put_move(line: &mut [u8], past: &[u16], image: &[u16], n: usize) -> usize
    requires { (n ≤ 8) × (32 ≤ length line.old) }
    ensures { result ≤ 32 }
{
    let mut at = put(line, 0, b'm');
    for i in 0..n {
        let k = heading_at(i);
        at = put(line, at, b' ');
        at = put(
            line,
            at,
            action_between(word_at(past, k), word_at(image, k)),
        );
    }
    at
}

pub fn put_entry(line: &mut [u8], past: &[u16], image: &[u16]) -> usize
    requires { 32 ≤ length line.old }
    ensures { result ≤ 32 }
{
    if word_at(past, 2) != 0 {
        return put_draw(line, past, image);
    }
    let n = (word_at(image, 0) as usize).min(8);
    put_move(line, past, image, n)
}
