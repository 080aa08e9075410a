// The board, a character a cell and a line a row. Where a cell holds several, the living's heads stand over their bodies, these over corpses, these over
// food; of two snakes the one with the lower number is seen.
ghost use Rattle.std.specs.Prelude.{◌+◌, ◌<◌, ◌≤◌, length};

use crate::pages::food_in;
use layout::alive_at;
use lists::word_at;

// Standard output, as `io` numbers it.
const STDOUT: i32 = 1;

// What is drawn of the snakes, one over the other.
#[derive(Clone, Copy)]
pub enum Layer {
    Corpses,
    Bodies,
    Heads,
}

fn mark(board: &mut [u8], cell: u16, letter: u8) {
    if let Some(square) = board.get_mut(cell as usize) {
        *square = letter;
    }
}

fn mark_all(board: &mut [u8], cells: &[u16], letter: u8) {
    for cell in cells {
        mark(board, *cell, letter);
    }
}

fn mark_first(board: &mut [u8], cells: &[u16], letter: u8) {
    if let Some(cell) = cells.first() {
        mark(board, *cell, letter);
    }
}

// A letter or a digit for the snake's number.
fn letter(first: u8, i: usize) -> u8
    requires { (first < 128) × (i < 8) }
{
    first + i as u8
}

fn mark_snake(board: &mut [u8], image: &[u16], i: usize, layer: Layer)
    requires { i < 8 }
{
    let alive = word_at(image, alive_at(i)) == 1;
    let body = image::body(image, i);
    match layer {
        Layer::Corpses => {
            if !alive {
                mark_all(board, body, letter(b'0', i));
            }
        }
        Layer::Bodies => {
            if alive {
                mark_all(board, body, letter(b'a', i));
            }
        }
        Layer::Heads => {
            if alive {
                mark_first(board, body, letter(b'A', i));
            }
        }
    }
}

// The highest number first, so that the lowest is seen.
fn mark_layer(board: &mut [u8], image: &[u16], layer: Layer) {
    for i in (0..8).rev() {
        mark_snake(board, image, i, layer);
    }
}

fn put_row(row: &[u8]) -> bool {
    io::write_all(STDOUT, row) & io::write_all(STDOUT, b"\n")
}

// All rows are written, even where one could not be.
fn put_rows(board: &[u8], g: usize) -> bool
    requires { (g ≤ 32) × (1024 ≤ length board.now) }
{
    let mut heard = true;
    let mut rest = board;
    for _row in 0..g {
        let (row, below) = rest.split_at(g);
        heard &= put_row(row);
        rest = below;
    }
    heard
}

pub fn put_board(image: &[u16]) -> bool {
    let mut board = [b'.'; 1024];
    mark_all(&mut board, food_in(image), b'*');
    mark_layer(&mut board, image, Layer::Corpses);
    mark_layer(&mut board, image, Layer::Bodies);
    mark_layer(&mut board, image, Layer::Heads);
    let g = (word_at(image, 1) as usize).min(32);
    put_rows(&board, g)
}
