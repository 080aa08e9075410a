// All living snakes move, before any is judged: the first loop of the Rust's advance.
ghost use Rattle.std.specs.Prelude.{◌≡◌, ◌<◌, length};
ghost use Rattle.lists.specs.Below.{filled};
ghost use Rattle.rules.specs.Image.{snakes_in};
ghost use Rattle.rules.specs.Facts.{Sound};
ghost use Rattle.judge.specs.World.{still};
ghost use Rattle.judge.specs.Moving.{LivingAt, OnFood, Kept, going, move_by, move_at};

use crate::Move;
use rules::{Heading, Place};

// A place of the array that no snake has.
const STILL: Move = Move {
    moves: false,
    heading: Heading::Up,
    eats: false,
    inside: false,
    head: Place { row: 0, col: 0 },
    cell: 0,
    keep: 0,
};

// Whether there is food at the cell of a head, which may be off the grid.
fn on_food(image: &[u16], inside: bool, cell: u16) -> bool
    requires { Sound image.now }
    ensures { OnFood image.now inside cell result }
{
    inside && lists::holds(image::food_of(image), cell)
}

// 'Tails stay only if the new head is on food': how many words of the body are kept.
fn kept(len: u16, eats: bool) -> u16
    requires { 0 < len }
    ensures { Kept len eats result }
{
    if eats { len } else { len - 1 }
}

// The body of `len` words from `start` on goes one place on. Nothing else of a step asks for a neighbour or for the cell of a head.
fn goes_on(image: &[u16], start: u16, len: u16, heading: Heading) -> Move
    requires { LivingAt image.now start len }
    ensures { result ≡ going image.now start len heading }
{
    let g = image[1];
    let here = grid::place_of(g, image[start as usize]);
    let head = grid::ahead(heading, here);
    let inside = grid::on_grid(g, head);
    let cell = grid::cell_of(g, head);
    let eats = on_food(image, inside, cell);
    Move {
        moves: true,
        heading,
        eats,
        inside,
        head,
        cell,
        keep: kept(len, eats),
    }
}

// Snake i acts; a dead one stays.
fn moved(image: &[u16], i: usize, action: u64) -> Move
    requires sound { Sound image.now }
    requires i_bound { i < snakes_in image.now }
    ensures { result ≡ move_by image.now i action }
{
    let snake = image::record_at(image, i);
    if snake.alive {
        let turned = grid::relative_to_absolute(snake.heading, grid::action_of(action));
        return goes_on(image, snake.start, snake.len, turned);
    }
    Move {
        heading: snake.heading,
        keep: snake.len,
        ..STILL
    }
}

pub fn move_all(image: &[u16], actions: &[u64]) -> [Move; 8]
    requires sound { Sound image.now }
    requires actions_len { length actions.now ≡ snakes_in image.now }
    ensures { result ≡ filled (move_at image.now actions.now) (snakes_in image.now) 8 still }
{
    let mut all = [STILL; 8];
    for (i, action) in actions.iter().enumerate() {
        all[i] = moved(image, i, *action);
    }
    all
}
