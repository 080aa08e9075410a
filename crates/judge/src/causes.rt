// All causes of death, judged on the one world of all moves: resolve_collisions of the Rust.
ghost use Rattle.std.specs.Prelude.{◌≡◌, length};
ghost use Rattle.rules.specs.Image.{snakes_in, side_in};
ghost use Rattle.rules.specs.Facts.{Sound};
ghost use Rattle.rules.specs.Step.{cause_of};
ghost use Rattle.judge.specs.World.{world, Judges};
ghost use Rattle.judge.specs.Judging.{RestIn, RestFound, Judging, Stops, Stopped, OnBody};

use crate::hits::hit_at;
use crate::moves::move_all;
use crate::{Judged, Move};
use rules::{Cause, Hit};

// The first place of a cell in the rest of snake j's body.
pub fn find_rest(image: &[u16], j: usize, you: Move, cell: u16) -> Option<usize>
    requires { RestIn image.now j you }
    ensures { RestFound image.now j you cell result }
{
    let start = image[layout::start_at(j)] as usize;
    image::find_in(image, start, you.keep as usize, cell)
}

// The same of a snake that is another than i and moved; a corpse is not searched.
fn find_on(image: &[u16], i: usize, j: usize, you: Move, cell: u16) -> Option<usize>
    requires { RestIn image.now j you }
    ensures { Stops image.now i j you cell result }
{
    if i == j || !you.moves {
        return None;
    }
    find_rest(image, j, you, cell)
}

// The lowest-numbered snake that has the cell so, and its position there. Heads are not asked: a head there was head-on.
pub fn find_other(image: &[u16], all: [Move; 8], n: usize, i: usize, cell: u16) -> Option<Hit>
    requires { Judging image.now all n i }
    ensures { Stopped image.now all n i cell result }
{
    for j in 0..n {
        if let Some(k) = find_on(image, i, j, all[j], cell) {
            return Some(hit_at(j, k));
        }
    }
    None
}

// The cause of a head on the grid that meets no other: the own rest, then the others'.
fn body_cause(image: &[u16], all: [Move; 8], n: usize, i: usize, cell: u16) -> Option<Cause>
    requires { Judging image.now all n i }
    ensures { OnBody image.now all n i cell result }
{
    if find_rest(image, i, all[i], cell).is_some() {
        return Some(Cause::SelfBody);
    }
    if find_other(image, all, n, i, cell).is_some() {
        return Some(Cause::OppBody);
    }
    None
}

// Why snake i dies, if it does. The heads are compared here: a function of their own would be handed the eight moves once more.
fn cause_of(image: &[u16], all: [Move; 8], n: usize, i: usize) -> Option<Cause>
    requires { Judging image.now all n i }
    ensures { result ≡ cause_of (side_in image.now) n (world image.now all) i }
{
    let me = all[i];
    if !me.moves {
        return None;
    }
    let mut met = false;
    for j in 0..n {
        let you = all[j];
        met |= (i != j) & you.moves & grid::same(me.head, you.head);
    }
    if met {
        return Some(Cause::HeadOn);
    }
    if !me.inside {
        return Some(Cause::Wall);
    }
    // Most heads are on no body and no food: one search over the words of both tells that, before any body is searched by itself.
    if !lists::holds(&image[layout::front(n)..], me.cell) {
        return None;
    }
    body_cause(image, all, n, i, me.cell)
}

// Every snake's move and cause.
pub fn judge(image: &[u16], actions: &[u64]) -> Judged
    requires sound { Sound image.now }
    requires actions_len { length actions.now ≡ snakes_in image.now }
    ensures { Judges image.now actions.now result }
{
    let moves = move_all(image, actions);
    let n = actions.len();
    let mut causes = [None; 8];
    for i in 0..n {
        causes[i] = cause_of(image, moves, n, i);
    }
    Judged { moves, causes }
}
