// Placement: initial_snakes_checked and trace_body of the Rust, on grids of 3 and more, where every start is inside.
ghost use Rattle.std.specs.Prelude.{◌≡◌, true, map, ◌+◌, ◌<◌, ◌≤◌, pos, length, MatchOption};
ghost use Rattle.rules.specs.Grid.{inside, cell_of};
ghost use Rattle.rules.specs.Placement.{start_place, tracing, row_of, col_of, traced};
ghost use Rattle.grid.specs.Near.{Near};
ghost use Rattle.placement.specs.Traces.{Walked, Laid, Start, Traceable, Placed};

use rules::{Heading, Place, Refusal};

// A trace on its way: its last place, and which of its four directions it follows.
#[derive(Clone, Copy)]
struct Walk {
    place: Place,
    turn: usize,
}

fn start_row(g: u16, n: u16, i: u16) -> u16
    requires { Start g n i }
    ensures { pos result ≡ row_of (pos g) n i }
{
    if n == 2 { g / 2 } else { (i + 1) * g / (n + 1) }
}

fn start_col(g: u16, i: u16) -> u16
    ensures { pos result ≡ col_of (pos g) i }
{
    let third = g / 3;
    if i % 2 == 0 { third } else { g - third }
}

fn start_place(g: u16, n: u16, i: u16) -> Place
    requires { Start g n i }
    ensures { result ≡ start_place (pos g) n i }
{
    Place {
        row: i32::from(start_row(g, n, i)),
        col: i32::from(start_col(g, i)),
    }
}

// The directions of a trace, in the order in which it takes them.
fn directions(even: bool) -> [Heading; 4]
    ensures { result ≡ tracing even }
{
    if even {
        [Heading::Left, Heading::Down, Heading::Right, Heading::Up]
    } else {
        [Heading::Right, Heading::Up, Heading::Left, Heading::Down]
    }
}

// One place on, in the first direction that is open; none where none is.
fn walk_on(g: u16, even: bool, from: Walk) -> Option<Walk>
    requires near { Near from.place }
    requires turn_bound { from.turn ≤ 4 }
    ensures { MatchOption result
        (Walked (pos g) (tracing even) from.place from.turn from.place 4)
        (λ w. (w.turn < 4) × Walked (pos g) (tracing even) from.place from.turn w.place w.turn) }
{
    let directions = directions(even);
    for turn in from.turn..4 {
        let next = grid::ahead(directions[turn], from.place);
        if grid::on_grid(g, next) {
            return Some(Walk { place: next, turn });
        }
    }
    None
}

// The cells of a body of `size` places from `start` on, or fewer where the directions are used up; how many.
fn trace_body(cells: &mut [u16], at: usize, g: u16, start: Place, even: bool, size: usize) -> usize
    requires at_in_bounds { (at + 125 ≤ length cells.old) × (g ≤ 32) × (1 ≤ size) }
    requires start_value { inside (pos g) start ≡ true }
    ensures { Laid cells.old cells.new at (map (cell_of g) (traced (pos g) (tracing even) size start)) result }
{
    let mut walk = Walk {
        place: start,
        turn: 0,
    };
    cells[at] = grid::cell_of(g, start);
    for k in 1..size {
        let Some(next) = walk_on(g, even, walk) else {
            return k;
        };
        cells[at + k] = grid::cell_of(g, next.place);
        walk = next;
    }
    size
}

// Every body, one after the other; refused where some body cannot be traced to its length.
pub fn place_snakes(cells: &mut [u16], g: u16, n: u16, size: usize) -> Result<(), Refusal>
    requires { Traceable g n size cells.old }
    ensures { Placed g n size cells.old cells.new result }
{
    let mut at = 0;
    for i in 0..n {
        let start = start_place(g, n, i);
        let k = trace_body(cells, at, g, start, i % 2 == 0, size);
        if k < size {
            return Err(Refusal::Untraceable);
        }
        at += k;
    }
    Ok(())
}
