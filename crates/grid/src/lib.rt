// Headings, actions by number, and places: a row and a column, perhaps off the grid. Of the rules' code, rows and columns are signed here and where snakes are placed alone.
#![tactic(auto)]

ghost use Rattle.std.specs.Prelude.{◌≡◌, ◌≤◌, pos};
ghost use Rattle.rules.specs.Headings.{clockwise, counterclockwise, action_of};
ghost use Rattle.rules.specs.Grid.{ahead, inside, same, cell_of, place_of};
ghost use Rattle.rules.specs.Promises.{Turns};
ghost use Rattle.grid.specs.Near.{Near};

use rules::{Heading, Place, RelativeAction};

// cw of the Rust.
fn clockwise(heading: Heading) -> Heading
    ensures { result ≡ clockwise heading }
{
    match heading {
        Heading::Up => Heading::Right,
        Heading::Right => Heading::Down,
        Heading::Down => Heading::Left,
        Heading::Left => Heading::Up,
    }
}

// ccw of the Rust.
fn counterclockwise(heading: Heading) -> Heading
    ensures { result ≡ counterclockwise heading }
{
    match heading {
        Heading::Up => Heading::Left,
        Heading::Left => Heading::Down,
        Heading::Down => Heading::Right,
        Heading::Right => Heading::Up,
    }
}

// A number above 2 is read as 2.
pub fn action_of(number: u64) -> RelativeAction
    ensures { result ≡ action_of number }
{
    match number {
        0 => RelativeAction::Forward,
        1 => RelativeAction::TurnLeft,
        _ => RelativeAction::TurnRight,
    }
}

// A snake's action as a heading.
pub fn relative_to_absolute(heading: Heading, action: RelativeAction) -> Heading
    ensures { Turns heading action result }
{
    match action {
        RelativeAction::Forward => heading,
        RelativeAction::TurnLeft => counterclockwise(heading),
        RelativeAction::TurnRight => clockwise(heading),
    }
}

// The neighbour of a place.
pub fn ahead(heading: Heading, p: Place) -> Place
    requires { Near p }
    ensures { result ≡ ahead heading p }
{
    match heading {
        Heading::Up => Place {
            row: p.row - 1,
            ..p
        },
        Heading::Right => Place {
            col: p.col + 1,
            ..p
        },
        Heading::Down => Place {
            row: p.row + 1,
            ..p
        },
        Heading::Left => Place {
            col: p.col - 1,
            ..p
        },
    }
}

// in_bounds of the Rust.
fn is_inside(g: i32, p: Place) -> bool
    ensures { result ≡ inside g p }
{
    0 <= p.row && p.row < g && 0 <= p.col && p.col < g
}

pub fn same(p: Place, q: Place) -> bool
    ensures { result ≡ same p q }
{
    p == q
}

// Whether a place is inside a grid whose side has 16 bits.
pub fn on_grid(g: u16, p: Place) -> bool
    ensures { result ≡ inside (pos g) p }
{
    is_inside(i32::from(g), p)
}

// Row-major; 0 off the grid, where no rule asks for it.
pub fn cell_of(g: u16, p: Place) -> u16
    requires { g ≤ 32 }
    ensures { result ≡ cell_of g p }
{
    if !on_grid(g, p) {
        return 0;
    }
    p.row as u16 * g + p.col as u16
}

pub fn place_of(g: u16, cell: u16) -> Place
    requires { 1 ≤ g }
    ensures { result ≡ place_of g cell }
{
    Place {
        row: i32::from(cell / g),
        col: i32::from(cell % g),
    }
}
