// The spaces and the turn, which ask no state.
use crate::fields::Fields;
use crate::reply::{Numbers, number};
use grid::action_of;
use image::{heading_of, number_of};
use parsing::grid_in;
use rules::{Refusal, Space};

fn shape(space: Space) -> Numbers {
    match space {
        Space::Box {
            planes,
            rows,
            cols,
            low: _,
            high: _,
        } => Numbers {
            count: 3,
            all: [planes as u64, rows as u64, cols as u64, 0, 0, 0, 0, 0],
        },
        Space::Discrete(n) => number(n as u64),
    }
}

// `p GRID`
pub fn observation_space(s: &[u8]) -> Option<Result<Numbers, Refusal>> {
    let grid = grid_in(s)?;
    Some(arena::observation_space(grid).map(shape))
}

// `q`, and no other letter.
pub fn action_space(letter: u8) -> Option<Result<Numbers, Refusal>> {
    if letter == b'q' {
        Some(Ok(shape(arena::action_space())))
    } else {
        None
    }
}

// `h HEADING ACTION`
pub fn turn(s: &[u8]) -> Option<Result<Numbers, Refusal>> {
    let mut values = [0u64; 2];
    Fields::of(s).last_numbers(&mut values)?;
    let [heading, action] = values;
    if 3 < heading || 2 < action {
        return None;
    }
    let turned = arena::relative_to_absolute(heading_of(heading as u16), action_of(action));
    Some(Ok(number(u64::from(number_of(turned)))))
}
