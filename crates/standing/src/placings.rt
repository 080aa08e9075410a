// The placings at the end of a match.
ghost use Rattle.std.specs.Prelude.{◌≡◌, ◌<◌};
ghost use Rattle.lists.specs.Below.{count_below};
ghost use Rattle.standing.specs.Placings.{outlives, outlasts, placing_of, end_placing};
ghost use Rattle.standing.specs.Standing.{places_of, snakes_of};

use crate::Match;
use crate::moves::snakes_of;
use lists::more_if;

// Whether a snake is alive, or died on a later move than d.
fn does_outlive(d: u64, x: u64) -> bool
    ensures { result ≡ outlives d x }
{
    (x == 0) | (d < x)
}

// How many snakes of the match outlive snake i.
fn outlast_count(m: &Match, i: usize) -> usize
    requires { i < 8 }
    ensures { result ≡ count_below (snakes_of m.now) (outlasts m.now.deaths i) }
{
    let mut k = 0;
    for j in 0..snakes_of(*m) {
        k = more_if(k, does_outlive(m.deaths[i], m.deaths[j]));
    }
    k
}

fn placing_of(m: &Match, i: usize) -> u64
    requires { i < 8 }
    ensures { result ≡ placing_of (snakes_of m.now) m.now.deaths i }
{
    if m.deaths[i] == 0 {
        return 1;
    }
    1 + outlast_count(m, i) as u64
}

// A living snake that lost stands behind the one that won.
fn end_placing(m: &Match, i: usize) -> u64
    requires { i < 8 }
    ensures { result ≡ end_placing (snakes_of m.now) m.now.deaths m.now.behind i }
{
    if m.behind[i] {
        return 2;
    }
    placing_of(m, i)
}

// The places of a match, over or not; 0 from its number of snakes on.
pub fn places(m: Match) -> [u64; 8]
    ensures { result ≡ places_of m }
{
    let mut out = [0; 8];
    for i in 0..snakes_of(m) {
        out[i] = end_placing(&m, i);
    }
    out
}
