// The snakes after the step, and how many live, died, and how many cells they have.
ghost use Rattle.std.specs.Prelude.{◌≡◌, ◌≤◌};
ghost use Rattle.lists.specs.Below.{filled};
ghost use Rattle.consequences.specs.After.{settled, settled_at, gone, size_of, Short, Counted};

use crate::settled::Snakes;
use events::is_death;
use judge::{Judged, Move};
use lists::more_if;
use rules::{Cause, Heading};

// A snake after the step: its body is the cell of its moved head, if it lives, and then the first `keep` words of its body in the image.
#[derive(Clone, Copy)]
pub struct After {
    pub heading: Heading,
    pub lives: bool,
    pub ate: bool,
    pub cause: Option<Cause>,
    pub cell: u16,
    pub keep: u16,
}

// How many live, how many died, and how many cells all bodies have.
#[derive(Clone, Copy)]
pub struct Tally {
    pub alive: usize,
    pub deaths: usize,
    pub cells: usize,
}

// 'The dying lose their head cell', and did not eat.
fn settle(m: Move, cause: Option<Cause>) -> After
    ensures { result ≡ settled m cause }
{
    let lasts = !is_death(cause);
    After {
        heading: m.heading,
        lives: m.moves & lasts,
        cell: m.cell,
        keep: m.keep,
        ate: m.eats & lasts,
        cause,
    }
}

pub fn settle_all(judged: Judged, n: usize) -> Snakes
    requires { n ≤ 8 }
    ensures places { result.all ≡ filled (settled_at judged.moves judged.causes) n 8 gone }
    ensures count { result.count ≡ n }
{
    let mut all = [After {
        heading: Heading::Up,
        lives: false,
        cell: 0,
        keep: 0,
        ate: false,
        cause: None,
    }; 8];
    for i in 0..n {
        all[i] = settle(judged.moves[i], judged.causes[i]);
    }
    Snakes { all, count: n }
}

// How many cells a snake has.
pub fn size_of(a: After) -> usize
    requires { a.keep ≤ 1024 }
    ensures { result ≡ size_of a }
{
    more_if(a.keep as usize, a.lives)
}

impl Snakes {
    pub fn count_all(&self) -> Tally
        requires { Short self.now.all }
        ensures { Counted self.now.all self.now.count result }
    {
        let mut alive = 0;
        let mut deaths = 0;
        let mut cells = 0;
        for a in self.each() {
            alive = more_if(alive, a.lives);
            deaths = more_if(deaths, is_death(a.cause));
            cells += size_of(*a);
        }
        Tally {
            alive,
            deaths,
            cells,
        }
    }
}
