// What every call starts from: the free cells of a checked image, how many a draw takes, and the count (`chance_node`).
ghost use Rattle.std.specs.Prelude.{◌≡◌, min, eqb};
ghost use Rattle.lists.specs.Choice.{◌if◌else◌};
ghost use Rattle.strips.specs.Marks.{Blank};
ghost use Rattle.rules.specs.Facts.{Sound};
ghost use Rattle.rules.specs.Promises.{Counts};
ghost use Rattle.outcomes.specs.Odds.{Stands};

use layout::front;
use lists::product;
use rules::Refusal;
use strips::{count_open, mark_all};

// The free cells, how many of them a draw takes, and the count of outcomes; none for one above 2^64 - 1.
#[derive(Clone, Copy)]
pub struct Odds {
    pub free: usize,
    pub size: usize,
    pub count: Option<u64>,
}

// One cell at birth, else as many as are due; no more than are free.
fn draw_size(due: usize, birth: u16, free: usize) -> usize
    ensures { result ≡ min (1 if eqb birth 1 else due) free }
{
    if birth == 1 {
        free.min(1)
    } else {
        due.min(free)
    }
}

// Every word past the records is a taken cell, so one pass marks them all.
pub fn odds_of(image: &[u16], strips: &mut [u64; 16]) -> Odds
    requires sound { Sound image.now }
    requires blank { Blank strips.old }
    ensures { Stands image.now strips.new result }
{
    let n = image[0] as usize;
    let g = image[1] as usize;
    mark_all(&image[front(n)..], strips);
    let free = count_open(strips, g * g);
    let size = draw_size(image[2] as usize, image[3], free);
    Odds {
        free,
        size,
        count: product(free, size),
    }
}

// Refusals 23, 28.
pub fn count_due(image: &[u16]) -> Result<u64, Refusal>
    requires { Sound image.now }
    ensures { Counts image.now result }
{
    if image[2] == 0 {
        return Err(Refusal::NoneDue);
    }
    let mut strips = [0u64; 16];
    odds_of(image, &mut strips).count.ok_or(Refusal::Count)
}
