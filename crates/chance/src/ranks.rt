// The rank of a list: each cell's place among the cells still free is a digit.
ghost use Rattle.rules.specs.Facts.{Sound};
ghost use Rattle.rules.specs.Promises.{Ranks};
ghost use Rattle.strips.specs.Marks.{unmarked, Counted, Free};
ghost use Rattle.chance.specs.Ranking.{Placed, Rankable, Ranked};

use outcomes::odds_of;
use rules::Refusal;
use strips::{count_strips, free_below, is_marked, take};

// The place of a free cell among the free ones, which it then leaves.
fn take_place(strips: &mut [u64; 16], tally: &mut [u8; 16], area: usize, c: usize) -> usize
    requires { Free area strips.old tally.old c }
    ensures { Placed area c strips.old strips.new tally.new result }
{
    let place = free_below(strips, tally, area, c);
    take(strips, tally, area, c);
    place
}

// Refusal 30, for a cell that is not free or stood in the list before: it has a mark then.
fn rank_cells(
    list: &[u16],
    area: usize,
    free: usize,
    strips: &mut [u64; 16],
    tally: &mut [u8; 16],
) -> Result<u64, Refusal>
    requires rankable { Rankable list.now area free strips.old }
    requires counted { Counted area strips.old tally.old }
    ensures { Ranked (unmarked strips.old area) list.now result }
{
    let mut rank: u64 = 0;
    for (j, word) in list.iter().enumerate() {
        let cell = usize::from(*word);
        if area <= cell || is_marked(strips, cell) {
            return Err(Refusal::List);
        }
        rank = rank * (free - j) as u64 + take_place(strips, tally, area, cell) as u64;
    }
    Ok(rank)
}

// Refusals 23, 28, 30.
pub fn rank_due(image: &[u16], list: &[u16]) -> Result<u64, Refusal>
    requires { Sound image.now }
    ensures { Ranks image.now list.now result }
{
    if image[2] == 0 {
        return Err(Refusal::NoneDue);
    }
    let mut strips = [0u64; 16];
    let found = odds_of(image, &mut strips);
    found.count.ok_or(Refusal::Count)?;
    if list.len() != found.size {
        return Err(Refusal::List);
    }
    let g = image[1] as usize;
    let area = g * g;
    let mut tally = [0u8; 16];
    count_strips(&strips, area, &mut tally);
    rank_cells(list, area, found.free, &mut strips, &mut tally)
}
