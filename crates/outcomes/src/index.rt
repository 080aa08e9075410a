// An index in mixed radix, and the cells that its digits pick.
ghost use Rattle.std.specs.Prelude.{◌≡◌, ◌≤◌, length};
ghost use Rattle.rules.specs.Chance.{digits, pick};
ghost use Rattle.strips.specs.Marks.{unmarked};
ghost use Rattle.outcomes.specs.Odds.{Pickable};

// The digits of an index over the whole list, the last one lowest.
pub fn split(list: &mut [u16], n: usize, index: u64)
    requires { (length list.old ≤ n) × (n ≤ 1024) }
    ensures { list.new ≡ digits n (length list.old) index }
{
    let mut rest = index;
    for j in (0..list.len()).rev() {
        let base = (n - j) as u64;
        list[j] = (rest % base) as u16;
        rest /= base;
    }
}

// Each digit gives way to the cell that it picks among those still free.
pub fn pick_cells(list: &mut [u16], area: usize, strips: &mut [u64; 16], tally: &mut [u8; 16])
    requires { Pickable list.old area strips.old tally.old }
    ensures { list.new ≡ pick (unmarked strips.old area) list.old }
{
    for digit in list.iter_mut() {
        let cell = strips::nth_free(strips, tally, area, usize::from(*digit));
        strips::take(strips, tally, area, cell);
        *digit = cell as u16;
    }
}
