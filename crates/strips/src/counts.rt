// How many squares have no mark: of the area, and strip by strip.
ghost use Rattle.std.specs.Prelude.{◌≡◌, ◌+◌, ◌*◌, ◌<◌, ◌≤◌, length};
ghost use Rattle.strips.specs.Marks.{unmarked, clear_from, Inside, Counted};

// How many strips the area reaches into.
fn reached(area: usize) -> usize
    ensures { (area ≤ result * 64) × (result * 64 < area + 64) }
{
    area.div_ceil(64)
}

// The squares of a strip that have no mark.
fn open_in(strip: u64) -> usize
    ensures { result ≡ length (clear_from 0 strip) }
{
    64 - strip.count_ones() as usize
}

// The squares of the area that have no mark: those of its strips, less what the last one has past the area.
pub fn count_open(strips: &[u64; 16], area: usize) -> usize
    requires { Inside area strips.now }
    ensures { result ≡ length (unmarked strips.now area) }
{
    let last = reached(area);
    let mut open = 0;
    for strip in &strips[..last] {
        open += open_in(*strip);
    }
    open + area - last * 64
}

// A count a strip, for the strips of the area.
pub fn count_strips(strips: &[u64; 16], area: usize, tally: &mut [u8; 16])
    requires area_bound { (area ≤ 1024) × (length strips.now ≡ 16) }
    requires tally_len { length tally.old ≡ 16 }
    ensures { Counted area strips.now tally.new }
{
    for s in 0..reached(area) {
        tally[s] = open_in(strips[s]) as u8;
    }
}
