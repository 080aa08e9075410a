// Marks: each taken cell is one bit of its strip, whatever stood there before.
ghost use Rattle.std.specs.Prelude.{◌≡◌, ◌<◌, length};
ghost use Rattle.boards.specs.Boards.{Under};
ghost use Rattle.strips.specs.Marks.{marked, Marked, Adds};

pub fn is_marked(strips: &[u64; 16], c: usize) -> bool
    requires { c < 1024 }
    ensures { result ≡ marked strips.now c }
{
    (strips[c / 64] >> (c % 64)) % 2 == 1
}

pub fn mark(strips: &mut [u64; 16], c: usize)
    requires { (length strips.old ≡ 16) × (c < 1024) }
    ensures { Marked c strips.old strips.new }
{
    strips[c / 64] |= 1u64 << (c % 64);
}

fn mark_four(cells: &[u16; 4], strips: &mut [u64; 16])
    requires under { (Under 1024 cells.now) × (length cells.now ≡ 4) }
    requires strips_len { length strips.old ≡ 16 }
    ensures { Adds cells.now strips.old strips.new }
{
    mark(strips, usize::from(cells[0]));
    mark(strips, usize::from(cells[1]));
    mark(strips, usize::from(cells[2]));
    mark(strips, usize::from(cells[3]));
}

fn mark_each(cells: &[u16], strips: &mut [u64; 16])
    requires under { Under 1024 cells.now }
    requires strips_len { length strips.old ≡ 16 }
    ensures { Adds cells.now strips.old strips.new }
{
    for cell in cells {
        mark(strips, usize::from(*cell));
    }
}

// Four at a time, since a loop's own turn weighs half as much as a mark.
pub fn mark_all(cells: &[u16], strips: &mut [u64; 16])
    requires under { Under 1024 cells.now }
    requires strips_len { length strips.old ≡ 16 }
    ensures { Adds cells.now strips.old strips.new }
{
    let (fours, rest) = cells.as_chunks::<4>();
    for four in fours {
        mark_four(four, strips);
    }
    mark_each(rest, strips);
}
