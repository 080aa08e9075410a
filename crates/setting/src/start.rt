// The initial state, written as an image.
ghost use Rattle.std.specs.Prelude.{◌≡◌, [], ◌∷◌, ◌++◌, ltb};
ghost use Rattle.lists.specs.Choice.{bit};
ghost use Rattle.lists.specs.Below.{concat_below};
ghost use Rattle.lists.specs.Lists.{write_at};
ghost use Rattle.rules.specs.Placement.{start_heading};
ghost use Rattle.rules.specs.SettingParts.{start_record};
ghost use Rattle.setting.specs.Starts.{RecordRoom, RecordsWritten, Room};

use layout::{front, start_at};
use rules::Heading;

fn start_heading(i: usize) -> Heading
    ensures { result ≡ start_heading i }
{
    if i % 2 == 0 {
        Heading::Right
    } else {
        Heading::Left
    }
}

fn write_records(out: &mut [u16], n: usize, size: usize)
    requires { RecordRoom n size out.old }
    ensures { RecordsWritten n size n out.old out.new }
{
    for i in 0..n {
        image::write_record(
            out,
            start_at(i),
            front(n) + size * i,
            size,
            start_heading(i),
            true,
        );
    }
}

// Words 0 to 4, the records, and the bodies.
pub fn write_start(out: &mut [u16], n: usize, g: usize, food: usize, size: usize, cells: &[u16])
    requires { Room n g food size cells.now out.old }
    ensures { out.new ≡ write_at out.old 0 ((n ∷ g ∷ food ∷ bit (ltb 0 food) ∷ 0 ∷ []) ++ (concat_below n (start_record n size) ++ cells.now)) }
{
    image::write_contents(out, n, g, food, 0 < food, 0);
    write_records(out, n, size);
    lists::write_at(out, front(n), cells);
}
