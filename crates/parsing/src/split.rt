// The input cut into lines, as it comes in parts.
ghost use Rattle.std.specs.Prelude.{◌≡◌, ◌+◌, ◌≤◌, length, drop};
ghost use Rattle.parsing.specs.Fields.{up_to};
ghost use Rattle.parsing.specs.Split.{Feeds};

use crate::fields::piece_end;
use printing::write_at;

// Where the line that goes on at `from` ends: at a newline, or at the end of what came.
pub fn line_end(part: &[u8], from: usize) -> usize
    requires { from ≤ length part.now }
    ensures { (result ≡ from + length (up_to 10 (drop from part.now))) × (from ≤ result) × (result ≤ length part.now) }
{
    piece_end(part, from, b'\n')
}

// A further part of a line, after the bytes that are held; of more than 200 bytes only that they are more is kept.
pub fn feed(line: &mut [u8], fill: usize, part: &[u8]) -> usize
    requires { 201 ≤ length line.old }
    ensures { Feeds line.old line.new fill result part.now }
{
    if 200 < fill || 200 - fill < part.len() {
        return 201;
    }
    write_at(line, fill, part);
    fill + part.len()
}
