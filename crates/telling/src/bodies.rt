// Where a body lies, as two numbers.
ghost use Rattle.rules.specs.Facts.{Sound};
ghost use Rattle.telling.specs.Told.{FlatBody};

use layout::{length_at, start_at};

// A start and a length, in a checked image; 0 and 0 where there is no such snake.
pub fn tell_body(image: &[u16], snake: u64, part: &mut [u64; 2]) -> u64
    requires { Sound image.now }
    ensures { FlatBody image.now snake part.new result }
{
    if image[0] as u64 <= snake {
        *part = [0, 0];
        return 0;
    }
    let i = snake as usize;
    let start = image[start_at(i)] as u64;
    let len = image[length_at(i)] as u64;
    *part = [start, len];
    0
}
