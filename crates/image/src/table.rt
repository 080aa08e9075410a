// A snake's record of a well-formed image.
ghost use Rattle.std.specs.Prelude.{◌≡◌, ◌<◌};
ghost use Rattle.rules.specs.Image.{snakes_in};
ghost use Rattle.rules.specs.Facts.{Sound};
ghost use Rattle.image.specs.Records.{record_at};

use crate::SnakeRecord;
use crate::words::heading_of;
use layout::{alive_at, heading_at, length_at, start_at};

// Snake i's record.
pub fn record_at(image: &[u16], i: usize) -> SnakeRecord
    requires sound { Sound image.now }
    requires i_bound { i < snakes_in image.now }
    ensures { result ≡ record_at image.now i }
{
    SnakeRecord {
        start: image[start_at(i)],
        len: image[length_at(i)],
        heading: heading_of(image[heading_at(i)]),
        alive: image[alive_at(i)] == 1,
    }
}
