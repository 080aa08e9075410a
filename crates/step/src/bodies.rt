// The records and the bodies of the next image.
ghost use Rattle.std.specs.Prelude.{◌≡◌, ◌+◌, ◌≤◌, length};
ghost use Rattle.lists.specs.Below.{concat_below};
ghost use Rattle.lists.specs.Lists.{write_at};
ghost use Rattle.lists.specs.Written.{Written};
ghost use Rattle.rules.specs.Image.{front};
ghost use Rattle.consequences.specs.After.{InImage, Short};
ghost use Rattle.step.specs.Next.{record_in, body_in};

use consequences::{Snakes, size_of};

// Four words of each snake, from word 5 on.
pub fn write_records(out: &mut [u16], snakes: &Snakes)
    requires room { front snakes.now.count ≤ length out.old }
    requires short { Short snakes.now.all }
    ensures { out.new ≡ write_at out.old 5 (concat_below snakes.now.count (record_in snakes.now.count snakes.now.all)) }
{
    let mut start = layout::front(snakes.count);
    for (i, a) in snakes.each().iter().enumerate() {
        let len = size_of(*a);
        image::write_record(out, layout::start_at(i), start, len, a.heading, a.lives);
        start += len;
    }
}

pub fn write_bodies(out: &mut [u16], from: usize, image: &[u16], snakes: &Snakes) -> usize
    requires all_in_bounds { from + length (concat_below snakes.now.count (body_in image.now snakes.now.all)) ≤ length out.old }
    requires in_image { InImage image.now snakes.now.all snakes.now.count }
    ensures { Written out.old from (concat_below snakes.now.count (body_in image.now snakes.now.all)) out.new result }
{
    let mut at = from;
    for (i, a) in snakes.each().iter().enumerate() {
        let start = image[layout::start_at(i)] as usize;
        at = image::write_body(out, at, image, start, a.keep as usize, a.cell, a.lives);
    }
    at
}
