// An output line of the words of an image, and the last line. Words past its end read as 0, so that nothing is asked of the image.
ghost use Rattle.std.specs.Prelude.{◌≡◌, ◌+◌, ◌*◌, ◌<◌, ◌≤◌, length};
ghost use Rattle.lists.specs.Below.{concat_below};
ghost use Rattle.rules.specs.Image.{word};
ghost use Rattle.printing.specs.Text.{Wrote};
ghost use Rattle.standing.specs.Shown.{snake_shown, snake_shown_by, line_shown};
ghost use Rattle.standing.specs.Standing.{end_text};

use crate::Match;
use crate::moves::snakes_of;
use crate::placings::places;
use layout::{alive_at, length_at, start_at};
use lists::word_at;
use printing::{put, put_body, put_events, put_head, put_placings};
use rules::Event;

// The first word of the body of snake i.
fn first_of(image: &[u16], i: usize) -> u64
    requires { i < 8 }
    ensures { result ≡ word image.now (word image.now (5 + 4 * i)) }
{
    let start = word_at(image, start_at(i)) as usize;
    word_at(image, start)
}

fn put_snake(out: &mut [u8], at: usize, image: &[u16], i: usize, e: Event) -> usize
    requires { (i < 8) × (at + 52 ≤ length out.old) }
    ensures { Wrote out.old out.new at result (snake_shown image.now i e) 52 }
{
    let size = word_at(image, length_at(i));
    let alive = word_at(image, alive_at(i)) == 1;
    let j = put_body(out, at, alive, size, first_of(image, i));
    let k = put(out, j, b':');
    put_events(out, k, e)
}

fn put_snakes(out: &mut [u8], from: usize, image: &[u16], events: [Event; 8], n: usize) -> usize
    requires { (n ≤ 8) × (from + 416 ≤ length out.old) }
    ensures { Wrote out.old out.new from result (concat_below n (snake_shown_by image.now events)) 416 }
{
    let mut at = from;
    for (i, event) in events[..n].iter().enumerate() {
        at = put_snake(out, at, image, i, *event);
    }
    at
}

// The line of n snakes, at the front of a lent buffer, with its length.
pub fn put_line(
    out: &mut [u8],
    letter: u8,
    over: bool,
    image: &[u16],
    events: [Event; 8],
    n: usize,
) -> usize
    requires { (n ≤ 8) × (462 ≤ length out.old) }
    ensures { Wrote out.old out.new 0 result (line_shown letter over image.now events n) 462 }
{
    let due = word_at(image, 2);
    let food = word_at(image, 4);
    let i = put_head(out, 0, letter, over, due, food);
    let j = put_snakes(out, i, image, events, n);
    put(out, j, b'\n')
}

// The last line: the places.
pub fn put_end(out: &mut [u8], m: Match) -> usize
    requires { 170 ≤ length out.old }
    ensures { Wrote out.old out.new 0 result (end_text m) 170 }
{
    put_placings(out, places(m), snakes_of(m))
}
