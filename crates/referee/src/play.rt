// A replay as a program holds it: its image stays in one lent buffer, the next one is made in another and takes its place.
ghost use Rattle.std.specs.Prelude.{◌≡◌, false, ◌≤◌, length, take};
ghost use Rattle.printing.specs.Text.{Wrote};
ghost use Rattle.referee.specs.Match.{line_says, close_text, Plays};

use crate::turns::{begin, turn};
use crate::{Desk, Turned};
use printing::put_refusal;
use rules::{Refusal, Setting};
use standing::{new_match, put_end};

// Before the first line.
pub fn new_desk() -> Desk
    ensures { (result.begun ≡ false) × (result.words ≡ 0) }
{
    let setting = Setting {
        num_snakes: 0,
        grid_size: 0,
        initial_length: 0,
        play_to_last: false,
        win_food_lead: None,
        initial_food_count: 0,
        max_ticks: None,
    };
    Desk {
        begun: false,
        game: new_match(setting),
        words: 0,
    }
}

fn ask(
    d: Desk,
    image: &[u16],
    next: &mut [u16],
    list: &mut [u16],
    line: &[u8],
    out: &mut [u8],
) -> Turned
    requires { 462 ≤ length out.old }
    ensures { Plays (line_says d image.now line.now (length next.old) (length list.old)) d.game next.old next.new out.old out.new result }
{
    if d.begun {
        return turn(d.game, image, line, next, list, out);
    }
    begin(d.game, line, next, out)
}

// A line, with the image of the desk at the front of `image`.
pub fn take_line(
    d: Desk,
    image: &mut [u16],
    next: &mut [u16],
    list: &mut [u16],
    line: &[u8],
    out: &mut [u8],
) -> Turned
    requires { (d.words ≤ length image.old) × (length next.old ≤ length image.old) × (462 ≤ length out.old) }
    ensures { Plays (line_says d (take d.words image.old) line.now (length next.old) (length list.old)) d.game image.old image.new out.old out.new result }
{
    let t = ask(d, &image[..d.words], next, list, line, out);
    if !t.more {
        return t;
    }
    lists::write_at(image, 0, &next[..t.words]);
    t
}

// The end of the input: the placings, or 32 where there was no line.
pub fn close(d: Desk, out: &mut [u8]) -> usize
    requires { 462 ≤ length out.old }
    ensures { Wrote out.old out.new 0 result (close_text d) 170 }
{
    if d.begun {
        return put_end(out, d.game);
    }
    put_refusal(out, u64::from(Refusal::Line.number()))
}
