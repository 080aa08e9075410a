// A line of the input, taken: the first one begins the match, the others make its turns. Each answer is taken apart, and a refusal stops.
ghost use Rattle.std.specs.Prelude.{◌≡◌, ◌≤◌, length};
ghost use Rattle.rules.specs.Image.{snakes_in};
ghost use Rattle.rules.specs.Refusals.{code_of};
ghost use Rattle.rules.specs.Says.{seen};
ghost use Rattle.rules.specs.Calls.{initial_says, step_says, draw_says};
ghost use Rattle.referee.specs.Match.{opened, drawn_turn, moved_turn, asked, begin_says, turn_says, Plays, Stops, Shows};
ghost use Rattle.standing.specs.Shown.{events_shown};
ghost use Rattle.standing.specs.Standing.{moved, snakes_of};

use crate::Turned;
use events::no_events;
use lists::word_at;
use parsing::{Line, read_first, read_later};
use printing::put_refusal;
use rules::{Event, Refusal, Setting};
use standing::{Match, after_move, events_shown, new_match, put_line, snakes_of};

// Prints a refusal, and the match ends there.
fn stop(m: Match, out: &mut [u8], why: Refusal) -> Turned
    requires { 462 ≤ length out.old }
    ensures { Stops m (code_of why) out.old out.new result }
{
    let text = put_refusal(out, u64::from(why.number()));
    Turned {
        more: false,
        game: m,
        words: 0,
        text,
    }
}

// Prints the line of an image, and the match goes on.
fn show(
    m: Match,
    letter: u8,
    over: bool,
    image: &[u16],
    events: [Event; 8],
    out: &mut [u8],
) -> Turned
    requires { (snakes_in image.now ≤ 8) × (462 ≤ length out.old) }
    ensures { Shows m letter over image.now events out.old out.new result }
{
    let n = word_at(image, 0) as usize;
    let text = put_line(out, letter, over, image, events, n);
    Turned {
        more: true,
        game: m,
        words: image.len(),
        text,
    }
}

// The first line's setting; m stands for the match where it is refused.
fn open(m: Match, setting: Setting, next: &mut [u16], out: &mut [u8]) -> Turned
    requires { 462 ≤ length out.old }
    ensures { Plays (seen (opened setting) (initial_says setting (length next.old))) m next.old next.new out.old out.new result }
{
    match arena::initial_state(setting, next) {
        Ok(words) => show(
            new_match(setting),
            b'i',
            false,
            &next[..words],
            no_events(),
            out,
        ),
        Err(why) => stop(m, out, why),
    }
}

fn play_draw(
    m: Match,
    image: &[u16],
    index: u64,
    next: &mut [u16],
    list: &mut [u16],
    out: &mut [u8],
) -> Turned
    requires { 462 ≤ length out.old }
    ensures { Plays (seen (drawn_turn m) (draw_says image.now index (length next.old) (length list.old))) m next.old next.new out.old out.new result }
{
    match arena::draw(image, index, next, list) {
        Ok(drawn) => show(m, b'd', false, &next[..drawn.words], no_events(), out),
        Err(why) => stop(m, out, why),
    }
}

// A move's line: its events, and the match after it.
fn show_move(m: Match, over: bool, image: &[u16], events: [Event; 8], out: &mut [u8]) -> Turned
    requires { (snakes_in image.now ≤ 8) × (462 ≤ length out.old) }
    ensures { Shows (moved m over events) 109 over image.now (events_shown m over image.now events) out.old out.new result }
{
    let game = after_move(m, over, &events);
    let shown = events_shown(m, over, image, events);
    show(game, b'm', over, image, shown, out)
}

fn play_move(m: Match, image: &[u16], acts: &[u64], next: &mut [u16], out: &mut [u8]) -> Turned
    requires { 462 ≤ length out.old }
    ensures { Plays (seen (moved_turn m) (step_says m.setting image.now acts.now (length next.old))) m next.old next.new out.old out.new result }
{
    match arena::step(m.setting, image, acts, next) {
        Ok(made) => show_move(m, made.terminal, &next[..made.words], made.events, out),
        Err(why) => stop(m, out, why),
    }
}

// A line after the first, as it was read.
fn play_entry(
    m: Match,
    line: Option<Line>,
    n: usize,
    image: &[u16],
    next: &mut [u16],
    list: &mut [u16],
    out: &mut [u8],
) -> Turned
    requires { (n ≡ snakes_of m) × (n ≤ 8) × (462 ≤ length out.old) }
    ensures { Plays (asked m image.now (length next.old) (length list.old) line) m next.old next.new out.old out.new result }
{
    match line {
        None => stop(m, out, Refusal::Line),
        Some(Line::Draw(index)) => play_draw(m, image, index, next, list, out),
        Some(Line::Move(acts)) => play_move(m, image, &acts[..n], next, out),
    }
}

// The first line of the input: the match that it begins, its image in `next`, its line in `out`.
pub fn begin(m: Match, line: &[u8], next: &mut [u16], out: &mut [u8]) -> Turned
    requires { 462 ≤ length out.old }
    ensures { Plays (begin_says line.now (length next.old)) m next.old next.new out.old out.new result }
{
    match read_first(line) {
        Some(setting) => open(m, setting, next, out),
        None => stop(m, out, Refusal::Line),
    }
}

// A line after the first, in match m with this image: the next image in `next`, the cells drawn in `list`, the line in `out`.
pub fn turn(
    m: Match,
    image: &[u16],
    line: &[u8],
    next: &mut [u16],
    list: &mut [u16],
    out: &mut [u8],
) -> Turned
    requires { 462 ≤ length out.old }
    ensures { Plays (turn_says m image.now line.now (length next.old) (length list.old)) m next.old next.new out.old out.new result }
{
    if m.over {
        return stop(m, out, Refusal::Over);
    }
    let n = snakes_of(m);
    play_entry(m, read_later(line, n), n, image, next, list, out)
}
