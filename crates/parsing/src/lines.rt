// A line of the input, read: the first, a draw, a move, or unreadable.
ghost use Rattle.std.specs.Prelude.{◌≡◌, ◌+◌, ◌≤◌, length};
ghost use Rattle.parsing.specs.Fields.{fields_of};
ghost use Rattle.parsing.specs.Lines.{setting_in, read_first, draw_in, actions_in, move_in, line_in, read_later, Gets};

use crate::fields::{
    bound_at, field_count, flag_at, grid_at, next_start, number_at, piece_end, word_is,
};
use crate::numbers::decimal;
use crate::{Got, Line};
use rules::Setting;

// The setting, where all seven fields are readable.
fn setting_in(s: &[u8]) -> Option<Setting>
    ensures { result ≡ setting_in (fields_of s.now) }
{
    Some(Setting {
        num_snakes: number_at(s, 0)?,
        grid_size: grid_at(s, 1)?,
        initial_length: number_at(s, 2)?,
        play_to_last: flag_at(s, 3)?,
        win_food_lead: bound_at(s, 4)?,
        initial_food_count: number_at(s, 5)?,
        max_ticks: bound_at(s, 6)?,
    })
}

// The first line: a setting, or unreadable.
pub fn read_first(s: &[u8]) -> Option<Setting>
    ensures { result ≡ read_first s.now }
{
    if 200 < s.len() {
        None
    } else if field_count(s) == 7 {
        setting_in(s)
    } else {
        None
    }
}

fn draw_in(s: &[u8]) -> Option<Line>
    ensures { result ≡ draw_in (fields_of s.now) }
{
    if field_count(s) == 2 {
        Some(Line::Draw(number_at(s, 1)?))
    } else {
        None
    }
}

// The number of the field that starts at `at`, and the start of the next.
pub fn next_number(s: &[u8], at: usize) -> Got
    requires { at ≤ length s.now + 1 }
    ensures { Gets s.now at result }
{
    if s.len() < at {
        return Got {
            num: None,
            next: at,
        };
    }
    let end = piece_end(s, at, b' ');
    let num = decimal(&s[at..end]);
    Got { num, next: end + 1 }
}

// n actions, in the fields after the letter, in one pass.
fn actions_in(s: &[u8], n: usize) -> Option<Line>
    requires { n ≤ 8 }
    ensures { result ≡ actions_in n (fields_of s.now) }
{
    let mut acts = [0u64; 8];
    let mut at = next_start(s, 0);
    for k in 0..n {
        let got = next_number(s, at);
        acts[k] = got.num?;
        at = got.next;
    }
    Some(Line::Move(acts))
}

fn move_in(s: &[u8], n: usize) -> Option<Line>
    requires { n ≤ 8 }
    ensures { result ≡ move_in n (fields_of s.now) }
{
    if field_count(s) == n + 1 {
        actions_in(s, n)
    } else {
        None
    }
}

fn line_in(s: &[u8], n: usize) -> Option<Line>
    requires { n ≤ 8 }
    ensures { result ≡ line_in n (fields_of s.now) }
{
    if word_is(b'd', s, 0) {
        draw_in(s)
    } else if word_is(b'm', s, 0) {
        move_in(s, n)
    } else {
        None
    }
}

// A line after the first, in a match of n snakes.
pub fn read_later(s: &[u8], n: usize) -> Option<Line>
    requires { n ≤ 8 }
    ensures { result ≡ read_later n s.now }
{
    if 200 < s.len() { None } else { line_in(s, n) }
}
