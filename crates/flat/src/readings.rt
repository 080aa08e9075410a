// What a caller's numbers mean: settings, weights, events.
ghost use Rattle.std.specs.Prelude.{◌≡◌};
ghost use Rattle.flat.specs.Flat.{limit_in, grid_in, setting_in, weights_in, event_in};

use events::cause_in;
use rules::{DeathCause, Event, Setting, Weights};

fn limit_in(set: u64, number: u64) -> Option<u64>
    ensures { result ≡ limit_in set number }
{
    if set == 0 { None } else { Some(number) }
}

// What no 32 bits hold is above every grid.
pub fn grid_in(number: u64) -> i32
    ensures { result ≡ grid_in number }
{
    if number < 2147483648 {
        return number as i32;
    }
    if number < 18446744071562067968 {
        return 2147483647;
    }
    let low = (18446744073709551615 - number) as i32;
    -1 - low
}

// num_snakes, grid_size, initial_length, play_to_last, win_food_lead_set, win_food_lead, initial_food_count, max_ticks_set, max_ticks.
pub fn setting_in(s: &[u64; 9]) -> Setting
    ensures { result ≡ setting_in s.now }
{
    Setting {
        num_snakes: s[0],
        grid_size: grid_in(s[1]),
        initial_length: s[2],
        play_to_last: s[3] != 0,
        win_food_lead: limit_in(s[4], s[5]),
        initial_food_count: s[6],
        max_ticks: limit_in(s[7], s[8]),
    }
}

// step, food, loss, draw, kill, win, survival.
pub fn weights_in(w: &[f64; 7]) -> Weights
    ensures { result ≡ weights_in w.now }
{
    Weights {
        step: w[0],
        food: w[1],
        loss: w[2],
        draw: w[3],
        kill: w[4],
        win: w[5],
        survival: w[6],
    }
}

// ate_food, died, death_cause, killed_opponent, won, lost, drew, survived_to_max_ticks.
pub fn event_in(e: &[u8; 8]) -> Event
    ensures { result ≡ event_in e.now }
{
    Event {
        ate_food: e[0] != 0,
        died: e[1] != 0,
        death_cause: DeathCause::new(cause_in(e[2] as u16)),
        killed_opponent: e[3] != 0,
        won: e[4] != 0,
        lost: e[5] != 0,
        drew: e[6] != 0,
        survived_to_max_ticks: e[7] != 0,
    }
}
