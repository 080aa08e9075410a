// A setting's words in a book's contents, both ways. No other file names a setting's fields.
ghost use Rattle.std.specs.Prelude.{◌≡◌, ◌+◌, ◌<◌, ◌≤◌, length};
ghost use Rattle.book_words.specs.Settings.{limit_at, setting_in};
ghost use Rattle.book_words.specs.Written.{Five, Wordy, Fronted};

use crate::words::{four, word};
use rules::Setting;

fn limit_at(contents: &[u16], k: usize) -> Option<u64>
    requires { 4 + k < length contents.now }
    ensures { result ≡ limit_at contents.now k }
{
    (word(contents, k) == 1).then_some(four(contents, 1 + k))
}

// Words 1 to 15.
pub fn setting_in(contents: &[u16]) -> Setting
    requires { 17 ≤ length contents.now }
    ensures { result ≡ setting_in contents.now }
{
    Setting {
        num_snakes: word(contents, 1) as u64,
        grid_size: i32::from(contents[2]),
        initial_length: word(contents, 3) as u64,
        play_to_last: word(contents, 4) == 1,
        win_food_lead: limit_at(contents, 5),
        initial_food_count: word(contents, 10) as u64,
        max_ticks: limit_at(contents, 11),
    }
}

// ---- words written

// A flag and four words lowest first.
fn limit_words(limit: Option<u64>) -> [u16; 5]
    ensures { Five limit result }
{
    let k = limit.unwrap_or(0);
    let low = k % 4294967296;
    let high = k / 4294967296;
    [
        image::flag(limit.is_some()),
        (low % 65536) as u16,
        (low / 65536) as u16,
        (high % 65536) as u16,
        (high / 65536) as u16,
    ]
}

// The word 1, the setting's words, the number of pages.
pub fn write_front(setting: Setting, p: usize, out: &mut [u16])
    requires wordy { Wordy setting }
    requires p_bound { (p < 65536) × (17 ≤ length out.old) }
    ensures { Fronted setting p out.old out.new }
{
    let lead = limit_words(setting.win_food_lead);
    let ticks = limit_words(setting.max_ticks);
    let words = [
        1,
        setting.num_snakes as u16,
        setting.grid_size as u16,
        setting.initial_length as u16,
        image::flag(setting.play_to_last),
        lead[0],
        lead[1],
        lead[2],
        lead[3],
        lead[4],
        setting.initial_food_count as u16,
        ticks[0],
        ticks[1],
        ticks[2],
        ticks[3],
        ticks[4],
        p as u16,
    ];
    lists::write_at(out, 0, &words);
}
