// The parts of calls, read from a line's fields: numbers, words and events.
ghost use Rattle.std.specs.Prelude.{◌≤◌, length};

use events::cause_in;
use parsing::next_number;
use rules::{DeathCause, Event};

// The fields of a call: the next one starts at that byte, a byte past the line where the last was read.
#[derive(Clone, Copy)]
pub struct Fields<'a> {
    pub line: &'a [u8],
    pub at: usize,
}

impl<'a> Fields<'a> {
    pub fn of(line: &'a [u8]) -> Fields<'a> {
        Fields { line, at: 0 }
    }

    // Whether the last field was read.
    pub fn ended(&self) -> bool {
        self.at == self.line.len() + 1
    }

    // The next field; none where it is no number, or there is none left.
    fn number(&mut self) -> Option<u64> {
        if self.line.len() < self.at {
            return None;
        }
        let got = next_number(self.line, self.at);
        self.at = got.next;
        got.num
    }

    // A number for each value.
    pub fn numbers(&mut self, values: &mut [u64]) -> Option<()> {
        for value in values {
            *value = self.number()?;
        }
        Some(())
    }

    // The same as the line's last fields.
    pub fn last_numbers(&mut self, values: &mut [u64]) -> Option<()> {
        self.numbers(values)?;
        self.ended().then_some(())
    }

    // The same for words, straight into the room, since a book's may be many.
    fn each_word(&mut self, words: &mut [u16]) -> Option<()> {
        for word in words {
            *word = u16::try_from(self.number()?).ok()?;
        }
        Some(())
    }

    // W: a count, and so many words; none where there are no such words, or more than the room. How many.
    pub fn words(&mut self, words: &mut [u16]) -> Option<usize> {
        let count = self.number()?;
        if (words.len() as u64) < count {
            return None;
        }
        self.each_word(&mut words[..count as usize])?;
        Some(count as usize)
    }

    // W as the line's last part, of at most so many words. None where there are no such words, or something follows them.
    pub fn last_words<'w>(&mut self, most: usize, words: &'w mut [u16]) -> Option<&'w [u16]> {
        let count = self.words(words)?;
        if !self.ended() || most < count {
            return None;
        }
        words.get(..count)
    }
}

// E: eight numbers, the third a cause and the rest flags.
pub fn is_event(e: &[u64]) -> bool {
    if e.len() != 8 {
        return false;
    }
    let early = (e[0] <= 1) & (e[1] <= 1) & (e[3] <= 1);
    let late = (e[4] <= 1) & (e[5] <= 1) & (e[6] <= 1) & (e[7] <= 1);
    (e[2] <= 4) & early & late
}

pub fn event_of(e: &[u64]) -> Event
    requires { 8 ≤ length e.now }
{
    Event {
        ate_food: e[0] == 1,
        died: e[1] == 1,
        death_cause: DeathCause::new(cause_in((e[2] % 65536) as u16)),
        killed_opponent: e[3] == 1,
        won: e[4] == 1,
        lost: e[5] == 1,
        drew: e[6] == 1,
        survived_to_max_ticks: e[7] == 1,
    }
}
