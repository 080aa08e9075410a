// What several calls tell: a number, how many words were written.
ghost use Rattle.telling.specs.Told.{one, Tells};

use flat::refusal_number;
use rules::Refusal;

pub fn tell_number(a: Result<u64, Refusal>, out: &mut [u64; 1]) -> u64
    ensures { Tells one a out.old out.new result }
{
    match a {
        Ok(n) => {
            *out = [n];
            0
        }
        Err(r) => refusal_number(r),
    }
}

pub fn tell_words(a: Result<usize, Refusal>, written: &mut [u64; 1]) -> u64
    ensures { Tells one a written.old written.new result }
{
    match a {
        Ok(words) => {
            *written = [words as u64];
            0
        }
        Err(why) => refusal_number(why),
    }
}
