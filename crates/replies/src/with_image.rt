// The calls that end in an image: numbers first, then its words.
ghost use Rattle.std.specs.Prelude.{◌≤◌, IfSome};

use crate::fields::Fields;
use crate::reply::{Numbers, nothing, number};
use crate::{chances, images, views};
use rules::Refusal;

// The numbers before the words, and these.
#[derive(Clone, Copy)]
struct Call<'a> {
    values: [u64; 9],
    image: &'a [u16],
}

// How many numbers stand before a call's words; none for a letter that has none.
fn numbers_before(letter: u8) -> Option<usize>
    ensures { IfSome result (λ k. k ≤ 9) }
{
    match letter {
        b'c' | b't' | b'z' | b'x' => Some(0),
        b'b' | b'l' => Some(1),
        b'o' => Some(2),
        b'd' => Some(3),
        b'u' => Some(9),
        _ => None,
    }
}

fn call_in<'a>(letter: u8, s: &[u8], words: &'a mut [u16]) -> Option<Call<'a>> {
    let mut values = [0u64; 9];
    let mut fields = Fields::of(s);
    let k = numbers_before(letter)?;
    fields.numbers(&mut values[..k])?;
    let image = fields.last_words(16384, words)?;
    Some(Call { values, image })
}

// The calls that say few numbers.
pub fn image_reply(letter: u8, s: &[u8], words: &mut [u16]) -> Option<Result<Numbers, Refusal>> {
    let Call { values, image } = call_in(letter, s, words)?;
    match letter {
        b'c' => Some(arena::count(image).map(number)),
        b't' => Some(arena::actor(image).map(views::actor_number)),
        b'z' => Some(arena::length_cell(image).map(views::key_numbers)),
        b'x' => Some(arena::check_image(image).map(nothing)),
        b'l' => Some(arena::legal_actions(image, values[0]).map(views::legal_numbers)),
        b'u' => views::truncation(values, image),
        _ => None,
    }
}

// The others: the draw, the observation and the body.
pub fn image_line(
    letter: u8,
    s: &[u8],
    words: &mut [u16],
    text: &mut [u8],
    at: usize,
) -> Option<usize> {
    let Call { values, image } = call_in(letter, s, words)?;
    match letter {
        b'd' => chances::draw_line(values, image, text, at),
        b'o' => views::observe_line(values, image, text, at),
        _ => Some(images::body_line(values[0], image, text, at)),
    }
}
