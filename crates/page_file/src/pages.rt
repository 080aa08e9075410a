// A page of the book, found by its contents and read from the file.
ghost use Rattle.std.specs.Prelude.{◌≤◌, length, IfOk};

use crate::file::read_words;
use rules::Refusal;
use std::io::{Read, Seek};

// Why a page is not loaded: the file cannot be read there, or the page is refused.
#[derive(Clone, Copy)]
pub enum NotLoaded {
    NotRead,
    Refused(Refusal),
}

// 50 to 56, 21, or accepted. Contents in which a page was found have a setting.
fn check(contents: &[u16], image: &[u16]) -> Result<(), Refusal> {
    if contents.len() < 17 {
        return Err(Refusal::Contents);
    }
    book::check_page(contents::setting_in(contents), image)
}

// How many words the page's image has, at the front of a lent buffer that holds any and a word more: what is wrong with a longer part shows in so many
// words.
pub fn load<F: Read + Seek>(
    file: &mut F,
    contents: &[u16],
    words: usize,
    page: u64,
    image: &mut [u16],
    bytes: &mut [u8],
) -> Result<usize, NotLoaded>
    ensures { IfOk result (λ n. n ≤ length image.new) }
{
    let found = contents::find(contents, words, page).map_err(NotLoaded::Refused)?;
    let held = found.len.min(image.len());
    if read_words(file, found.start, &mut image[..held], bytes).is_err() {
        return Err(NotLoaded::NotRead);
    }
    check(contents, &image[..held]).map_err(NotLoaded::Refused)?;
    Ok(held)
}

// The food of an image; empty where it is none.
pub(crate) fn food_in(image: &[u16]) -> &[u16] {
    if !image::well_formed(image) {
        return &image[0..0];
    }
    image::food_of(image)
}
