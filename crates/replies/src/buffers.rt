// Lent buffers: made of a pattern before a call, looked through after it. No image has the word 42,406 (a book may, in a limit or a start), no plane 0.5.

// Of two different bytes: an array of one byte is made by a call, which costs much under an emulator.
pub const PATTERN: u16 = 42406;

// The most words of a book. Its own function makes so long a buffer, since whoever takes it then knows its length alone, which is soon proved;
// a shorter one is made where it is used, which spares a copy.
pub fn book_room() -> [u16; 262144] {
    [PATTERN; 262144]
}

// Whether each word from there on is as it was made. All are read, since without an exit the loop runs on vectors, and none is ever changed.
pub fn kept(words: &[u16], from: usize) -> bool {
    match words.get(from..) {
        Some(rest) => rest
            .iter()
            .fold(true, |same, word| same & (*word == PATTERN)),
        None => true,
    }
}

pub fn planes_kept(planes: &[f32], from: usize) -> bool {
    match planes.get(from..) {
        Some(rest) => rest.iter().fold(true, |same, light| same & (*light == 0.5)),
        None => true,
    }
}
