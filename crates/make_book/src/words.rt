// Words as a book's file has them: two bytes each, low one first.
ghost use Rattle.std.specs.Prelude.{◌*◌, ◌≤◌, length};

// Standard output, as `io` numbers it.
const STDOUT: i32 = 1;

fn spell(words: &[u16], bytes: &mut [u8])
    requires { 2 * length words.now ≤ length bytes.old }
{
    for (i, word) in words.iter().enumerate() {
        bytes[2 * i..2 * i + 2].copy_from_slice(&word.to_le_bytes());
    }
}

// Whether all of them could be written.
pub(crate) fn put_words(words: &[u16], bytes: &mut [u8]) -> bool {
    let n = words.len();
    if bytes.len() / 2 < n {
        return false;
    }
    spell(words, bytes);
    io::write_all(STDOUT, &bytes[..2 * n])
}
