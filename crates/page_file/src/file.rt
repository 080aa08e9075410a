// A file of words, two bytes each, low one first.
ghost use Rattle.std.specs.Prelude.{◌*◌, ◌≤◌, length};

use std::io::{ErrorKind, Read, Result, Seek, SeekFrom};

fn join(bytes: &[u8], words: &mut [u16])
    requires { 2 * length words.old ≤ length bytes.now }
{
    for (i, word) in words.iter_mut().enumerate() {
        *word = u16::from_le_bytes([bytes[2 * i], bytes[2 * i + 1]]);
    }
}

// The words from `from` on, as many as are lent, unless the file has fewer. The bytes are lent to hold them. A book's words are numbered below 2^32.
pub fn read_words<F: Read + Seek>(
    file: &mut F,
    from: usize,
    words: &mut [u16],
    bytes: &mut [u8],
) -> Result<()> {
    let n = words.len();
    if bytes.len() / 2 < n || 4294967295 < from {
        return Err(ErrorKind::InvalidInput.into());
    }
    file.seek(SeekFrom::Start(2 * from as u64))?;
    file.read_exact(&mut bytes[..2 * n])?;
    join(bytes, words);
    Ok(())
}

// One word; 0 where the file has none there.
pub(crate) fn word_in<F: Read + Seek>(file: &mut F, at: usize) -> u16 {
    let mut word = [0u16; 1];
    let mut bytes = [0u8; 2];
    match read_words(file, at, &mut word, &mut bytes) {
        Ok(()) => word[0],
        Err(_) => 0,
    }
}
