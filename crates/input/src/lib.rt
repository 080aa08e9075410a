// Standard input for a program that goes over it more than once: as a file where it is one that can seek, else read whole first.
#![tactic(auto)]

ghost use Rattle.std.specs.Prelude.{◌≡◌, IfOk, IfSome};
ghost use Rattle.std.specs.Io.Cursor.{cursor_position, cursor_inner};

use std::alloc::Allocator;
use std::fs::File;
use std::io::{Cursor, Read, Result, Seek};

// Standard input as a file of its own, where it has a name and can seek. No clause can say what the system hands out.
pub fn open(rt: &HostRuntime) -> Result<File> {
    let mut file = File::open(rt, "/dev/stdin")?;
    file.rewind()?;
    Ok(file)
}

// All that is left to read, from its front.
pub fn read_all<A: Allocator, R: Read>(alloc: A, reader: &mut R) -> Result<Cursor<Vec<u8, A>>>
    ensures front { IfOk result (λ all. cursor_position all ≡ 0) }
    ensures bytes { IfOk result (λ all. IfSome (R.remaining reader.old) (λ xs. (cursor_inner all).items ≡ xs)) }
{
    let mut all = Vec::new(alloc);
    reader.read_to_end(&mut all)?;
    Ok(Cursor::new(all))
}

#[cfg(test)]
mod tests {
    use super::*;

    // No clause says that there is memory for it.
    #[test]
    fn reads_all(rt: HostRuntime) -> Result<()> {
        let mut source = Cursor::new(b"a match\n".as_slice());
        source.set_position(2);
        let all = read_all(rt.alloc(), &mut source)?;
        assert_eq!(rt; all.position(), 0);
        assert_eq!(rt; all.get_ref().as_slice(), b"match\n".as_slice());
        Ok(())
    }
}
