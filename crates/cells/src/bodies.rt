// How a body is written: a part of an image, with or without a new head.
ghost use Rattle.std.specs.Prelude.{◌+◌, ◌≤◌, length};
ghost use Rattle.lists.specs.Written.{Written};
ghost use Rattle.cells.specs.Writers.{new_head, body_with};

// The head, where it lives. The index after it.
fn write_head(out: &mut [u16], at: usize, head: u16, lives: bool) -> usize
    requires { at + length (new_head head lives) ≤ length out.old }
    ensures { Written out.old at (new_head head lives) out.new result }
{
    if lives {
        out[at] = head;
        return at + 1;
    }
    at
}

// The head, where it lives, and the part of `len` words from `start` on. The index after them.
pub fn write_body(
    out: &mut [u16],
    at: usize,
    image: &[u16],
    start: usize,
    len: usize,
    head: u16,
    lives: bool,
) -> usize
    requires { (at + length (body_with image.now start len head lives) ≤ length out.old) × (start + len ≤ length image.now) }
    ensures { Written out.old at (body_with image.now start len head lives) out.new result }
{
    let rest = write_head(out, at, head, lives);
    lists::write_at(out, rest, &image[start..start + len]);
    rest + len
}
