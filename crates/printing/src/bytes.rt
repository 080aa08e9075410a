// Bytes and numbers, put into a lent buffer one after the other. Each call answers the index after what it put.
ghost use Rattle.std.specs.Prelude.{◌≡◌, [], ◌∷◌, ◌+◌, ◌≤◌, length};
ghost use Rattle.lists.specs.Lists.{write_at};
ghost use Rattle.printing.specs.Text.{Wrote, decimal_text, digit_of, one};

pub fn write_at(out: &mut [u8], at: usize, src: &[u8])
    requires { at + length src.now ≤ length out.old }
    ensures { out.new ≡ write_at out.old at src.now }
{
    out[at..at + src.len()].copy_from_slice(src);
}

pub fn put(out: &mut [u8], at: usize, b: u8) -> usize
    requires { at + 1 ≤ length out.old }
    ensures { Wrote out.old out.new at result (b ∷ []) 1 }
{
    out[at] = b;
    at + 1
}

pub fn put_two(out: &mut [u8], at: usize, a: u8, b: u8) -> usize
    requires { at + 2 ≤ length out.old }
    ensures { Wrote out.old out.new at result (a ∷ b ∷ []) 2 }
{
    out[at] = a;
    out[at + 1] = b;
    at + 2
}

// A number in decimal.
fn put_number(out: &mut [u8], at: usize, v: u64) -> usize
    requires { at + 20 ≤ length out.old }
    ensures { Wrote out.old out.new at result (decimal_text v) 20 }
{
    let mut text = [0u8; 20];
    let k = io::decimal(v, &mut text);
    write_at(out, at, &text[..k]);
    at + k
}

// A byte, and a number after it.
pub fn put_item(out: &mut [u8], at: usize, b: u8, v: u64) -> usize
    requires { at + 21 ≤ length out.old }
    ensures { Wrote out.old out.new at result (b ∷ decimal_text v) 21 }
{
    let k = put(out, at, b);
    put_number(out, k, v)
}

pub fn put_if(out: &mut [u8], at: usize, flag: bool, b: u8) -> usize
    requires { at + 1 ≤ length out.old }
    ensures { Wrote out.old out.new at result (one flag b) 1 }
{
    if flag { put(out, at, b) } else { at }
}

pub fn digit_of(b: bool) -> u8
    ensures { result ≡ digit_of b }
{
    if b { b'1' } else { b'0' }
}
