// Numbers of a line, read from a slice of bytes.
ghost use Rattle.std.specs.Prelude.{◌≡◌};
ghost use Rattle.parsing.specs.Numbers.{is_digit, unpadded, digits_fit, read_on, number_by, decimal_of, grid_of, grid_above, grid_below, bound_of, bound_by, flag_by, is_byte};

fn is_digit(b: u8) -> bool
    ensures { result ≡ is_digit b }
{
    (b'0' <= b) & (b <= b'9')
}

// At least one byte, and no zero before another.
fn is_unpadded(s: &[u8]) -> bool
    ensures { result ≡ unpadded s.now }
{
    match s {
        [] => false,
        [_] => true,
        [first, ..] => *first != b'0',
    }
}

// The number that the digits say; none where a byte is no digit, or at 2^64 and above.
fn digits(s: &[u8]) -> Option<u64>
    ensures { result ≡ number_by (digits_fit s.now) (read_on 0 s.now) }
{
    let mut v: u64 = 0;
    for b in s {
        if !is_digit(*b) {
            return None;
        }
        let d = u64::from(*b - b'0');
        if (u64::MAX - d) / 10 < v {
            return None;
        }
        v = v * 10 + d;
    }
    Some(v)
}

// Decimal without leading zeros, below 2^64.
pub fn decimal(s: &[u8]) -> Option<u64>
    ensures { result ≡ decimal_of s.now }
{
    if is_unpadded(s) { digits(s) } else { None }
}

// A grid that has a minus sign: nonzero, down to -2^31.
fn grid_below(n: Option<u64>) -> Option<i32>
    ensures { result ≡ grid_below n }
{
    match n {
        Some(v) if 0 < v && v <= 2147483648 => Some(-1 - (v - 1) as i32),
        _ => None,
    }
}

// A grid that has none: up to 2^31 - 1.
fn grid_above(n: Option<u64>) -> Option<i32>
    ensures { result ≡ grid_above n }
{
    match n {
        Some(v) if v < 2147483648 => Some(v as i32),
        _ => None,
    }
}

pub fn grid_in(s: &[u8]) -> Option<i32>
    ensures { result ≡ grid_of s.now }
{
    if s.len() == 0 {
        return grid_above(decimal(s));
    }
    if s[0] == b'-' {
        return grid_below(decimal(&s[1..]));
    }
    grid_above(decimal(s))
}

// Whether the bytes are this one alone.
pub fn is_byte(b: u8, s: &[u8]) -> bool
    ensures { result ≡ is_byte b s.now }
{
    matches!(s, [x] if *x == b)
}

fn bound_by(n: Option<u64>) -> Option<Option<u64>>
    ensures { result ≡ bound_by n }
{
    match n {
        None => None,
        Some(v) => Some(Some(v)),
    }
}

// A number, or `-` for none.
pub fn bound_in(s: &[u8]) -> Option<Option<u64>>
    ensures { result ≡ bound_of s.now }
{
    if is_byte(b'-', s) {
        Some(None)
    } else {
        bound_by(decimal(s))
    }
}

// 0 or 1.
pub fn flag_by(n: Option<u64>) -> Option<bool>
    ensures { result ≡ flag_by n }
{
    match n {
        Some(0) => Some(false),
        Some(1) => Some(true),
        _ => None,
    }
}
