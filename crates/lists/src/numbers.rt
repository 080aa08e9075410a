// Small arithmetic: a number more where a flag is set, the smaller of two numbers, a product of falling factors.
ghost use Rattle.std.specs.Prelude.{◌≡◌, ◌+◌, ◌<◌, ◌≤◌, min};
ghost use Rattle.lists.specs.Choice.{bit};
ghost use Rattle.lists.specs.Products.{falling, fitted};

// One more where the flag is set.
pub fn more_if(k: usize, b: bool) -> usize
    requires { k < 18446744073709551615 }
    ensures { result ≡ k + bit b }
{
    k + usize::from(b)
}

pub fn smaller(a: usize, b: usize) -> usize
    ensures { result ≡ min a b }
{
    a.min(b)
}

// The product of k factors from n downward, or none where it is above 2^64 - 1.
pub fn product(n: usize, k: usize) -> Option<u64>
    requires { k ≤ n }
    ensures { result ≡ fitted (falling n k) }
{
    let mut p: u64 = 1;
    for j in 0..k {
        p = p.checked_mul((n - j) as u64)?;
    }
    Some(p)
}
