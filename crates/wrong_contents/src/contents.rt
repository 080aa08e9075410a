// Faults of the contents: words missing, words out of range, starts out of line.
ghost use Rattle.std.specs.Prelude.{◌≡◌, ◌+◌, ◌*◌, ◌<◌, ◌≤◌, length};
ghost use Rattle.rules.specs.Image.{front, area_in, record_fits};
ghost use Rattle.rules.specs.Faults.{cut_short, contents_out, record_out, start_word};
ghost use Rattle.wellformed.specs.Checked.{FirstOut, Ranged};

use layout::{alive_at, front, heading_at, length_at, start_at};
use wellformed::record_fits;

// 50: by a number of snakes out of range no records are asked for.
pub fn cut_short(image: &[u16]) -> bool
    ensures { result ≡ cut_short image.now }
{
    if image.len() < 5 {
        return true;
    }
    let n = image[0] as usize;
    ((2 <= n) & (n <= 8)) & (image.len() < front(n))
}

// 51: of the first five words, where one is out of range.
pub fn contents_out(image: &[u16]) -> usize
    requires { 5 ≤ length image.now }
    ensures { result ≡ contents_out image.now }
{
    let n = image[0];
    if !((2 <= n) & (n <= 8)) {
        return 0;
    }
    let g = image[1];
    if !((1 <= g) & (g <= 32)) {
        return 1;
    }
    if 1024 < image[2] {
        return 2;
    }
    if 1 < image[3] {
        return 3;
    }
    4
}

// 51: of a record that does not fit.
pub fn record_out(image: &[u16], area: usize, i: usize) -> usize
    requires { (i < 65536) × (8 + 4 * i < length image.now) × (area ≡ area_in image.now) }
    ensures { result ≡ record_out image.now i }
{
    let len = image[length_at(i)] as usize;
    if (area < len) | ((image[alive_at(i)] == 1) & (len == 0)) {
        return length_at(i);
    }
    if 3 < image[heading_at(i)] {
        return heading_at(i);
    }
    alive_at(i)
}

// The first record that does not fit. No `position`: it was tried, and what its clauses say of the record before the place was not found.
pub fn first_record(image: &[u16], area: usize, n: usize) -> Option<usize>
    requires { (n < 65536) × (front n ≤ length image.now) × (area ≡ area_in image.now) }
    ensures { FirstOut n (record_fits image.now) result }
{
    for i in 0..n {
        if !record_fits(image, area, i) {
            return Some(i);
        }
    }
    None
}

// 52: the first start that is not where the part before it ends. No Option: it is asked only where there is one, and where there is none `start_word` has a value too.
pub fn first_start(image: &[u16]) -> usize
    requires { Ranged image.now }
    ensures { result ≡ start_word image.now }
{
    let n = image[0] as usize;
    let mut due = front(n);
    for i in 0..n {
        if image[start_at(i)] as usize != due {
            return start_at(i);
        }
        due += image[length_at(i)] as usize;
    }
    start_at(n)
}
