// The tests of an image's contents: its length, the ranges, and where each part is due.
ghost use Rattle.std.specs.Prelude.{◌≡◌, ◌+◌, ◌*◌, ◌<◌, ◌≤◌, length};
ghost use Rattle.lists.specs.Below.{all_below};
ghost use Rattle.rules.specs.Image.{front, area_in, long_enough, contents_fit, record_fits, ranges_fit};
ghost use Rattle.wellformed.specs.Checked.{Long, Ranged, Adds};

use layout::{alive_at, front, heading_at, length_at, start_at};

// Whether every body starts where it is due, and where the food is due. No Option: `Adds` promises the food's place also where a start is out of line.
#[derive(Clone, Copy)]
pub struct Layout {
    pub fits: bool,
    pub food: usize,
}

pub(crate) fn long_enough(image: &[u16]) -> bool
    ensures { result ≡ long_enough image.now }
{
    5 <= image.len() && front(image[0] as usize) <= image.len()
}

pub fn contents_fit(image: &[u16]) -> bool
    requires { 5 ≤ length image.now }
    ensures { result ≡ contents_fit image.now }
{
    let n = image[0];
    let g = image[1] as usize;
    let foods = image[4] as usize;
    ((2 <= n) & (n <= 8))
        & ((1 <= g) & (g <= 32))
        & (image[2] <= 1024)
        & (image[3] <= 1)
        & (foods <= g * g)
}

pub fn record_fits(image: &[u16], area: usize, i: usize) -> bool
    requires { (i < 65536) × (8 + 4 * i < length image.now) × (area ≡ area_in image.now) }
    ensures { result ≡ record_fits image.now i }
{
    let len = image[length_at(i)] as usize;
    let alive = image[alive_at(i)];
    (len <= area) & (image[heading_at(i)] <= 3) & (alive <= 1) & ((alive != 1) | (1 <= len))
}

fn records_fit(image: &[u16], area: usize, n: usize) -> bool
    requires { (n < 65536) × (front n ≤ length image.now) × (area ≡ area_in image.now) }
    ensures { result ≡ all_below n (record_fits image.now) }
{
    let mut fit = true;
    for i in 0..n {
        fit &= record_fits(image, area, i);
    }
    fit
}

pub(crate) fn ranges_fit(image: &[u16]) -> bool
    requires { Long image.now }
    ensures { result ≡ ranges_fit image.now }
{
    let g = image[1] as usize;
    contents_fit(image) && records_fit(image, g * g, image[0] as usize)
}

// A running sum: each start is held against the lengths before it.
pub fn laid_out(image: &[u16]) -> Layout
    requires { Ranged image.now }
    ensures { Adds image.now result }
{
    let n = image[0] as usize;
    let mut due = front(n);
    let mut fits = true;
    for i in 0..n {
        fits &= image[start_at(i)] as usize == due;
        due += image[length_at(i)] as usize;
    }
    Layout { fits, food: due }
}
