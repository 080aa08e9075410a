// The settled snakes of a step.
ghost use Rattle.std.specs.Prelude.{◌≡◌, ◌≤◌, length, take};

use crate::after::After;

// The first `count` of eight places; the places after them are no snake's.
#[derive(Clone, Copy)]
pub struct Snakes {
    pub all: [After; 8],
    pub count: usize,
    pub ghost few: { count ≤ 8 },
}

impl Snakes {
    // The snakes, without the places after them.
    pub fn each(&self) -> &[After]
        ensures snakes { result.now ≡ take self.now.count self.now.all }
        ensures long { length result.now ≡ self.now.count }
    {
        &self.all[..self.count]
    }
}
