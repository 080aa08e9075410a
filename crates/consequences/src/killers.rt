// Who is credited with a death: 'An OppBody victim credits the lowest-numbered survivor whose body holds the fatal cell, if any'.
ghost use Rattle.std.specs.Prelude.{◌≡◌, ◌<◌, ◌≤◌, None};
ghost use Rattle.lists.specs.Below.{filled};
ghost use Rattle.rules.specs.Events.{by_body};
ghost use Rattle.consequences.specs.After.{killer_in, PartIn, InImage, HasCell, Holder, KilledBy, Credited};

use crate::after::After;
use crate::settled::Snakes;
use rules::Cause;

fn is_by_body(c: Option<Cause>) -> bool
    ensures { result ≡ by_body c }
{
    matches!(c, Some(Cause::OppBody))
}

// Whether snake j is a survivor whose body holds a cell; the dead are not searched.
fn has_cell(image: &[u16], j: usize, a: After, cell: u16) -> bool
    requires { PartIn image.now j a }
    ensures { HasCell image.now j a cell result }
{
    let at_head = cell == a.cell;
    if !a.lives {
        return false;
    }
    let start = image[layout::start_at(j)] as usize;
    let found = image::find_in(image, start, a.keep as usize, cell);
    at_head | found.is_some()
}

impl Snakes {
    // The lowest-numbered survivor whose body holds a cell.
    fn find_killer(&self, image: &[u16], cell: u16) -> Option<usize>
        requires { InImage image.now self.now.all self.now.count }
        ensures { Holder image.now self.now.all self.now.count cell result }
    {
        for (j, a) in self.each().iter().enumerate() {
            if has_cell(image, j, *a, cell) {
                return Some(j);
            }
        }
        None
    }

    // Whom the death of a snake is credited to.
    fn killer_of(&self, image: &[u16], i: usize) -> Option<usize>
        requires in_image { InImage image.now self.now.all self.now.count }
        requires i_bound { i < 8 }
        ensures { KilledBy image.now self.now.all self.now.count i result }
    {
        let a = self.all[i];
        if is_by_body(a.cause) {
            return self.find_killer(image, a.cell);
        }
        None
    }

    pub fn find_killers(&self, image: &[u16]) -> [Option<usize>; 8]
        requires { InImage image.now self.now.all self.now.count }
        ensures { result ≡ filled (killer_in image.now self.now.all self.now.count) self.now.count 8 None }
    {
        let mut to = [None; 8];
        for i in 0..self.count {
            to[i] = self.killer_of(image, i);
        }
        to
    }
}

pub fn is_killer(to: [Option<usize>; 8], n: usize, j: usize) -> bool
    requires { n ≤ 8 }
    ensures { Credited to n j result }
{
    to[..n].contains(&Some(j))
}
