// Whether a lent slice is a well-formed image. The tests come in the order of the definition, so that the words
// of an overlong slice are never read: its length is tested before any cell.
ghost use Rattle.std.specs.Prelude.{◌≡◌, [], ◌∷◌};
ghost use Rattle.lists.specs.Lists.{every};
ghost use Rattle.rules.specs.Image.{starts_fit, total_fits, cells_fit, bodies_fit, food_fits};
ghost use Rattle.rules.specs.Promises.{Checks};
ghost use Rattle.wellformed.specs.Checked.{Ranged};

use crate::cells::parts_fit;
use crate::contents::{laid_out, long_enough, ranges_fit};

fn layout_fits(image: &[u16]) -> bool
    requires { Ranged image.now }
    ensures { result ≡ every (starts_fit image.now ∷ total_fits image.now ∷ cells_fit image.now ∷ bodies_fit image.now ∷ food_fits image.now ∷ []) }
{
    let found = laid_out(image);
    found.fits && found.food + image[4] as usize == image.len() && parts_fit(image, found.food)
}

pub fn well_formed(image: &[u16]) -> bool
    ensures { Checks image.now result }
{
    long_enough(image) && ranges_fit(image) && layout_fits(image)
}
