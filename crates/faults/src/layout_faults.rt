// The faults of an image whose contents are in range, in their order: 52 and 53, then 54, then 55 and 56.
ghost use Rattle.std.specs.Prelude.{◌≡◌};
ghost use Rattle.rules.specs.Image.{food_start};
ghost use Rattle.rules.specs.Promises.{Faulty};
ghost use Rattle.faults.specs.Past.{InRange, InPlace, OnGrid};

use lists::smaller;
use rules::Refusal;
use wellformed::{cells_fit, laid_out};
use wrong_cells::{first_beyond, first_fall, first_twice, twice_at};
use wrong_contents::first_start;

// 55, or 56: nothing else is left.
fn bodies_fault(image: &[u16], food: usize) -> Refusal
    requires on_grid { OnGrid image.now }
    requires food_value { food ≡ food_start image.now }
    ensures { Faulty image.now result }
{
    match first_twice(image) {
        Some(i) => Refusal::CellTwice(twice_at(image, i)),
        None => Refusal::FoodOrder(first_fall(image, food)),
    }
}

fn cells_fault(image: &[u16], food: usize) -> Refusal
    requires in_place { InPlace image.now }
    requires food_value { food ≡ food_start image.now }
    ensures { Faulty image.now result }
{
    if !cells_fit(image) {
        return Refusal::CellBeyond(first_beyond(image));
    }
    bodies_fault(image, food)
}

pub(crate) fn layout_fault(image: &[u16]) -> Refusal
    requires { InRange image.now }
    ensures { Faulty image.now result }
{
    let found = laid_out(image);
    if !found.fits {
        return Refusal::Start(first_start(image));
    }
    let total = found.food + image[4] as usize;
    if total != image.len() {
        return Refusal::Total(smaller(total, image.len()));
    }
    cells_fault(image, found.food)
}
