// What is wrong with an image, and where: the first of the seven faults, 50 to 56, and the first word that shows it. It is looked for only where the
// check has failed, so that a well-formed image costs the check alone.
#![tactic(auto)]

mod layout_faults;

ghost use Rattle.rules.specs.Promises.{Examines, Faulty};
ghost use Rattle.faults.specs.Past.{Counted};

use layout_faults::layout_fault;
use rules::Refusal;
use wellformed::contents_fit;
use wrong_contents::{contents_out, cut_short, first_record, record_out};

// 51 of the records, and what comes after it.
fn records_fault(image: &[u16]) -> Refusal
    requires { Counted image.now }
    ensures { Faulty image.now result }
{
    let n = image[0] as usize;
    let g = image[1] as usize;
    match first_record(image, g * g, n) {
        Some(i) => Refusal::OutOfRange(record_out(image, g * g, i)),
        None => layout_fault(image),
    }
}

// The fault of an image that is not well-formed.
pub fn fault_in(image: &[u16]) -> Refusal
    ensures { Faulty image.now result }
{
    if cut_short(image) {
        return Refusal::CutShort(image.len());
    }
    if !contents_fit(image) {
        return Refusal::OutOfRange(contents_out(image));
    }
    records_fault(image)
}

// The check of an image: accepted, or what is wrong with it.
pub fn check_image(image: &[u16]) -> Result<(), Refusal>
    ensures { Examines image.now result }
{
    if wellformed::well_formed(image) {
        return Ok(());
    }
    Err(fault_in(image))
}
