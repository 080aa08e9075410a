// The state image in 16-bit words: what its parts are, and how words are written. It passes on the check of `wellformed`, what `faults` finds and the writers of `cells`.
#![tactic(auto)]

mod parts;
mod table;
mod words;

pub use cells::{count_left, put_all, write_body, write_left};
pub use faults::{check_image, fault_in};
pub use parts::{body, find_in, food_of};
use rules::Heading;
pub use table::record_at;
pub use wellformed::well_formed;
pub use words::{flag, heading_of, number_of, write_contents, write_record};

// A snake's four words, read.
#[derive(Clone, Copy)]
pub struct SnakeRecord {
    pub start: u16,
    pub len: u16,
    pub heading: Heading,
    pub alive: bool,
}
