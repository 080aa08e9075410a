// Which slices are well-formed images. The tests that the search for a fault asks too are handed on.
#![tactic(auto)]

mod cells;
mod check;
mod contents;

pub use cells::{body_once, cells_fit};
pub use check::well_formed;
pub use contents::{Layout, contents_fit, laid_out, record_fits};
