// Which word of the contents shows a fault of an image: a search for each of 50 to 52.
#![tactic(auto)]

mod contents;

pub use contents::{contents_out, cut_short, first_record, first_start, record_out};
