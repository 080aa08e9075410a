// The text of the programs, written: bytes and numbers put into a lent buffer, and the parts of an output line.
#![tactic(auto)]

mod bytes;
mod letters;

pub use bytes::{put, put_item, write_at};
pub use letters::{put_body, put_events, put_head, put_placings, put_refusal};
