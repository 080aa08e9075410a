// What the probe's calls share, and those that take no setting and no book: a call's fields read, the call made, its answer put as text.
#![tactic(auto)]

mod buffers;
mod chances;
mod fields;
mod images;
mod marks;
mod reply;
mod rewards;
mod spaces;
mod units;
mod views;
mod with_image;
mod writing;

pub use buffers::{PATTERN, book_room, kept};
pub use chances::rank;
pub use fields::Fields;
pub use marks::{put_events, put_hits};
pub use reply::{Numbers, nothing, put_reply};
pub use rewards::reward;
pub use spaces::{action_space, observation_space, turn};
pub use units::outcome_of;
pub use with_image::{image_line, image_reply};
pub use writing::{end, flush, put, put_each, put_number, put_words, put_written, refuse};
