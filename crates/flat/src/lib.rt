// What a caller's flat numbers mean, and an answer as flat numbers: what every exported call shares. A number is 64 bits wide, but for the
// bytes of an event; no number is undefined, whatever it is.
#![tactic(auto)]

mod games;
mod readings;
mod tells;

pub use games::{events_in, match_in, match_numbers};
pub use readings::{event_in, grid_in, setting_in, weights_in};
pub use tells::{bit, event_bytes, events_bytes, hits_words, refusal_number};
