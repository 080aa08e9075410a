// A board of 1,024 squares, whose stamps tell whether a number stands twice in a list. The laws of free squares live here too.
#![tactic(auto)]

mod stamps;

pub use stamps::stamps_once;
