//! Expressions and acts whose words have other numbers, over a state with other words.
//!
//! It depends on stateful_core, whose acts it moves, and on list_denotation. `specs/Renumbering`
//! gives the words that expressions and acts read other numbers, and what acts write another place;
//! `specs/WordRoom` says which words have a number of 32 bits where there is room for more;
//! `specs/Flags` has the acts that set a flag and end the turn, and `specs/Halts` what a StopUnless
//! becomes. `renumber`, `renumber_row` and `push_moved` make what these say, and `push_skip` and
//! `push_close` the acts of the flag. What moved acts do, that they are sound still, and that they
//! have no more words stands in `proofs/`, for the crates that make machines of machines.
#![tactic(auto)]

mod flags;
mod renumbering;

pub use flags::{push_close, push_flag, push_skip};
pub use renumbering::{Halt, Room, push_moved, renumber, renumber_row};
