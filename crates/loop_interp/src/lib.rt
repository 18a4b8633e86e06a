//! Runs loop programs: a walk over the statements of a program.
//!
//! `exec` carries the promise: it answers how the program stands after so many turns, by loop_ir's
//! `specs/Meaning`, and the text of the events so far, by event_texts' `specs/Texts`, was appended to
//! the sink; where a write failed, a prefix of it. It asks nothing of the inputs, since the meaning of
//! a program is one on any. `room::registers` gives the room that it works in, and a run takes no
//! memory: its text is gathered in 4,096 bytes, which are put to the sink where they are full and more
//! is to come, and at the end.
//!
//! `specs/Values` and `specs/Output` say what operands give and what is put; `specs/Runs` says what a
//! part of a run does, and `specs/Answers` what a run answers. It depends on loop_ir, list_denotation
//! and event_texts for what is run and written, on strm_io for sinks, on strm_num for words and on itoa
//! for digits.
#![tactic(auto)]

mod machine;
mod operands;
mod outcome;
mod output;
pub mod room;
mod running;
mod statements;

pub use outcome::Outcome;
pub use running::exec;
