//! The words that the program is called with, and the command that they are.
//!
//! It depends on value_files for numbers and on strm_num. `specs/Commands` says which words are which
//! command, and `specs/Bindings` what a word `NAME=VALUE` binds. `read_words` carries the promise: it
//! gives the job of the words exactly where they are a command.
#![tactic(auto)]

mod bindings;
mod jobs;
mod reading;

pub use bindings::{is_binding, name_in, value_in};
pub use jobs::{DEFAULT_TURNS, Job, MOST_BENCH_ITEMS};
pub use reading::read_words;
