//! The inputs of a run are taken: from words `NAME=VALUE` for a pipeline, and from values in order for a C
//! text. A value is a number for an int, and names a file of values for an array.
//!
//! It depends on job_steps for what comes of taking inputs, on job_files for loading a file, on
//! command_words and value_files for what words and files hold, on pipe_tree for declarations, on
//! list_denotation for inputs, and on status_lines for how a run ends without them. `bound_inputs` and
//! `placed_inputs` carry the promise: what they give comes of the steps of job_steps' `specs/Inputs`, or
//! memory was refused; a status for a file comes only where the device counted a miss or a fault; and the
//! files stay as they are. `specs/Givens` says what is given for each input, and `specs/Faults` what is
//! told before any input is taken.
#![tactic(auto)]

mod binding;
mod called;
mod input;
mod inputs;

pub use inputs::{bound_inputs, placed_inputs};
