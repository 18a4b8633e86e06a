//! The work of each command: what is done when all is read that it needs.
//!
//! `count`, `compile`, `execute`, `show` and `bench` carry the promise: the work ends as `Ends` of job_steps'
//! `specs/Works` says, and its text is written, or a prefix of it where the device failed; or memory was
//! refused, and nothing is written. `Does` of `specs/Working` is that promise. All memory is taken before
//! the first byte is written.
//!
//! `src/passes` is the way from a pipeline to its loops and to their C text: it depends on stateful_core, loop_emit
//! and c_printer for these, on loop_interp for running these, on list_model for computing lists, on count_lines and event_texts
//! for what is written, on bench_pipeline and bench_reading for the bench, and on job_steps and status_lines
//! for the definitions and the statuses.
#![tactic(auto)]

mod benching;
mod passes;
mod working;

pub use benching::bench;
pub use working::{Way, compile, count, execute, show};
