//! Observations of pipelines, computed on lists of rows.
//!
//! It depends on list_denotation, whose definitions it computes, on expr_values for expressions, on
//! pipe_limits, on strm_num for lists and on thiserror. `observe` carries the promise: it answers the observation of
//! a pipeline at a number of pulls, or that its work is above a million, which it counts while it
//! goes. Each source and stage makes a list of rows from the list before it, so no loop is run.
#![tactic(auto)]

mod fault;
mod observation;
mod rows;
mod sources;
mod stages;
mod streams;

pub use fault::ModelFault;
pub use observation::{Observation, Stop, observe};
