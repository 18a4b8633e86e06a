//! The pipeline that a bench runs, the items that it runs on, and what the pipeline's lists are then.
//!
//! It depends on list_denotation for pipelines and their meaning, on pipe_limits, and on strm_num for
//! words. `specs/Generator` defines the items of a seed, `specs/Texts` the pipeline's text, and
//! `specs/Pipelines` the pipeline that bench_reading shows this text to be. `bench_values` carries the
//! promise that it gives these items. The laws say that the pipeline's lists come to an end on them, with
//! one row of two words, and how much work they are.
#![tactic(auto)]

mod laws;
mod text;
mod values;

pub use laws::{bench_inputs_fit, bench_is_little_work, bench_shows_one_row};
pub use text::bench_text;
pub use values::bench_values;
