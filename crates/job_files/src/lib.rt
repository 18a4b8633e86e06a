//! The files that a job reads: bytes, pipelines and C texts, each or the status for why there is none.
//!
//! `load_file`, `loaded_pipeline` and `loaded_c` carry the promise: what they give is what comes of the
//! step of this name by job_steps' `specs/Loads`, `specs/Pipelines` and `specs/CTexts`, or `NoMemory`.
//! `read_pipeline` is the reading of a pipeline text alone. A `Source` is a pipeline with its tree, which
//! has the names of the inputs.
//!
//! It depends on pipe_lexer, pipe_grammar and pipe_types for pipeline texts, on c_subset_reader for C
//! texts, on strm_io for files, on job_steps for the definitions, and on status_lines for statuses.
#![tactic(auto)]

mod c_texts;
mod loading;
mod pipelines;
mod source;

pub use c_texts::loaded_c;
pub use loading::load_file;
pub use pipelines::{loaded_pipeline, read_pipeline};
pub use source::Source;
