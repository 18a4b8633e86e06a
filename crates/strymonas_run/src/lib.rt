//! The program as a library: words go in, files are read, and a text and a line come out.
//!
//! `run_words` carries the promise, by job_steps' definitions: `Prepares` of its `specs/Jobs` says what
//! comes of the words over a store of files, work or the status of the first step that fails; `Ends` of its
//! `specs/Works` with which status and text work ends. What was written is the whole of such a text, or a
//! prefix of it where the device failed, and the status is the one that comes of the words, unless memory
//! was refused or a device failed.
//!
//! It depends on command_words for words, on job_files and job_inputs for the files and the inputs that
//! steps read, on job_work for the work, on job_steps for the definitions, and on status_lines for the
//! statuses and the line of each.
#![tactic(auto)]

mod jobs;
mod running;

pub use bench_pipeline::bench_values;
pub use command_words::{Job, read_words};
pub use running::run_words;
pub use status_lines::{InputFault, InputName, Refusal, Status};
