//! How the program ends: its statuses with their numbers, what each carries, and the line that standard
//! error gets.
//!
//! It depends on the crates whose faults statuses carry: pipe_lexer, pipe_tree, kind_rules, c_faults and
//! value_files; on strm_io for sinks, on strm_num for lists and on itoa for the digits of numbers.
//! `specs/StatusLines` has the number of each status and its line, and `specs/FaultTexts` the text of
//! each fault in it, for all programs of the repository. `report` carries the promise that the line is
//! written whole, or a prefix of it where the sink failed; `put_line` writes it behind the name of another
//! program.
#![tactic(auto)]

mod conversions;
mod places;
mod refusals;
mod reporting;
mod statuses;

pub use refusals::Refusal;
pub use reporting::{put_line, report};
pub use statuses::{InputFault, InputName, Name, Status};
