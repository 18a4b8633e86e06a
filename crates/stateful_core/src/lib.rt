//! Core terms: streams as states, guards and acts, between the lists and the loops.
//!
//! It depends on list_denotation, and on denotation_laws for what is known of values and rows,
//! beside pipe_limits and strm_num. A core term says how rows are made turn by turn. Its rows, its
//! work, the test of well-formed terms and the bound on its words stand in `specs/`, on plain
//! copies of the terms, and so does the core of a stream. `core_of` carries the promise: the core
//! of a program is well formed, names its inputs alone, has the lists of its stream at each input
//! that fits and each bound, with their work, and few words.
#![tactic(auto)]

mod acts;
mod core_term;
mod laws;
mod program_core;
mod stream_core;

pub use acts::{push_lets, push_set};
pub use core_term::{Act, Acts, Core};
pub use laws::{core_rows_have_their_width, exact_acts_skip_no_turn};
pub use program_core::core_of;
