//! Loop programs without dead code.
//!
//! It depends on loop_ir, whose programs it goes through.
#![tactic(auto)]

mod cleaning;
mod first_zeros;
mod laws;
mod live;
mod needs;
mod reached;
mod renumbering;
mod statements;

pub use cleaning::without_dead_code;
pub use laws::{dead_code_does_nothing, live_programs_are_no_larger};
