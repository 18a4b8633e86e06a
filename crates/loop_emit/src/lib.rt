//! From core terms to loop programs.
//!
//! It depends on zip_linearise, whose machines it compiles; on turn_blocks, word_uses, row_emit and
//! turn_emit, the statements of a turn; on expr_lower and expr_phrases, those of expressions; on
//! state_alloc, the variables of words; and on stateful_core, denotation_laws, loop_ir and
//! list_denotation. A machine becomes one loop: its state, and what the terminal holds, stand in
//! variables that are set before the loop; each turn of the loop is one turn of the machine, and
//! prints its row or folds it.
//! `specs/Emission` is the program of a machine, on plain copies. `emit` carries the promise,
//! `specs/Headline`: run n turns, the program goes no further than the pipeline's lists at n pulls,
//! and run as many turns as the lists' work, it goes as far as they do; it has few variables, and the
//! pipeline's inputs as its parameters. What is asked of the core term stands in
//! `specs/CoreCondition`.
#![tactic(auto)]

mod emission;
mod laws;
mod loop_guard;
mod loops;
mod openings;
mod terminals;

pub use emission::emit;
