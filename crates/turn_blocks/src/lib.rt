//! The statements of a turn.
//!
//! A turn of a core term is a list of acts, and a row. `specs/TurnBlocks` says which statements of a
//! loop program it becomes, on plain copies: its acts in order, what follows a test inside the branch
//! that goes on, and behind them what a terminal does with the row (`specs/Consumers`). Words stand in
//! variables; a local word that is another word, or is tested at once, takes none of its own, and an
//! update of the state is done behind the row where it may wait (`specs/WordUses`).
//!
//! The crate has definitions and laws, and no code that runs. It stands on expr_lower, whose
//! statements put expressions into variables, on stateful_core, whose acts these are, on loop_ir and
//! state_alloc; denotation_laws says that expressions without division have values, and
//! expr_constants that the value of an expression is its constant, where this is known. The law
//! `turns_are_lowered` carries the promise: the statements do what the turn does, and then with its
//! row what is done with rows; they end the run where the stream stops, and at the fault where there
//! is one. `rows_are_taken` says what printing and folding do with a row, and
//! `turns_name_declared_variables` bounds names, constants and the number of variables.
#![tactic(auto)]

mod laws;

pub use laws::{rows_are_taken, turns_are_lowered, turns_name_declared_variables};
