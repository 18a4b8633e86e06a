//! The kinds of expressions and rows of a pipeline text: what they stand for, or their first fault.
//!
//! It depends on kind_rules for the definitions, on pipe_tree for trees, on pipe_lexer for operators
//! and the kinds of inputs, on list_denotation for expressions, on strm_num for lists and on indexmap
//! for the names of inputs. Each call answers what kind_rules defines of the plain copies of its
//! arguments (`specs/Copies`), unless memory is refused; what it gives keeps that its numbers are
//! words.
#![tactic(auto)]

mod expressions;
mod named;
mod names;
mod openings;
mod rows;
mod scope;
mod signs;
mod typed;

pub use expressions::of_this_kind;
pub use named::array_named;
pub use names::inputs_by_name;
pub use openings::opening_of_kind;
pub use rows::{Divisions, next_state, typed_row};
pub use scope::{BoundWord, Inputs, Scope};
pub use typed::{Operands, TypedExpr, TypedRow};
