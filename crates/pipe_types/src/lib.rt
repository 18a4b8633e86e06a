//! The kinds of a pipeline text: the program that its tree stands for, or the first fault.
//!
//! It depends on kind_rules for the definitions, on pipe_kinds for expressions and rows, on pipe_tree
//! for trees, on pipe_lexer for the kinds of inputs, on list_denotation for programs, on strm_num for
//! lists and on indexmap for the names of inputs. `check` carries the promise: it answers what
//! kind_rules defines of the tree, unless memory is refused.
#![tactic(auto)]

mod checking;
mod foldings;
mod sources;
mod stages;
mod streams;
mod typed_stream;

pub use checking::check;
pub use kind_rules::TypeFault;
