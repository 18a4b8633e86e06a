//! The rules of kinds: which program a pipeline text stands for, and which fault comes first.
//!
//! It depends on pipe_tree for trees, on pipe_lexer for operators and the kinds of inputs, on
//! list_denotation for programs, on strm_num and on thiserror. It has no checker: `specs/StandsFor`
//! says by cases which program a tree stands for, `specs/FirstFault` which fault a tree has first,
//! and `specs/Checking` is both as one function. The laws in `laws.rt` tie the three together, and
//! say that a program of a tree within the limits is typed. pipe_kinds and pipe_types check trees
//! against these.
#![tactic(auto)]

mod fault;
mod laws;
mod meaning;

pub use fault::TypeFault;
pub use laws::{
    faults_are_first, programs_of_trees_are_typed, trees_have_an_answer,
    typed_trees_stand_for_programs,
};
pub use meaning::Meaning;
