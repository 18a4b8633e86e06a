//! The reader of pipeline texts as a definition, and the laws that it is exact.
//!
//! `specs/Machine` reads expressions and `specs/Continuations` whole texts, a step over one token each.
//! The laws of `laws.rt` are of definitions alone: the reader of texts is exact, a sentence has one
//! tree, and any tokens have one answer. The code of pipe_expressions and pipe_grammar does what these
//! definitions say. It depends on pipe_tree for the grammar, on exact_reader for what exactness is, on
//! pipe_lexer for tokens and on pipe_limits.
#![tactic(auto)]

mod forms;
mod infix_op;
mod laws;
mod roles;
mod separator;

pub use forms::{SourceForm, StageForm, TerminalForm};
pub use infix_op::InfixOp;
pub use laws::{
    answers_are_one, sentences_have_one_tree, texts_are_read_exactly, tokens_have_an_answer,
};
pub use roles::{Follow, Mark};
pub use separator::Separator;
