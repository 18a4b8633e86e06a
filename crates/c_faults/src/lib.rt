//! What a C text is answered with: its program, or the fault and its place.
//!
//! `specs/Answers` says which: a program where the text reads as it by c_grammar and its brackets are
//! within the limit, and else the first fault in their order, at its place. It depends on c_grammar, on
//! c_tokens, on pipe_limits for the limit, on exact_reader for where tokens stop to begin a program, on
//! loop_ir, list_denotation, strm_num and thiserror. The laws say that a text has one answer at most,
//! unless memory is refused, that the names among the tokens of a program are declared exactly if those
//! in its statements are, and that its constants are words, its parameters few, and its variables not
//! more than the bytes of its text.
#![tactic(auto)]

mod fault;
mod laws;

pub use fault::CFault;
pub use laws::{
    declared_tokens_are_declared_names, programs_have_few_params,
    programs_of_texts_have_few_variables, programs_of_texts_have_words, texts_have_one_answer,
};
