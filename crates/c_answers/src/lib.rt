//! Each C text has an answer: it has one refusal, or none.
//!
//! c_faults says what a C text is answered with, its program or its first fault, and that this is one
//! alone. A law here says that there is one for each text, whatever its bytes, with no refusal of
//! memory: the line of the header stands there or doesn't, the text is cut to its end or stops, its
//! brackets are within the limit or aren't, its tokens are a program or stop, and its names are all
//! declared or one isn't. `specs/Refusals` says why a text is refused; by the other laws each text has a
//! refusal or none, it has one of these alone, and it has none exactly where it reads as a program and
//! its brackets are within the limit. It depends on the laws of c_automaton and c_faults, on c_words, c_tokens
//! and c_grammar for what is a token and a program, and on pipe_limits for the limit on brackets.
#![tactic(auto)]

mod laws;

pub use laws::{
    each_text_has_its_refusal, programs_have_no_refusal, texts_have_an_answer,
    texts_have_one_refusal,
};
