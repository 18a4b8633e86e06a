//! The pushdown automaton that reads the C subset, as a definition.
//!
//! `specs/Automaton` takes one token at a time: a state holds the blocks and phrases that are open, each
//! with the parts that have been read, and the tokens that must come next. The law says that the
//! automaton is exact: it gives a program only for the tokens of this program, and stops at the first
//! token with which no program goes on. The code of c_phrase_reader and c_program_reader does what it says. It
//! depends on c_grammar for the grammar, on c_words for what is seen in a token, on c_faults for the
//! language of programs, on exact_reader for what exactness is, on c_tokens for tokens, on loop_ir and
//! list_denotation for programs, and on strm_num and thiserror through these.
#![tactic(auto)]

mod forms;
mod laws;

pub use forms::{Form, Next, Operator, Want};
pub use laws::programs_are_read_exactly;
