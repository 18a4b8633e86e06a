//! The reader of the C subset: a text is read as its program, or refused at the place of its first fault.
//!
//! `read_c` carries the promise, by c_faults' `specs/Answers`: what it answers is what the text is
//! answered with, and nothing else is, unless memory is refused. It depends on c_lexer for tokens, on
//! c_program_reader for programs and on c_automaton for what it reads, on c_faults, c_grammar, c_words and
//! c_tokens for the definitions, on loop_ir and list_denotation for programs, on pipe_limits, and on
//! strm_num for the refusal of memory. It keeps no tokens, and cuts the text twice: whether it has
//! tokens, and then for the depth of the brackets and the program at once. Names are looked for in the
//! program, and in the text only where one of them isn't declared.
#![tactic(auto)]

mod depth;
mod header;
mod leaves;
mod names;
mod parsing;
mod reading;

pub use c_faults::CFault;
pub use reading::read_c;
