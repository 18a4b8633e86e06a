//! The grammar of the C subset: which bytes are the text of which loop program.
//!
//! It depends on c_tokens, whose tokens it speaks of, and on loop_ir, list_denotation and strm_num.
//! `specs/Grammar` says by cases, one for each line of the grammar, which tokens are those of which
//! operand, test, statement and program; `specs/Reading` which bytes read as which program. The laws
//! say that bytes read as one program at most, and that the layout of a well-formed program reads as
//! this program. There is no code.
#![tactic(auto)]

mod laws;

pub use laws::{layouts_read_as_their_programs, texts_read_as_one_program};
