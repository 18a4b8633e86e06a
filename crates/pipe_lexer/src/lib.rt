//! The tokens of a pipeline text, each with its offset in bytes, or the first fault.
//!
//! It depends on strm_num for words, the list type and the refusal of memory, on unicode_ident for the
//! characters of an identifier, on pipe_limits and on thiserror. `tokens` carries the promise: what it
//! answers is what `LexesAs` of `specs/Lexing` says of the text, and nothing else is, unless memory is
//! refused. The laws say of `LexesAs` alone that each text has such an answer, and only one.
#![tactic(auto)]

mod fault;
mod keyword;
mod laws;
mod lexing;
mod operator;
mod piece;
mod scanning;
mod symbol;
mod token;

pub use fault::LexFault;
pub use keyword::Keyword;
pub use laws::{texts_have_an_answer, texts_have_one_answer, tokens_are_in_order};
pub use lexing::tokens;
pub use operator::{BinOp, InputKind};
pub use symbol::Symbol;
pub use token::{Token, TokenKind};
