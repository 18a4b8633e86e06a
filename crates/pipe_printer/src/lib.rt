//! The text of a tree: its tokens in order, a line for each declaration and one for the rest.
//!
//! `specs/Printing` says which tokens a tree has and what stands between two of them. `print_tree`
//! carries the promise that the text is theirs, and that it reads as the same tree but for offsets. The
//! law of `laws.rt` says that the tokens of a sentence are those of its tree. It depends on pipe_tree
//! for trees and their grammar, on exact_reader, on pipe_lexer for tokens, on text_pieces for pieces of
//! text, on strm_num and on unicode_ident.
#![tactic(auto)]

mod expressions;
mod laws;
mod pieces;
mod rows;
mod streams;
mod texts;

pub use laws::sentences_have_tree_tokens;
pub use texts::print_tree;
