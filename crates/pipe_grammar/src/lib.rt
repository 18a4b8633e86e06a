//! The reader of pipeline texts: their tree, or the first offset where they stop to be a sentence within
//! the limits.
//!
//! `parse` carries the promise: a tree exactly where the tokens are a sentence within the limits, and
//! each fault exactly at its offset. The code is recursive descent; each of its functions reads one
//! production and says what pipe_reader's definition of the reader does from the tokens before to those
//! behind it. It depends on pipe_rows for the parts of streams, on pipe_reader, on tree_counts for the
//! counts, on pipe_tree for trees, on pipe_lexer for tokens and on pipe_limits.
#![tactic(auto)]

mod declarations;
mod parsing;
mod sources;
mod stages;
mod streams;
mod texts;

pub use parsing::parse;
