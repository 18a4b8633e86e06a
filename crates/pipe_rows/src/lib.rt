//! The reader of a text's tokens, and of names, patterns, expressions and rows.
//!
//! `Reader` holds the tokens of a text that are left. Each function reads one production and says what
//! pipe_reader's definition of the reader does from the tokens before to those behind it, whatever is
//! to come (`specs/FormReading`). It depends on pipe_reader for that definition, on pipe_expressions
//! for the steps of expressions, on exact_reader for their stack, on pipe_tree for trees, on pipe_lexer
//! for tokens and on pipe_limits.
#![tactic(auto)]

mod after;
mod declarations;
mod expressions;
mod fold_parts;
mod patterns;
mod reader;
mod rows;
mod token_class;

pub use after::{expression_after, pattern_after, row_after};
pub use declarations::declaration;
pub use expressions::expression;
pub use fold_parts::{FoldParts, folding};
pub use patterns::{label, pattern};
pub use reader::Reader;
pub use rows::row;
pub use token_class::TokenClass;
