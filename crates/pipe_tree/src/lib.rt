//! Trees of pipeline texts, and the grammar that says which tokens have which tree.
//!
//! It depends on pipe_lexer for tokens, on exact_reader for what a language is, on pipe_limits, on
//! strm_num for lists and on thiserror. `specs/Grammar` says by cases, a production each, which tokens
//! a tree has; `specs/Bounds` what is within the limits; and `specs/Parsing` what any tokens are
//! answered with: their tree, or which fault at which offset. The crates above read tokens, print trees
//! and find their kinds against these.
#![tactic(auto)]

mod fault;
mod tree;

pub use fault::ParseFault;
pub use tree::{
    Decl, Decls, Name, Names, TExpr, TExprs, TNode, TPat, TRow, TSource, TStage, TStageNode,
    TStages, TStream, TTerminal, Text, Tree,
};
