//! Loop programs: C functions of variables, `while`, `if`, `break`, `return` and two output macros.
//!
//! It depends on strm_num and list_denotation. The types here are the programs that pipelines
//! become; `Prog` keeps that it is well formed, by `specs/WellFormed`: few parameters, declared
//! names, and constants that are words. Their meaning stands in `specs/Meaning` and their text in
//! `specs/Layout`, on plain copies of the statements; every later crate proves itself against
//! these. The four counts are what `specs/Counts` says of a program, up to 2^64 - 1. `runs_grow` is
//! the law that a run with more turns goes at least as far.
#![tactic(auto)]

pub mod counts;
mod laws;
mod program;
mod syntax;

pub use laws::{marks_tell_turns, runs_grow, turns_are_counted};
pub use list_denotation::{Event, Events, Input, InputKind, InputKinds, Inputs, Words};
pub use program::Prog;
pub use syntax::{Stmt, Stmts, T, Verdict, W, WOp};
