//! Typed stream pipelines and what they mean on lists.
//!
//! It depends on strm_num. The types here are the terms that a checked pipeline text becomes, and
//! the inputs and events of a run. Their meaning stands in `specs/`, on plain copies of the terms:
//! the value of an expression, the rows of a stream at a bound, the observation of a program, its
//! work, its counts, the kinds of its rows, and when one observation is as far as another. The
//! crates above prove themselves against those definitions. `Program` keeps that it is typed and
//! within the limits, and that its numbers are words; the counts and `row_kinds` are what their
//! definitions say of it. What makes expressions stands here too: copies of them, rows, and the test
//! for a division. The laws say what follows of a program or an expression that is typed; the laws
//! of values, rows and observations stand in denotation_laws.
#![tactic(auto)]

mod copying;
mod counts;
mod divisions;
mod event;
mod expr;
mod input;
mod kind;
mod laws;
mod program;
mod rows;
mod stream;
mod terminal;
mod typing;

pub use copying::{both_rows, boxed, copies, copy, push_copies};
pub use counts::{depth, loops_of, most_stmts, most_vars, nest_of, nodes, ops};
pub use divisions::{all_undivided, is_division, is_undivided};
pub use event::{Event, Events};
pub use expr::{BinOp, Expr, Exprs};
pub use input::{Input, InputKind, InputKinds, Inputs, Words};
pub use kind::{Kind, Kinds};
pub use laws::{costs_go_with_nodes, typed_expressions_read_the_scope, typed_programs_keep_limits};
pub use program::Program;
pub use rows::{single, variables, width};
pub use stream::Stream;
pub use terminal::Terminal;
pub use typing::row_kinds;
