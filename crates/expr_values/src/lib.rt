//! The values of expressions, computed.
//!
//! It depends on list_denotation, whose expressions and inputs it reads, and on strm_num for words
//! and lists. `value` is what list_denotation defines of an expression over bound words and inputs,
//! `operation` what it defines of an operator, and `row_value` what it defines of a row of them; none stands for a trap, which is the only fault
//! that an expression has.
#![tactic(auto)]

mod rows;
mod values;

pub use rows::row_value;
pub use values::{operation, value};
