//! Expressions whose value is known as they stand.
//!
//! It depends on list_denotation, and on expr_values for what an operator gives. `constant` gives the value of an expression that reads no name and
//! doesn't trap, and the law `constants_are_values` says that it is its value; `specs/Constants` says
//! which expressions have one, by their parts. A condition that is constant decides here, so of the
//! part that isn't chosen nothing is asked. `is_simple` says which expressions are one constant or
//! one name of the C text.
#![tactic(auto)]

mod constants;
mod laws;
mod simple;

pub use constants::constant;
pub use laws::constants_are_values;
pub use simple::{is_leaf, is_simple};
