//! Expressions as statements of loop programs.
//!
//! It depends on list_denotation, loop_ir, state_alloc, expr_constants and expr_forms, whose forms the
//! statements are put together from. `specs/Lowering` says which statements an expression becomes,
//! on plain copies. `lower` and `lower_into` carry the promise: their statements put the expression's
//! value into a target variable, or return 1 exactly where it traps; they have no loop, change
//! nothing else but temporaries, name nothing but what the expression names, and are at most as many
//! as its cost. `lower_test` says the same of a condition, whose truth is that of a test, and
//! `lower_operand` of an operand, whose value is that of a word. The law `expressions_are_lowered`
//! says all of it of the definitions alone, which is what a proof about more statements cites, with
//! `scopes_hold_expressions` for expressions over a whole scope. An expression for which `is_plain`
//! holds is one word and needs no statements, by `plain_expressions_are_words`.
//! `expressions_name_their_leaves` says what the statements name, wherever the words of the scope
//! stand. Two more laws bound the cost by the nodes and the temporaries by the depth.
#![tactic(auto)]

mod laws;
mod lowering;
mod multiples;
mod statements;
mod temporaries;

pub use laws::{
    costs_are_few, expressions_are_lowered, expressions_name_their_leaves,
    plain_expressions_are_words, scopes_hold_expressions, temporaries_are_few,
};
pub use statements::{lower, lower_into, lower_operand, lower_test};
pub use temporaries::{is_plain, temps_of};
