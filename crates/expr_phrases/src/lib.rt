//! The phrases of the C text that expressions are printed as: of words, tests and statements, not
//! of expressions.
//!
//! It depends on list_denotation, loop_ir and expr_constants. `specs/Phrases` says what each phrase
//! is, on plain copies, and `specs/Results` what it comes to. The calls make the phrases, in boxes
//! where they are parts of others; the one error of each is `NoMemory`, where memory is refused.
//! Signed arithmetic is printed as arithmetic of unsigned words (ISO/IEC 9899:2011, 6.2.5 and 6.5),
//! and the laws say that it is the same: `divisions_assign_signed_results`,
//! `comparisons_tell_the_signed_order`, `zero_remainders_need_no_sign` and `opposites_negate`. They
//! say too that a phrase has no constant but words and no name but those of its parts, and that a
//! division and a magnitude have few statements and no loop.
#![tactic(auto)]

mod assignments;
mod boxes;
mod comparison;
mod connectives;
mod division;
mod laws;
mod multiples;

pub use assignments::{assignment, set_truth};
pub use boxes::{boxed_test, boxed_word, is_not_zero, minus, opposite};
pub use comparison::comparison_test;
pub use connectives::{Connective, connected_block, connected_test};
pub use division::{Division, Side, by_divisor};
pub use laws::{
    comparisons_tell_the_signed_order, divisions_assign_signed_results, opposites_negate,
    zero_remainders_need_no_sign,
};
pub use multiples::{divides_modulus, magnitude_block, multiple_test};
