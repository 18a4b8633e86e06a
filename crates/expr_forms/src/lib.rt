//! The statements of expressions, from those of their parts.
//!
//! It depends on expr_phrases, whose phrases they are, and expr_constants. A `Form` says where the value
//! of an expression is to be found once its statements have run: it is a word or a test of the C text,
//! or it stands in a target variable. `specs/Forms` says what an operation, a connective, a choice and
//! the use of a value add to the statements of the parts, on plain copies, and the calls append it. The
//! law `forms_have_the_leaves_of_their_parts` says that they add no constant but words and no name but
//! those of the parts and the target. The one error of each call is `NoMemory`, where memory is refused.
#![tactic(auto)]

mod connectives;
mod forms;
mod laws;
mod operations;

pub use connectives::{connected, is_neutral};
pub use forms::{Form, condition, operand, put, word};
pub use laws::forms_have_the_leaves_of_their_parts;
pub use operations::{Part, keep, multiple, negated, operation};
