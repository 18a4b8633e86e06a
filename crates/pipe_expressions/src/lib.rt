//! The reader of expressions, one token at a time over the forms that are open.
//!
//! `step` says what a token leads to and `finish` what the end does, as pipe_reader's `specs/Machine`
//! has it; `is_within_depth` is the test that is made at each token. The forms are kept on a stack and
//! not by recursion. Letting go of an expression calls itself, as deep as it is, and the test keeps that
//! within the limit. It depends on pipe_reader for what a step is, on exact_reader for stacks, on
//! pipe_tree for trees, on pipe_lexer for tokens and on pipe_limits.
#![tactic(auto)]

mod completion;
mod depths;
mod frames;
mod operand;
mod precedence;
mod stepping;
mod token_roles;

pub use depths::is_within_depth;
pub use frames::{Final, Frame, Inner, Mode, Step};
pub use operand::Operand;
pub use stepping::{finish, step};
