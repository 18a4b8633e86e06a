//! What a token is to the operand before it.

use crate::infix_op::InfixOp;

/// The tokens between the operands of a form, or behind the last: `(`, `)`, `then` and `else`.
#[derive(Clone, Copy, PartialEq, Eq)]
pub enum Mark {
    Opening,
    Closing,
    ThenKeyword,
    ElseKeyword,
}

/// An operator that the operand may be the left one of, a token that may close or go on a form, or
/// neither.
#[derive(Clone, Copy)]
pub enum Follow {
    Operator(InfixOp),
    Marks(Mark),
    Foreign,
}
