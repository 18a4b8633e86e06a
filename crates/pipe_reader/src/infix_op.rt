use pipe_lexer::BinOp;

/// An operator that stands between two operands: one of arithmetic or of order, `&&` or `||`.
#[derive(Clone, Copy)]
pub enum InfixOp {
    Binary(BinOp),
    And,
    Or,
}
