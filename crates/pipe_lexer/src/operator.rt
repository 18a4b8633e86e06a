/// The operators with two operands, but for `&&` and `||`.
#[derive(Clone, Copy)]
pub enum BinOp {
    Add,
    Sub,
    Mul,
    Div,
    Rem,
    Eq,
    Ne,
    Lt,
    Le,
    Gt,
    Ge,
}

/// The kinds of an input: an array of words, or one signed word.
#[derive(Clone, Copy)]
pub enum InputKind {
    Array,
    Int,
}
