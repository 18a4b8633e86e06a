use crate::operand::Operand;
use pipe_reader::InfixOp;
use pipe_tree::{Name, TExpr};

/// A form whose last operand is awaited. Each number is the offset of the form's own token: of an
/// operator, or else of the form's first token.
#[derive(Drop)]
pub enum Final {
    Negates(u32),
    Denies(u32),
    Joins(InfixOp, u32, Operand),
    Chooses(u32, Operand, Operand),
}

/// A form, with the offset of its first token, of which an inner operand is awaited: what stands in
/// parentheses, after `if` or after `then`.
#[derive(Drop)]
pub enum Inner {
    Encloses(u32),
    Tests(u32),
    Branches(u32, Operand),
}

/// An open form.
#[derive(Drop)]
pub enum Frame {
    Last(Final),
    Inside(Inner),
}

/// What an expression awaits: an operand; what follows the operand that is there; or behind a `len`
/// at this offset its parenthesis, its name or its closing parenthesis.
#[derive(Drop)]
pub enum Mode {
    Need,
    Have(Operand),
    Calls(u32),
    Spells(u32),
    Closes(u32, Name),
}

/// What a token leads to: the expression goes on, or it is complete and the token is not its own, or
/// nothing goes on with the token.
#[derive(Drop)]
pub enum Step {
    Goes(Mode),
    Leaves(Box<TExpr>),
    Stuck,
}
