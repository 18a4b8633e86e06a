//! The signs of operators: their operations, and the kinds of operands and results.

ghost use Rattle.std.specs.Prelude.{◌≡◌};
ghost use Rattle.kind_rules.specs.Expressions.{division_at};
ghost use Rattle.kind_rules.specs.Signs.{is_kind, op_of, result_kind, takes_ints};

use list_denotation::{BinOp, Kind};

/// Whether two kinds are one.
pub fn is_kind(kind: Kind, other: Kind) -> bool
    ensures { result ≡ is_kind kind other }
{
    kind == other
}

/// The operation of an operator's sign.
pub fn operation_of(sign: pipe_lexer::BinOp) -> BinOp
    ensures { result ≡ op_of sign }
{
    match sign {
        pipe_lexer::BinOp::Add => BinOp::Add,
        pipe_lexer::BinOp::Sub => BinOp::Sub,
        pipe_lexer::BinOp::Mul => BinOp::Mul,
        pipe_lexer::BinOp::Div => BinOp::Div,
        pipe_lexer::BinOp::Rem => BinOp::Rem,
        pipe_lexer::BinOp::Eq => BinOp::Eq,
        pipe_lexer::BinOp::Ne => BinOp::Ne,
        pipe_lexer::BinOp::Lt => BinOp::Lt,
        pipe_lexer::BinOp::Le => BinOp::Le,
        pipe_lexer::BinOp::Gt => BinOp::Gt,
        pipe_lexer::BinOp::Ge => BinOp::Ge,
    }
}

/// Whether the operands have to be ints; those of `==` and `!=` are of any one kind.
pub fn takes_ints(sign: pipe_lexer::BinOp) -> bool
    ensures { result ≡ takes_ints sign }
{
    match sign {
        pipe_lexer::BinOp::Eq | pipe_lexer::BinOp::Ne => false,
        _ => true,
    }
}

/// The kind of the result.
pub fn result_kind(sign: pipe_lexer::BinOp) -> Kind
    ensures { result ≡ result_kind sign }
{
    match sign {
        pipe_lexer::BinOp::Add
        | pipe_lexer::BinOp::Sub
        | pipe_lexer::BinOp::Mul
        | pipe_lexer::BinOp::Div
        | pipe_lexer::BinOp::Rem => Kind::Int,
        _ => Kind::Bool,
    }
}

/// The offset of an operator that divides.
pub fn division_at(sign: pipe_lexer::BinOp, at: u32) -> Option<u32>
    ensures { result ≡ division_at sign at }
{
    match sign {
        pipe_lexer::BinOp::Div | pipe_lexer::BinOp::Rem => Some(at),
        _ => None,
    }
}
