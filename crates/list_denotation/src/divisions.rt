//! Whether a division stands in an expression.

ghost use Rattle.std.specs.Prelude.{◌≡◌};
ghost use Rattle.list_denotation.specs.Copies.{term_of, terms_of};
ghost use Rattle.list_denotation.specs.Typing.{is_division, is_undivided, all_undivided};

use crate::expr::{BinOp, Expr, Exprs};

/// Whether an operation divides: `/` and `%` do.
pub fn is_division(op: BinOp) -> bool
    ensures { result ≡ is_division op }
{
    matches!(op, BinOp::Div | BinOp::Rem)
}

/// Whether no division stands in the expression. It takes no memory.
pub fn is_undivided(e: &Expr) -> bool
    ensures { result ≡ is_undivided (term_of e.now) }
{
    match e {
        Expr::Lit(_) | Expr::Truth(_) | Expr::Var(_) | Expr::Param(_) | Expr::Len(_) => true,
        Expr::Neg(a) | Expr::Not(a) => is_undivided(a),
        Expr::Bin(op, a, b) => !is_division(*op) && (is_undivided(a) && is_undivided(b)),
        Expr::And(a, b) | Expr::Or(a, b) => is_undivided(a) && is_undivided(b),
        Expr::If(c, a, b) => is_undivided(c) && (is_undivided(a) && is_undivided(b)),
    }
}

/// Whether no division stands in the row.
#[tactic(auto, using(crate::proofs::UndividedRows::undivided_steps))]
pub fn all_undivided(es: &Exprs) -> bool
    ensures { result ≡ all_undivided (terms_of es.now) }
{
    for i in 0..es.len() {
        if !is_undivided(es.get(i)) {
            return false;
        }
    }
    true
}
