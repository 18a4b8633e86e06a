//! Expressions whose value is known as they stand.

ghost use Rattle.std.specs.Prelude.{◌≡◌, IsTrue};
ghost use Rattle.list_denotation.specs.Copies.{term_of};
ghost use Rattle.list_denotation.specs.Literals.{has_words};
ghost use Rattle.expr_constants.specs.Constants.{conjunction_constant, disjunction_constant, chosen_constant, operation_constant, constant_of};

use expr_values::operation;
use list_denotation::{BinOp, Expr};
use strm_num::Word;

#[tactic(auto, using(crate::proofs::KnownValues::constant_got))]
fn known_operation(op: BinOp, x: Option<Word>, y: Option<Word>) -> Option<Word>
    ensures { result ≡ operation_constant op x y }
{
    operation(op, x?, y?)
}

fn conjunction(x: Option<Word>, y: Option<Word>) -> Option<Word>
    ensures { result ≡ conjunction_constant x y }
{
    if x? == 0 {
        return Some(0);
    }
    Some(u64::from(y? != 0))
}

fn disjunction(x: Option<Word>, y: Option<Word>) -> Option<Word>
    ensures { result ≡ disjunction_constant x y }
{
    if x? != 0 {
        return Some(1);
    }
    Some(u64::from(y? != 0))
}

fn chosen(c: Option<Word>, x: Option<Word>, y: Option<Word>) -> Option<Word>
    ensures { result ≡ chosen_constant c x y }
{
    if c? == 0 { y } else { x }
}

/// The value of an expression that reads no name. Of all else there is none, nor of one that traps.
#[tactic(auto, using(crate::proofs::KnownValues::words_joined))]
pub fn constant(e: &Expr) -> Option<Word>
    ensures value { result ≡ constant_of (term_of e.now) }
    ensures words { IsTrue (has_words (term_of e.now)) }
{
    match e {
        Expr::Lit(c) => Some(*c),
        Expr::Truth(b) => Some(u64::from(*b)),
        Expr::Var(_) | Expr::Param(_) | Expr::Len(_) => None,
        Expr::Neg(a) => Some(constant(a)?.wrapping_neg()),
        Expr::Not(a) => Some(u64::from(constant(a)? == 0)),
        Expr::Bin(op, a, b) => known_operation(*op, constant(a), constant(b)),
        Expr::And(a, b) => conjunction(constant(a), constant(b)),
        Expr::Or(a, b) => disjunction(constant(a), constant(b)),
        Expr::If(c, a, b) => chosen(constant(c), constant(a), constant(b)),
    }
}
