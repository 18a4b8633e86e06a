//! Comparisons of a remainder with 0: `x % c == 0` and `x % c != 0` for a constant c other than 0.

ghost use Rattle.std.specs.Prelude.{◌≡◌, ◌≤◌};
ghost use Rattle.list_denotation.specs.Copies.{term_of};
ghost use Rattle.list_denotation.specs.Counts.{term_depth};
ghost use Rattle.expr_phrases.specs.Results.{is_equality};
ghost use Rattle.expr_lower.specs.Multiples.{is_remainder, nonzero_constant, divisor_of, dividend_of, multiple_divisor};

use expr_constants::constant;
use list_denotation::{BinOp, Expr};
use strm_num::Word;

fn is_equality(op: BinOp) -> bool
    ensures { result ≡ is_equality op }
{
    matches!(op, BinOp::Eq | BinOp::Ne)
}

fn is_remainder(op: BinOp) -> bool
    ensures { result ≡ is_remainder op }
{
    matches!(op, BinOp::Rem)
}

fn nonzero(c: Option<Word>) -> Option<Word>
    ensures { result ≡ nonzero_constant c }
{
    match c {
        Some(0) => None,
        c => c,
    }
}

/// The divisor of a remainder, where it is a constant other than 0.
fn divisor(e: &Expr) -> Option<Word>
    ensures { result ≡ divisor_of (term_of e.now) }
{
    match e {
        Expr::Bin(op, _, y) => {
            if is_remainder(*op) {
                nonzero(constant(y))
            } else {
                None
            }
        }
        _ => None,
    }
}

/// The dividend of a remainder.
#[tactic(auto, using(crate::proofs::MultipleTests::dividend_shallow))]
pub fn dividend(e: &Expr) -> &Expr
    ensures is { term_of result.now ≡ dividend_of (term_of e.now) }
    ensures shallow { term_depth (term_of result.now) ≤ term_depth (term_of e.now) }
{
    match e {
        Expr::Bin(_, x, _) => x,
        e => e,
    }
}

/// The constant c where `a` is `x % c`, and `op` compares it with `b`, which is 0.
pub fn multiple_divisor(op: BinOp, a: &Expr, b: &Expr) -> Option<Word>
    ensures { result ≡ multiple_divisor op (term_of a.now) (term_of b.now) }
{
    if is_equality(op) && matches!(constant(b), Some(0)) {
        return divisor(a);
    }
    None
}
