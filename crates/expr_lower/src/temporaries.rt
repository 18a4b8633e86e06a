//! How many temporaries the statements of an expression use.

ghost use Rattle.std.specs.Prelude.{◌≡◌, ◌<◌, ◌^◌};
ghost use Rattle.list_denotation.specs.Copies.{term_of};
ghost use Rattle.list_denotation.specs.Typing.{is_division};
ghost use Rattle.expr_constants.specs.Constants.{constant_of};
ghost use Rattle.expr_lower.specs.Costs.{is_arithmetic, has_plain_parts, is_plain, is_direct, connected_temps, operation_temps, parts_temps, temps_of};

use crate::multiples::{dividend, multiple_divisor};
use expr_constants::{constant, is_leaf, is_simple};
use list_denotation::{BinOp, Expr, is_division};

/// The temporaries that the statements of an expression use, at most one for each level of its depth:
/// one for each right operand that is kept while others are looked at. A constant needs none.
#[cycle(temps)]
pub fn temps_of(e: &Expr) -> u32
    requires { temps_of (term_of e.now) < 2 ^ 32 }
    ensures { result ≡ temps_of (term_of e.now) }
{
    if constant(e).is_some() {
        return 0;
    }
    parts_temps(e)
}

/// Those that the parts of an expression need.
#[cycle(temps)]
#[tactic(auto, using(crate::proofs::MultipleTests::binary_temporaries))]
fn parts_temps(e: &Expr) -> u32
    requires { parts_temps (term_of e.now) < 2 ^ 32 }
    ensures { result ≡ parts_temps (term_of e.now) }
{
    match e {
        Expr::Lit(_) | Expr::Truth(_) | Expr::Var(_) | Expr::Param(_) | Expr::Len(_) => 0,
        Expr::Neg(a) => temps_of(a),
        Expr::Not(a) => temps_of(a),
        Expr::Bin(op, a, b) => {
            if let Some(_c) = multiple_divisor(*op, a, b) {
                return temps_of(dividend(a));
            }
            if let Some(_c) = multiple_divisor(*op, b, a) {
                return temps_of(dividend(b));
            }
            operation_temps(*op, a, b)
        }
        Expr::And(a, b) => connected_temps(a, b),
        Expr::Or(a, b) => connected_temps(a, b),
        Expr::If(c, a, b) => match constant(c) {
            Some(0) => temps_of(b),
            Some(_) => temps_of(a),
            None => temps_of(c).max(temps_of(a).max(temps_of(b))),
        },
    }
}

/// Those of an operation: the right operand has one of its own where it is kept.
#[cycle(temps)]
#[tactic(auto, using(crate::proofs::Costs::kept_few))]
fn operation_temps(op: BinOp, a: &Expr, b: &Expr) -> u32
    requires { operation_temps op (term_of a.now) (term_of b.now) < 2 ^ 32 }
    ensures { result ≡ operation_temps op (term_of a.now) (term_of b.now) }
{
    let right = if is_direct(op, b) { 0 } else { temps_of(b) + 1 };
    temps_of(a).max(right)
}

/// Those of `&&` and `||`: a first part that is constant has none.
#[cycle(temps)]
fn connected_temps(a: &Expr, b: &Expr) -> u32
    requires { connected_temps (constant_of (term_of a.now)) (temps_of (term_of a.now))
        (temps_of (term_of b.now)) < 2 ^ 32 }
    ensures { result ≡ connected_temps (constant_of (term_of a.now)) (temps_of (term_of a.now))
        (temps_of (term_of b.now)) }
{
    if constant(a).is_some() {
        return temps_of(b);
    }
    temps_of(a).max(temps_of(b))
}

/// Whether a right operand stands in the text as it is.
fn is_direct(op: BinOp, b: &Expr) -> bool
    ensures { result ≡ is_direct op (term_of b.now) }
{
    if is_division(op) {
        is_simple(b)
    } else {
        is_plain(b)
    }
}

fn is_arithmetic(op: BinOp) -> bool
    ensures { result ≡ is_arithmetic op }
{
    matches!(op, BinOp::Add | BinOp::Sub | BinOp::Mul)
}

/// Whether an expression is one word of the C text, and needs no statements.
#[cycle(plain)]
pub fn is_plain(e: &Expr) -> bool
    ensures { result ≡ is_plain (term_of e.now) }
{
    constant(e).is_some() || has_plain_parts(e)
}

/// Whether its parts make it one word.
#[cycle(plain)]
fn has_plain_parts(e: &Expr) -> bool
    ensures { result ≡ has_plain_parts (term_of e.now) }
{
    match e {
        Expr::Neg(a) => is_plain(a),
        Expr::Bin(op, a, b) => is_arithmetic(*op) && is_plain(a) && is_plain(b),
        Expr::If(c, a, b) => match constant(c) {
            Some(0) => is_plain(b),
            Some(_) => is_plain(a),
            None => false,
        },
        _ => is_leaf(e),
    }
}
