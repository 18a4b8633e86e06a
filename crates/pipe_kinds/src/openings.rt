//! Opening expressions, which hold no division: bounds, counts, guards and first states.

ghost use Rattle.std.specs.Prelude.{◌≡◌};
ghost use Rattle.pipe_tree.specs.TreeCopies.{formula_of};
ghost use Rattle.kind_rules.specs.Checked.{IsOneUnlessRefused};
ghost use Rattle.kind_rules.specs.Expressions.{first_division, opening_kind, opening_of};
ghost use Rattle.pipe_kinds.specs.Copies.{expr_term, scope_of, typed_of};

use crate::expressions::{expression, of_this_kind};
use crate::scope::Scope;
use crate::signs::division_at;
use crate::typed::TypedExpr;
use kind_rules::TypeFault;
use list_denotation::Kind;
use pipe_tree::{TExpr, TNode};
use std::alloc::Global;

/// The offset of the first division in the text of an expression.
fn first_division(e: &TExpr) -> Option<u32>
    ensures { result ≡ first_division (formula_of e.now) }
{
    match &e.node {
        TNode::Num(_) | TNode::Truth(_) | TNode::Name(_) | TNode::Len(_) => None,
        TNode::Neg(a) | TNode::Not(a) | TNode::Paren(a) => first_division(a),
        TNode::Bin(sign, at, a, b) => {
            first_division(a).or(division_at(*sign, *at).or(first_division(b)))
        }
        TNode::And(_, a, b) | TNode::Or(_, a, b) => first_division(a).or(first_division(b)),
        TNode::If(c, a, b) => first_division(c).or(first_division(a).or(first_division(b))),
    }
}

/// An opening expression of any kind, or its first fault.
pub fn opening(alloc: Global, scope: &Scope, e: &TExpr) -> Result<TypedExpr, TypeFault>
    ensures { IsOneUnlessRefused typed_of result
        (opening_of (scope_of scope.now) (formula_of e.now)) }
{
    let typed = expression(alloc, scope, e)?;
    match first_division(e) {
        None => Ok(typed),
        Some(at) => Err(TypeFault::DivisionInOpening(at)),
    }
}

/// An opening expression that has to be of this kind, or its first fault.
pub fn opening_of_kind(
    alloc: Global,
    scope: &Scope,
    kind: Kind,
    e: &TExpr,
) -> Result<TypedExpr, TypeFault>
    ensures { IsOneUnlessRefused expr_term result
        (opening_kind (scope_of scope.now) kind (formula_of e.now)) }
{
    let typed = of_this_kind(alloc, scope, kind, e)?;
    match first_division(e) {
        None => Ok(typed),
        Some(at) => Err(TypeFault::DivisionInOpening(at)),
    }
}
