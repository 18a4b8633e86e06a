//! The kinds of expressions, and what they stand for.

ghost use Rattle.std.specs.Prelude.{◌≡◌};
ghost use Rattle.pipe_tree.specs.TreeCopies.{formula_of};
ghost use Rattle.pipe_tree.specs.Trees.{If as IfFormula};
ghost use Rattle.kind_rules.specs.Checked.{IsOneUnlessRefused};
ghost use Rattle.kind_rules.specs.Expressions.{alike_of, both_of, expression_of, of_this_kind, operands_of};
ghost use Rattle.pipe_kinds.specs.Copies.{expr_term, operands_copy, scope_of, typed_of};

use crate::named::{boxed, len_of, value_named};
use crate::scope::Scope;
use crate::signs::{is_kind, operation_of, result_kind, takes_ints};
use crate::typed::{Operands, TypedExpr};
use kind_rules::TypeFault;
use list_denotation::{Expr, Kind};
use pipe_lexer::BinOp;
use pipe_tree::{TExpr, TNode};
use std::alloc::Global;

/// An expression that has to be of this kind, or its first fault.
#[cycle(expressions)]
#[tactic(auto, using(pipe_tree::proofs::Offsets::offset_is))]
pub fn of_this_kind(
    alloc: Global,
    scope: &Scope,
    kind: Kind,
    e: &TExpr,
) -> Result<TypedExpr, TypeFault>
    ensures { IsOneUnlessRefused expr_term result
        (of_this_kind (scope_of scope.now) kind (formula_of e.now)) }
{
    let typed = expression(alloc, scope, e)?;
    if !is_kind(typed.kind, kind) {
        return Err(TypeFault::Mismatch(e.at));
    }
    Ok(typed)
}

/// Two operands that have to be of this kind.
#[cycle(expressions)]
fn both(
    alloc: Global,
    scope: &Scope,
    kind: Kind,
    a: &TExpr,
    b: &TExpr,
) -> Result<Operands, TypeFault>
    ensures { IsOneUnlessRefused operands_copy result
        (both_of (scope_of scope.now) kind (formula_of a.now) (formula_of b.now)) }
{
    let left = of_this_kind(alloc, scope, kind, a)?;
    let right = of_this_kind(alloc, scope, kind, b)?;
    Ok(Operands {
        kind,
        left: left.expr,
        right: right.expr,
    })
}

/// Two operands that have to be of any one kind.
#[cycle(expressions)]
fn alike(alloc: Global, scope: &Scope, a: &TExpr, b: &TExpr) -> Result<Operands, TypeFault>
    ensures { IsOneUnlessRefused operands_copy result
        (alike_of (scope_of scope.now) (formula_of a.now) (formula_of b.now)) }
{
    let left = expression(alloc, scope, a)?;
    let right = of_this_kind(alloc, scope, left.kind, b)?;
    Ok(Operands {
        kind: left.kind,
        left: left.expr,
        right: right.expr,
    })
}

/// The operands of an operator.
#[cycle(expressions)]
fn operands(
    alloc: Global,
    scope: &Scope,
    sign: BinOp,
    a: &TExpr,
    b: &TExpr,
) -> Result<Operands, TypeFault>
    ensures { IsOneUnlessRefused operands_copy result
        (operands_of (scope_of scope.now) sign (formula_of a.now) (formula_of b.now)) }
{
    if takes_ints(sign) {
        both(alloc, scope, Kind::Int, a, b)
    } else {
        alike(alloc, scope, a, b)
    }
}

/// One of two expressions of any one kind, by a condition.
#[cycle(expressions)]
fn choice(
    alloc: Global,
    scope: &Scope,
    c: &TExpr,
    when_true: &TExpr,
    when_false: &TExpr,
) -> Result<TypedExpr, TypeFault>
    ensures { IsOneUnlessRefused typed_of result
        (expression_of (scope_of scope.now)
        (IfFormula 0 (formula_of c.now) (formula_of when_true.now) (formula_of when_false.now))) }
{
    let test = of_this_kind(alloc, scope, Kind::Bool, c)?;
    let chosen = alike(alloc, scope, when_true, when_false)?;
    boxed(
        alloc,
        chosen.kind,
        Expr::If(test.expr, chosen.left, chosen.right),
    )
}

/// An expression in a scope, or its first fault. Parentheses are dropped.
#[cycle(expressions)]
pub fn expression(alloc: Global, scope: &Scope, e: &TExpr) -> Result<TypedExpr, TypeFault>
    ensures { IsOneUnlessRefused typed_of result
        (expression_of (scope_of scope.now) (formula_of e.now)) }
{
    match &e.node {
        TNode::Num(w) => boxed(alloc, Kind::Int, Expr::Lit(*w)),
        TNode::Truth(b) => boxed(alloc, Kind::Bool, Expr::Truth(*b)),
        TNode::Name(text) => value_named(alloc, e.at, scope.look_up(text.as_slice())),
        TNode::Len(name) => len_of(alloc, scope, name),
        TNode::Neg(a) => {
            let a = of_this_kind(alloc, scope, Kind::Int, a)?;
            boxed(alloc, Kind::Int, Expr::Neg(a.expr))
        }
        TNode::Not(a) => {
            let a = of_this_kind(alloc, scope, Kind::Bool, a)?;
            boxed(alloc, Kind::Bool, Expr::Not(a.expr))
        }
        TNode::Paren(a) => expression(alloc, scope, a),
        TNode::Bin(sign, _, a, b) => {
            let both = operands(alloc, scope, *sign, a, b)?;
            boxed(
                alloc,
                result_kind(*sign),
                Expr::Bin(operation_of(*sign), both.left, both.right),
            )
        }
        TNode::And(_, a, b) => {
            let both = both(alloc, scope, Kind::Bool, a, b)?;
            boxed(alloc, Kind::Bool, Expr::And(both.left, both.right))
        }
        TNode::Or(_, a, b) => {
            let both = both(alloc, scope, Kind::Bool, a, b)?;
            boxed(alloc, Kind::Bool, Expr::Or(both.left, both.right))
        }
        TNode::If(c, a, b) => choice(alloc, scope, c, a, b),
    }
}
