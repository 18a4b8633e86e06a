//! Forms whose last operand is there.

ghost use Rattle.std.specs.Prelude.{◌≡◌, ◌+◌, ◌≤◌, min, IfOk};
ghost use Rattle.pipe_tree.specs.Bounds.{depth_of};
ghost use Rattle.pipe_reader.specs.InfixOps.{join};
ghost use Rattle.pipe_reader.specs.Machine.{complete_form};
ghost use Rattle.pipe_expressions.specs.MachineCopies.{final_of};
ghost use Rattle.pipe_tree.specs.TreeCopies.{formula_of, formula_at};
ghost use Rattle.pipe_tree.specs.Trees.{Paren};
ghost use Rattle.pipe_limits.specs.declared.TheConstants.{MOST_DEPTH};

use crate::frames::Final;
use crate::operand::{Operand, depth_around};
use pipe_reader::InfixOp;
use pipe_tree::{TExpr, TNode};
use std::alloc::Global;
use strm_num::NoMemory;

/// An expression without parts, at this offset.
pub fn leaf(alloc: Global, at: u32, node: TNode) -> Result<Operand, NoMemory>
    requires { depth_of (formula_at at node) ≡ 1 }
    ensures { IfOk result (λ u. formula_of u.expr.value ≡ formula_at at node) }
{
    let expr = Box::new(alloc, TExpr { at, node })?;
    Ok(Operand { expr, depth: 1 })
}

/// Two operands with this operator, at this offset, between them.
#[tactic(auto, using(pipe_tree::proofs::Offsets::offset_is))]
fn join(operator: InfixOp, at: u32, left: Box<TExpr>, right: Box<TExpr>) -> TExpr
    ensures { formula_of result
        ≡ join operator at (formula_of left.value) (formula_of right.value) }
{
    let first = left.at;
    let node = match operator {
        InfixOp::Binary(op) => TNode::Bin(op, at, left, right),
        InfixOp::And => TNode::And(at, left, right),
        InfixOp::Or => TNode::Or(at, left, right),
    };
    TExpr { at: first, node }
}

/// The form with this first token whose deepest part has this depth, counted up to `MOST_DEPTH` + 1.
fn enclosing(alloc: Global, expr: TExpr, deepest: u32) -> Result<Operand, NoMemory>
    requires counted { deepest ≤ MOST_DEPTH + 1 }
    requires depth { min (depth_of (formula_of expr)) (MOST_DEPTH + 1)
        ≡ min (deepest + 1) (MOST_DEPTH + 1) }
    ensures { IfOk result (λ u. formula_of u.expr.value ≡ formula_of expr) }
{
    let expr = Box::new(alloc, expr)?;
    Ok(Operand {
        expr,
        depth: depth_around(deepest),
    })
}

/// An operand in parentheses, of which the first stands at this offset.
pub fn enclose(alloc: Global, at: u32, inner: Operand) -> Result<Operand, NoMemory>
    ensures { IfOk result (λ u. formula_of u.expr.value ≡ Paren at (formula_of inner.expr.value)) }
{
    let Operand { expr, depth } = inner;
    let node = TNode::Paren(expr);
    enclosing(alloc, TExpr { at, node }, depth)
}

/// The expression of a form with its last operand.
#[tactic(auto, using(pipe_tree::proofs::Offsets::offset_is))]
pub fn complete(alloc: Global, form: Final, last: Operand) -> Result<Operand, NoMemory>
    ensures { IfOk result (λ u. formula_of u.expr.value
        ≡ complete_form (final_of form) (formula_of last.expr.value)) }
{
    let Operand { expr, depth } = last;
    match form {
        Final::Negates(at) => {
            let node = TNode::Neg(expr);
            enclosing(alloc, TExpr { at, node }, depth)
        }
        Final::Denies(at) => {
            let node = TNode::Not(expr);
            enclosing(alloc, TExpr { at, node }, depth)
        }
        Final::Joins(operator, at, left) => {
            let deepest = left.depth.max(depth);
            enclosing(alloc, join(operator, at, left.expr, expr), deepest)
        }
        Final::Chooses(at, test, chosen) => {
            let deepest = test.depth.max(chosen.depth).max(depth);
            let node = TNode::If(test.expr, chosen.expr, expr);
            enclosing(alloc, TExpr { at, node }, deepest)
        }
    }
}
