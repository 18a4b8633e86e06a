//! The precedences of expressions, from the loosest: 0 any expression, 1 `||`, 2 `&&`,
//! 3 comparisons, 4 sums, 5 products, 6 `-` and `!`, 7 what needs no operator.

ghost use Rattle.std.specs.Prelude.{◌≡◌, ◌≤◌, ℕ};
ghost use Rattle.pipe_reader.specs.InfixOps.{infix_precedence, infix_left_precedence, infix_right_precedence, formula_precedence};
ghost use Rattle.pipe_reader.specs.Machine.{wanted_precedence, may_join, at_most, step_by_operator, Step};
ghost use Rattle.pipe_expressions.specs.MachineCopies.{frames_of, step_by_infix};
ghost use Rattle.pipe_tree.specs.Operators.{precedence};
ghost use Rattle.pipe_tree.specs.TreeCopies.{formula_of};

use crate::frames::{Final, Frame};
use exact_reader::Stack;
use pipe_lexer::BinOp;
use pipe_reader::{Follow, InfixOp};
use pipe_tree::{TExpr, TNode};

/// The precedence of an operator of arithmetic or order.
fn binary_precedence(op: BinOp) -> u8
    ensures is { result ≡ precedence op }
    ensures most { result ≤ 5 }
{
    match op {
        BinOp::Eq | BinOp::Ne | BinOp::Lt | BinOp::Le | BinOp::Gt | BinOp::Ge => 3,
        BinOp::Add | BinOp::Sub => 4,
        BinOp::Mul | BinOp::Div | BinOp::Rem => 5,
    }
}

/// The precedence of an operator, `&&` and `||` too.
fn infix_precedence(operator: InfixOp) -> u8
    ensures is { result ≡ infix_precedence operator }
    ensures most { result ≤ 5 }
{
    match operator {
        InfixOp::Binary(op) => binary_precedence(op),
        InfixOp::And => 2,
        InfixOp::Or => 1,
    }
}

/// The loosest precedence of its left operand. Comparisons don't follow one another.
fn infix_left_precedence(operator: InfixOp) -> u8
    ensures { result ≡ infix_left_precedence operator }
{
    match operator {
        InfixOp::Binary(op) => binary_precedence(op).max(4),
        InfixOp::And => 2,
        InfixOp::Or => 1,
    }
}

/// The loosest precedence of its right operand, one tighter than its own: operators of one precedence
/// group to the left.
fn infix_right_precedence(operator: InfixOp) -> u8
    ensures { result ≡ infix_right_precedence operator }
{
    infix_precedence(operator) + 1
}

/// The precedence of an expression.
fn precedence_of(e: &TExpr) -> u8
    ensures { result ≡ formula_precedence (formula_of e.now) }
{
    match &e.node {
        TNode::Num(_) | TNode::Truth(_) | TNode::Name(_) | TNode::Len(_) | TNode::Paren(_) => 7,
        TNode::Neg(_) | TNode::Not(_) => 6,
        TNode::Bin(op, ..) => binary_precedence(*op),
        TNode::And(..) => 2,
        TNode::Or(..) => 1,
        TNode::If(..) => 0,
    }
}

/// The loosest precedence of the operand that is awaited.
fn wanted_precedence(forms: &Stack<Frame>) -> u8
    ensures { result ≡ wanted_precedence (frames_of forms.now) }
{
    match forms.innermost() {
        None => 0,
        Some(Frame::Last(Final::Negates(_) | Final::Denies(_))) => 6,
        Some(Frame::Last(Final::Joins(operator, ..))) => infix_right_precedence(*operator),
        Some(_) => 0,
    }
}

/// Whether the expression may be the left operand of this operator inside the open forms.
fn may_join(forms: &Stack<Frame>, e: &TExpr, operator: InfixOp) -> bool
    ensures { result ≡ may_join (frames_of forms.now) (formula_of e.now) operator }
{
    wanted_precedence(forms) <= infix_precedence(operator)
        && infix_left_precedence(operator) <= precedence_of(e)
}

/// The operator that takes the expression as its left operand; none if the token is none, or one that
/// may not take it.
pub fn operator_behind(forms: &Stack<Frame>, e: &TExpr, follow: Follow) -> Option<InfixOp>
    ensures { (at : ℕ) (other : Step)
        → step_by_operator follow (frames_of forms.now) (formula_of e.now) at other
        ≡ step_by_infix result (frames_of forms.now) (formula_of e.now) at other }
{
    match follow {
        Follow::Operator(operator) => {
            if may_join(forms, e, operator) {
                Some(operator)
            } else {
                None
            }
        }
        Follow::Marks(_) | Follow::Foreign => None,
    }
}

/// Whether a condition may begin inside the open forms: only where any expression may stand.
pub fn may_test(forms: &Stack<Frame>) -> bool
    ensures { result ≡ at_most (wanted_precedence (frames_of forms.now)) 0 }
{
    wanted_precedence(forms) == 0
}
