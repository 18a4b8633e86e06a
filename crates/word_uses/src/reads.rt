//! Which words acts read.

ghost use Rattle.std.specs.Prelude.{◌≡◌};
ghost use Rattle.list_denotation.specs.Copies.{term_of, terms_of};
ghost use Rattle.list_denotation.specs.Leaves.{all_leaves};
ghost use Rattle.stateful_core.specs.CoreCopies.{action_of, actions_of};
ghost use Rattle.stateful_core.specs.CoreLeaves.{row_leaves, action_leaves, actions_leaves};
ghost use Rattle.stateful_core.specs.MostWords.{is_other_leaf};

use list_denotation::Expr;
use stateful_core::Act;

/// Whether an expression reads none of so many words from one on.
pub fn is_unread(first: u64, count: u64, e: &Expr) -> bool
    ensures { result ≡ all_leaves (is_other_leaf first count) (term_of e.now) }
{
    match e {
        Expr::Var(k) => u64::from(*k) < first || u64::from(*k) - first >= count,
        Expr::Lit(_) | Expr::Truth(_) | Expr::Param(_) | Expr::Len(_) => true,
        Expr::Neg(a) | Expr::Not(a) => is_unread(first, count, a),
        Expr::Bin(_, a, b) => is_unread(first, count, a) && is_unread(first, count, b),
        Expr::And(a, b) | Expr::Or(a, b) => {
            is_unread(first, count, a) && is_unread(first, count, b)
        }
        Expr::If(c, a, b) => {
            is_unread(first, count, c) && (is_unread(first, count, a) && is_unread(first, count, b))
        }
    }
}

/// Whether a row reads none of so many words from one on.
pub fn row_is_unread(first: u64, count: u64, row: &[Expr]) -> bool
    ensures { result ≡ row_leaves (is_other_leaf first count) (terms_of row.now) }
{
    match row {
        [] => true,
        [e, rest @ ..] => is_unread(first, count, e) && row_is_unread(first, count, rest),
    }
}

/// Whether acts read none of so many words from one on.
#[cycle(reads)]
pub fn are_unread(first: u64, count: u64, acts: &[Act]) -> bool
    ensures { result ≡ actions_leaves (is_other_leaf first count) (actions_of acts.now) }
{
    match acts {
        [] => true,
        [act, rest @ ..] => { act_is_unread(first, count, act) && are_unread(first, count, rest) }
    }
}

#[cycle(reads)]
fn act_is_unread(first: u64, count: u64, act: &Act) -> bool
    ensures { result ≡ action_leaves (is_other_leaf first count) (action_of act.now) }
{
    match act {
        Act::Let(e) | Act::Read(_, e) | Act::KeepIf(e) | Act::StopUnless(e) => {
            is_unread(first, count, e)
        }
        Act::Update(_, es) => row_is_unread(first, count, es.as_slice()),
        Act::When(e, a, b) => {
            is_unread(first, count, e)
                && (are_unread(first, count, a.as_slice())
                    && are_unread(first, count, b.as_slice()))
        }
    }
}
