//! Which updates of the state may wait for the acts behind them.

ghost use Rattle.std.specs.Prelude.{◌≡◌};
ghost use Rattle.list_denotation.specs.Copies.{term_of, terms_of};
ghost use Rattle.list_denotation.specs.Terms.{Var};
ghost use Rattle.list_denotation.specs.Leaves.{all_leaves};
ghost use Rattle.stateful_core.specs.CoreCopies.{action_of, actions_of};
ghost use Rattle.stateful_core.specs.CoreLeaves.{row_leaves};
ghost use Rattle.stateful_core.specs.CoreTerms.{Cons};
ghost use Rattle.turn_blocks.specs.WordUses.{is_lasting_leaf, may_wait, stays, is_steady};

use crate::reads::are_unread;
use crate::writes::{actions_keep, leaves, width};
use list_denotation::Expr;
use stateful_core::Act;

/// How many words are bound before the state of a stream, and how many words the state has.
#[derive(Clone, Copy)]
pub struct Place {
    pub scope: u32,
    pub states: u32,
}

// Whether none of these acts sets the bound word k: it is one of the scope, or of the state and
// kept.
fn is_lasting_word(place: Place, acts: &[Act], k: u32) -> bool
    ensures { result ≡ is_lasting_leaf place.scope place.states (actions_of acts.now) (Var k) }
{
    let k = u64::from(k);
    let scope = u64::from(place.scope);
    k < scope || (k < scope + u64::from(place.states) && actions_keep(k - scope, 1, acts))
}

// Whether none of these acts sets a word that the expression reads.
fn is_lasting(place: Place, acts: &[Act], e: &Expr) -> bool
    ensures { result ≡ all_leaves (is_lasting_leaf place.scope place.states (actions_of acts.now))
        (term_of e.now) }
{
    match e {
        Expr::Var(k) => is_lasting_word(place, acts, *k),
        Expr::Lit(_) | Expr::Truth(_) | Expr::Param(_) | Expr::Len(_) => true,
        Expr::Neg(a) | Expr::Not(a) => is_lasting(place, acts, a),
        Expr::Bin(_, a, b) => is_lasting(place, acts, a) && is_lasting(place, acts, b),
        Expr::And(a, b) | Expr::Or(a, b) => {
            is_lasting(place, acts, a) && is_lasting(place, acts, b)
        }
        Expr::If(c, a, b) => {
            is_lasting(place, acts, c) && (is_lasting(place, acts, a) && is_lasting(place, acts, b))
        }
    }
}

fn row_is_lasting(place: Place, acts: &[Act], row: &[Expr]) -> bool
    ensures { result ≡ row_leaves (is_lasting_leaf place.scope place.states (actions_of acts.now))
        (terms_of row.now) }
{
    match row {
        [] => true,
        [e, rest @ ..] => is_lasting(place, acts, e) && row_is_lasting(place, acts, rest),
    }
}

/// Whether an update of the state from word k on may wait for the acts behind it: they neither read
/// nor set its words, and set none that it reads.
pub fn may_wait(place: Place, k: u32, row: &[Expr], acts: &[Act]) -> bool
    ensures { result ≡ may_wait place.scope place.states k (terms_of row.now)
        (actions_of acts.now) }
{
    let first = u64::from(k);
    let width = width(row);
    are_unread(u64::from(place.scope) + first, width, acts)
        && (actions_keep(first, width, acts) && row_is_lasting(place, acts, row))
}

// Whether the word at place j of the state is as it is while the acts run: each update that sets it
// may wait.
#[cycle(stays)]
fn stays(place: Place, j: u64, acts: &[Act]) -> bool
    ensures { result ≡ stays place.scope place.states j (actions_of acts.now) }
{
    match acts {
        [] => true,
        [act, rest @ ..] => stays_over(place, j, act, rest),
    }
}

#[cycle(stays)]
fn stays_over(place: Place, j: u64, act: &Act, rest: &[Act]) -> bool
    ensures { result
        ≡ stays place.scope place.states j (Cons (action_of act.now) (actions_of rest.now)) }
{
    match act {
        Act::Let(_) | Act::Read(_, _) | Act::KeepIf(_) | Act::StopUnless(_) => {
            stays(place, j, rest)
        }
        Act::Update(k, es) => {
            if leaves(u64::from(*k), width(es.as_slice()), j) {
                stays(place, j, rest)
            } else {
                may_wait(place, *k, es.as_slice(), rest)
            }
        }
        Act::When(_, a, b) => {
            actions_keep(j, 1, a.as_slice())
                && (actions_keep(j, 1, b.as_slice()) && stays(place, j, rest))
        }
    }
}

/// Whether the bound word k isn't set while the acts run.
pub fn is_steady(place: Place, k: u32, acts: &[Act]) -> bool
    ensures { result ≡ is_steady place.scope place.states k (actions_of acts.now) }
{
    let k = u64::from(k);
    let scope = u64::from(place.scope);
    k < scope || (k >= scope + u64::from(place.states) || stays(place, k - scope, acts))
}
