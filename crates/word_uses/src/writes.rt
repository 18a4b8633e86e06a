//! Which words of the state acts set, and whether they lead on.

ghost use Rattle.std.specs.Prelude.{◌≡◌, ◌+◌, ◌||◌, length, nat_le, nat_lt};
ghost use Rattle.list_denotation.specs.Copies.{terms_of};
ghost use Rattle.stateful_core.specs.CoreCopies.{action_of, actions_of};
ghost use Rattle.stateful_core.specs.CoreTerms.{Nil, Cons};
ghost use Rattle.turn_blocks.specs.WordUses.{action_keeps, actions_keep, never_go_on};

use list_denotation::Expr;
use stateful_core::Act;

/// The number of expressions in a row.
#[tactic(auto, using(list_denotation::proofs::MadeRows::terms_length))]
pub fn width(row: &[Expr]) -> u64
    ensures { result ≡ length (terms_of row.now) }
{
    row.len() as u64
}

// Whether so many words from one on end at k or before it.
fn ends_by(first: u64, count: u64, k: u64) -> bool
    ensures { result ≡ nat_le (first + count) k }
{
    first <= k && count <= k - first
}

/// Whether an update of so many words of the state from k on leaves the word at place j.
pub fn leaves(k: u64, count: u64, j: u64) -> bool
    ensures { result ≡ (nat_le (k + count) j || nat_lt j k) }
{
    ends_by(k, count, j) || j < k
}

/// Whether acts set none of so many words of the state from one on.
#[cycle(writes)]
pub fn actions_keep(first: u64, count: u64, acts: &[Act]) -> bool
    ensures { result ≡ actions_keep first count (actions_of acts.now) }
{
    match acts {
        [] => true,
        [act, rest @ ..] => { action_keeps(first, count, act) && actions_keep(first, count, rest) }
    }
}

#[cycle(writes)]
fn action_keeps(first: u64, count: u64, act: &Act) -> bool
    ensures { result ≡ action_keeps first count (action_of act.now) }
{
    match act {
        Act::Let(_) | Act::Read(_, _) | Act::KeepIf(_) | Act::StopUnless(_) => true,
        Act::Update(k, es) => {
            let width = width(es.as_slice());
            ends_by(u64::from(*k), width, first) || ends_by(first, count, u64::from(*k))
        }
        Act::When(_, a, b) => {
            actions_keep(first, count, a.as_slice()) && actions_keep(first, count, b.as_slice())
        }
    }
}

/// Whether acts don't lead on: one of them ends each turn that comes to it.
#[tactic(auto, using(crate::proofs::WordUses::never_first))]
pub fn never_go_on(acts: &[Act]) -> bool
    ensures { result ≡ never_go_on (actions_of acts.now) }
{
    match acts {
        [] => false,
        [act, rest @ ..] => ends_each_turn(act) || never_go_on(rest),
    }
}

fn ends_each_turn(act: &Act) -> bool
    ensures { result ≡ never_go_on (Cons (action_of act.now) Nil) }
{
    match act {
        Act::KeepIf(e) | Act::StopUnless(e) => matches!(e, Expr::Truth(false)),
        _ => false,
    }
}
