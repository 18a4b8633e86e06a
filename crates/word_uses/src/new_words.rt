//! What a new local word comes to.

ghost use Rattle.std.specs.Prelude.{◌≡◌, ℕ, ◌&&◌, nat_lt, if◌then◌else◌};
ghost use Rattle.list_denotation.specs.Copies.{term_of};
ghost use Rattle.list_denotation.specs.Typing.{is_undivided};
ghost use Rattle.stateful_core.specs.CoreCopies.{action_of, actions_of};
ghost use Rattle.stateful_core.specs.CoreLeaves.{actions_leaves};
ghost use Rattle.stateful_core.specs.CoreShapes.{action_locals, actions_locals};
ghost use Rattle.stateful_core.specs.MostWords.{is_other_leaf};
ghost use Rattle.turn_blocks.specs.WordUses.{is_test_of, copy_use, let_use};
ghost use Rattle.word_uses.specs.LetUses.{let_use_of};

use crate::reads::are_unread;
use crate::waiting::{Place, is_steady};
use list_denotation::{Expr, is_undivided};
use stateful_core::Act;

/// What a new local word comes to: it is tested at once and not read again; it is not read at all;
/// it is the bound word of that number; or it has a variable of its own.
#[derive(Clone, Copy)]
pub enum LetUse {
    Tested,
    Unused,
    Same(u32),
    Own,
}

// Whether the first of the acts tests word x, and no other reads it.
fn is_test_of(x: u64, acts: &[Act]) -> bool
    ensures { (scope states : ℕ) → result ≡ is_test_of scope states x (actions_of acts.now) }
{
    match acts {
        [Act::KeepIf(Expr::Var(k)), rest @ ..] => u64::from(*k) == x && are_unread(x, 1, rest),
        [Act::StopUnless(Expr::Var(k)), rest @ ..] => {
            u64::from(*k) == x && are_unread(x, 1, rest)
        }
        _ => false,
    }
}

fn copy_use(place: Place, e: &Expr, acts: &[Act]) -> LetUse
    ensures { let_use_of result
        ≡ copy_use place.scope place.states (term_of e.now) (actions_of acts.now) }
{
    match e {
        Expr::Var(k) if is_steady(place, *k, acts) => LetUse::Same(*k),
        _ => LetUse::Own,
    }
}

// Whether acts don't read the new word x, whose value is there in any case.
fn is_unused(x: u64, e: &Expr, acts: &[Act]) -> bool
    ensures { result ≡ (is_undivided (term_of e.now)
        && actions_leaves (is_other_leaf x 1) (actions_of acts.now)) }
{
    is_undivided(e) && are_unread(x, 1, acts)
}

fn adds_word(act: &Act) -> bool
    ensures { action_locals (action_of act.now) ≡ (if result then 1 else 0) }
{
    matches!(act, Act::Let(_) | Act::Read(_, _))
}

// Whether acts add fewer local words than these.
fn adds_fewer(width: u64, acts: &[Act]) -> bool
    ensures { result ≡ nat_lt (actions_locals (actions_of acts.now)) width }
{
    match acts {
        [] => 0 < width,
        [act, rest @ ..] => {
            if adds_word(act) {
                0 < width && adds_fewer(width - 1, rest)
            } else {
                adds_fewer(width, rest)
            }
        }
    }
}

/// What a local word comes to that is word x, with this value, before these acts; what follows them
/// takes the last `width` local words.
pub fn let_use(place: Place, width: u32, x: u64, e: &Expr, acts: &[Act]) -> LetUse
    ensures { let_use_of result
        ≡ let_use place.scope place.states width x (term_of e.now) (actions_of acts.now) }
{
    if x == 0 {
        LetUse::Own
    } else if adds_fewer(u64::from(width), acts) {
        copy_use(place, e, acts)
    } else if is_test_of(x, acts) {
        LetUse::Tested
    } else if is_unused(x, e, acts) {
        LetUse::Unused
    } else {
        copy_use(place, e, acts)
    }
}
