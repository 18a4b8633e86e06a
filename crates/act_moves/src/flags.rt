//! Acts that set the flag of a machine that is made of two, and end the turn.

ghost use Rattle.std.specs.Prelude.{◌≡◌, [], ◌∷◌, OnOk};
ghost use Rattle.list_denotation.specs.Copies.{term_of};
ghost use Rattle.list_denotation.specs.Terms.{Lit};
ghost use Rattle.stateful_core.specs.CoreCopies.{actions_of};
ghost use Rattle.stateful_core.specs.CoreTerms.{Nil, Cons, join};
ghost use Rattle.stateful_core.specs.StreamCores.{set_state};
ghost use Rattle.act_moves.specs.Flags.{skip_with, close_unless};

use list_denotation::{Expr, boxed, single};
use stateful_core::{Act, Acts, push_set};
use std::alloc::Global;
use strm_num::{List, NoMemory, Word};

/// Appends the act that sets the flag. The one error is `NoMemory`.
pub fn push_flag(alloc: Global, flag: Word, made: &mut Acts) -> Result<(), NoMemory>
    ensures { OnOk result (actions_of made.new
        ≡ join (actions_of made.old) (set_state (Lit flag ∷ []))) }
{
    let word = boxed(alloc, Expr::Lit(flag))?;
    push_set(single(alloc, word)?, made)
}

/// Appends the acts that set the flag and end the turn without a row. The one error is `NoMemory`.
#[tactic(auto, using(crate::proofs::MadeActs::flag_steps))]
pub fn push_skip(alloc: Global, flag: Word, made: &mut Acts) -> Result<(), NoMemory>
    ensures { OnOk result (actions_of made.new ≡ join (actions_of made.old) (skip_with flag)) }
{
    push_flag(alloc, flag, made)?;
    made.push(Act::KeepIf(Expr::Truth(false)))
}

/// Appends the act that closes the inner stream, and ends the turn without a row, unless a test is
/// true. The one error is `NoMemory`.
#[tactic(auto, using(crate::proofs::MadeActs::flag_steps))]
pub fn push_close(alloc: Global, test: Box<Expr>, made: &mut Acts) -> Result<(), NoMemory>
    ensures { OnOk result (actions_of made.new
        ≡ join (actions_of made.old) (Cons (close_unless (term_of test.value)) Nil)) }
{
    let mut close = List::new(alloc);
    push_skip(alloc, 0, &mut close)?;
    made.push(Act::When(Box::into_inner(test), List::new(alloc), close))
}
