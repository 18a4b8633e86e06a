//! What a terminal does outside of the turns of a loop.

ghost use Rattle.std.specs.Prelude.{◌≡◌, ℕ, ◌+◌, ◌<◌, ◌≤◌, ◌^◌, [], slice_index, EachIndex, length, List, IsTrue, OnOk};
ghost use Rattle.list_denotation.specs.Copies.{terms_of, finish_of};
ghost use Rattle.list_denotation.specs.Terms.{Term};
ghost use Rattle.expr_phrases.specs.PhraseCopies.{Appends};
ghost use Rattle.stateful_core.specs.CoreTerms.{Actions};
ghost use Rattle.loop_emit.specs.Emission.{finish_temps, held_count, seed_is_bound, finish_openings, finish_ending, held_vars};
ghost use Rattle.loop_emit.specs.EmissionRoom.{HasRoom, IsTurnFor};

use crate::openings::put_openings;
use list_denotation::{Expr, Terminal};
use loop_ir::Stmts;
use row_emit::{Stop, Tail, put_row};
use state_alloc::Slots;
use std::alloc::Global;
use strm_num::{NoMemory, Word};
use turn_emit::Turn;
use word_uses::{Place, row_temps};

/// The number of words in a row of expressions.
#[tactic(auto, using(list_denotation::proofs::MadeRows::terms_length))]
pub fn width(row: &[Expr]) -> u32
    requires { length (terms_of row.now) < 2 ^ 32 }
    ensures { result ≡ length (terms_of row.now) }
{
    row.len() as u32
}

/// The temporaries that the expressions of a terminal use.
pub fn finish_temps(t: &Terminal) -> u32
    requires { finish_temps (finish_of t.now) < 2 ^ 32 }
    ensures { result ≡ finish_temps (finish_of t.now) }
{
    match t {
        Terminal::Fold { seed, next } => row_temps(seed.as_slice()).max(row_temps(next.as_slice())),
        Terminal::Print => 0,
    }
}

/// How many words a terminal holds from row to row.
pub fn held_count(t: &Terminal) -> u32
    requires { held_count (finish_of t.now) < 2 ^ 32 }
    ensures { result ≡ held_count (finish_of t.now) }
{
    match t {
        Terminal::Fold { seed, .. } => width(seed.as_slice()),
        Terminal::Print => 0,
    }
}

/// Appends the statements that set the words that a terminal holds, in the variables behind the
/// temporaries of `slots`, which has no words. The one error is `NoMemory`.
#[tactic(auto, using(crate::proofs::Appends::appends_none))]
pub fn put_finish_openings(
    alloc: Global,
    t: &Terminal,
    slots: &Slots,
    block: &mut Stmts,
) -> Result<(), NoMemory>
    requires no_words { slots.now.rows ≡ [] }
    requires first_temp { slots.now.first_temp ≡ 0 }
    requires bound { IsTrue (seed_is_bound (finish_of t.now)) }
    requires temporaries { finish_temps (finish_of t.now) ≤ slots.now.temps }
    requires room { slots.now.temps + held_count (finish_of t.now) < 2 ^ 32 }
    ensures { OnOk result (Appends block.old block.new
        (finish_openings (finish_of t.now) slots.now.temps)) }
{
    match t {
        Terminal::Fold { seed, .. } => { put_openings(alloc, seed, slots, slots.temps, block) }
        Terminal::Print => Ok(()),
    }
}

/// Appends what stands behind the loop: the words that a terminal holds, in these variables, are
/// printed. The one error is `NoMemory`.
#[tactic(auto, using(crate::proofs::Appends::appends_none))]
pub fn put_ending(t: &Terminal, held: &[Word], block: &mut Stmts) -> Result<(), NoMemory>
    requires { EachIndex held.now (λ i. slice_index held.now i < 2 ^ 32) }
    ensures { OnOk result (Appends block.old block.new (finish_ending (finish_of t.now) held.now)) }
{
    match t {
        Terminal::Fold { .. } => put_row(held, block),
        Terminal::Print => Ok(()),
    }
}

/// A turn of a machine whose state has so many words, in the scope of no words, and what the terminal
/// does with its row of this width. The words that the terminal holds stand in the variables
/// `held`.
#[tactic(auto, using(crate::proofs::MadePrograms::held_given))]
pub fn turn_for<'a>(t: &'a Terminal, held: &'a [Word], states: u32, width: u32) -> Turn<'a>
    ensures { (temps : ℕ) (init : List Term) (guard : Term) (acts : Actions)
        → HasRoom temps init guard acts width (finish_of t.now)
        → held.now ≡ held_vars temps init guard acts width (finish_of t.now)
        → states ≡ length init
        → IsTurnFor temps init guard acts width (finish_of t.now) result }
{
    let place = Place { scope: 0, states };
    match t {
        Terminal::Fold { next, .. } => Turn {
            place,
            tail: Tail::Fold {
                vars: held,
                next: next.as_slice(),
                width,
            },
            stop: Stop::Fold(held),
        },
        Terminal::Print => Turn {
            place,
            tail: Tail::Print(width),
            stop: Stop::Print,
        },
    }
}
