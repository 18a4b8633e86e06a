//! The loop of a machine.

ghost use Rattle.std.specs.Prelude.{◌≡◌, ◌<◌, ◌≤◌, ◌^◌, length, None, IsTrue, OnOk};
ghost use Rattle.list_denotation.specs.Copies.{term_of};
ghost use Rattle.list_denotation.specs.Scopes.{is_bound};
ghost use Rattle.expr_lower.specs.Costs.{temps_of};
ghost use Rattle.expr_phrases.specs.PhraseCopies.{Appends};
ghost use Rattle.stateful_core.specs.CoreCopies.{actions_of};
ghost use Rattle.turn_emit.specs.Turns.{piece_at, IsReadyAt};
ghost use Rattle.loop_emit.specs.Emission.{behind_guard, guarded_loop};

use crate::loop_guard::{open_guard, put_guard};
use list_denotation::Expr;
use loop_ir::{Stmt, Stmts};
use state_alloc::Slots;
use stateful_core::Act;
use std::alloc::Global;
use strm_num::NoMemory;
use turn_emit::{Turn, put_turn};

/// Appends the loop of a machine: while the guard is true of the state, whose words are those of
/// `slots`, turns with these acts. The one error is `NoMemory`.
#[tactic(auto, using(crate::proofs::Appends::loop_steps))]
pub fn put_loop(
    alloc: Global,
    guard: &Expr,
    acts: &[Act],
    turn: Turn<'_>,
    slots: &mut Slots,
    block: &mut Stmts,
) -> Result<(), NoMemory>
    requires first_temp { slots.old.first_temp ≡ 0 }
    requires bound { IsTrue (is_bound (length slots.old.rows) (term_of guard.now)) }
    requires temporaries { temps_of (term_of guard.now) ≤ slots.old.temps }
    requires behind { behind_guard slots.old.rows (term_of guard.now) slots.old.next < 2 ^ 32 }
    requires ready { IsReadyAt turn (actions_of acts.now) slots.old.rows 0 slots.old.temps
        (behind_guard slots.old.rows (term_of guard.now) slots.old.next) }
    requires room { (piece_at turn None (actions_of acts.now) slots.old.rows 0
        (behind_guard slots.old.rows (term_of guard.now) slots.old.next)).next < 2 ^ 32 }
    ensures block { OnOk result (Appends block.old block.new
        (guarded_loop slots.old.rows (term_of guard.now) slots.old.next
        (piece_at turn.entry None (actions_of acts.now) slots.old.rows 0
        (behind_guard slots.old.rows (term_of guard.now) slots.old.next)).block)) }
    ensures next { OnOk result (slots.new.next
        ≡ (piece_at turn.entry None (actions_of acts.now) slots.old.rows 0
        (behind_guard slots.old.rows (term_of guard.now) slots.old.next)).next) }
{
    let v = slots.next;
    let opened = open_guard(alloc, guard, slots, block)?;
    let mut body = Stmts::new(alloc);
    put_turn(alloc, acts, turn, slots, &mut body)?;
    put_guard(alloc, guard, slots, v, opened.kept, &mut body)?;
    block.push(Stmt::Loop(Box::into_inner(opened.test), body))
}
