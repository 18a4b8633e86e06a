//! The guard of a loop.

ghost use Rattle.std.specs.Prelude.{◌≡◌, ◌<◌, ◌≤◌, ◌^◌, not, length, IsTrue, IfOk, OnOk};
ghost use Rattle.list_denotation.specs.Copies.{term_of};
ghost use Rattle.list_denotation.specs.Scopes.{is_bound};
ghost use Rattle.loop_ir.specs.StatementCopies.{test_of};
ghost use Rattle.expr_lower.specs.Costs.{temps_of};
ghost use Rattle.expr_forms.specs.Forms.{is_empty};
ghost use Rattle.expr_lower.specs.Lowering.{lowered_test};
ghost use Rattle.expr_phrases.specs.PhraseCopies.{Appends};
ghost use Rattle.state_alloc.specs.Frames.{Takes};
ghost use Rattle.loop_emit.specs.Emission.{loop_guard, behind_guard};

use expr_lower::{lower_into, lower_test, scopes_hold_expressions};
use expr_phrases::is_not_zero;
use list_denotation::Expr;
use loop_ir::{Stmts, T, W};
use state_alloc::Slots;
use std::alloc::Global;
use strm_num::NoMemory;

/// The test of a loop, and whether the value of its guard is kept in a variable, which statements
/// set before the loop and at the end of each turn.
#[derive(Drop)]
pub struct LoopGuard {
    pub test: Box<T>,
    pub kept: bool,
}

// Whether the condition of an expression has statements, where its scratch variable is the first
// one that was never given out, and its test.
#[tactic(auto, using(crate::proofs::Appends::none_of))]
fn condition(alloc: Global, e: &Expr, slots: &Slots) -> Result<LoopGuard, NoMemory>
    requires first_temp { slots.now.first_temp ≡ 0 }
    requires bound { IsTrue (is_bound (length slots.now.rows) (term_of e.now)) }
    requires temporaries { temps_of (term_of e.now) ≤ slots.now.temps }
    ensures test { IfOk result (λ it. test_of it.test.value
        ≡ (lowered_test slots.now.rows (term_of e.now) slots.now.next 0).test) }
    ensures kept { IfOk result (λ it. it.kept
        ≡ not (is_empty (lowered_test slots.now.rows (term_of e.now) slots.now.next 0).block)) }
{
    scopes_hold_expressions();
    let mut block = Stmts::new(alloc);
    let test = lower_test(alloc, e, slots, slots.next, &mut block)?;
    let kept = !block.is_empty();
    Ok(LoopGuard { test, kept })
}

/// Appends the statements of a loop's guard over words that stand in variables, and gives the rest
/// of what the loop needs: its test, and whether the guard has a variable, which is then the next
/// one of `slots` and is given out. The one error is `NoMemory`.
#[tactic(auto, using(crate::proofs::Appends::guard_steps))]
pub fn open_guard(
    alloc: Global,
    e: &Expr,
    slots: &mut Slots,
    block: &mut Stmts,
) -> Result<LoopGuard, NoMemory>
    requires first_temp { slots.old.first_temp ≡ 0 }
    requires bound { IsTrue (is_bound (length slots.old.rows) (term_of e.now)) }
    requires temporaries { temps_of (term_of e.now) ≤ slots.old.temps }
    requires room { behind_guard slots.old.rows (term_of e.now) slots.old.next < 2 ^ 32 }
    ensures block { OnOk result (Appends block.old block.new
        (loop_guard slots.old.rows (term_of e.now) slots.old.next).block) }
    ensures test { IfOk result (λ it. test_of it.test.value
        ≡ (loop_guard slots.old.rows (term_of e.now) slots.old.next).test) }
    ensures kept { IfOk result (λ it. it.kept
        ≡ not (is_empty (lowered_test slots.old.rows (term_of e.now) slots.old.next 0).block)) }
    ensures takes { OnOk result (Takes slots.old slots.new
        (behind_guard slots.old.rows (term_of e.now) slots.old.next)) }
{
    let v = slots.next;
    let guard = condition(alloc, e, slots)?;
    if !guard.kept {
        return Ok(guard);
    }
    lower_into(alloc, e, slots, v, block)?;
    let test = is_not_zero(alloc, W::Var(v))?;
    let _v = slots.reserve_variables(1);
    Ok(LoopGuard { test, kept: true })
}

/// Appends the statements of a loop's guard again, whose value is kept in the variable v. The one
/// error is `NoMemory`.
#[tactic(auto, using(crate::proofs::Appends::guard_steps))]
pub fn put_guard(
    alloc: Global,
    e: &Expr,
    slots: &Slots,
    v: u32,
    kept: bool,
    block: &mut Stmts,
) -> Result<(), NoMemory>
    requires first_temp { slots.now.first_temp ≡ 0 }
    requires bound { IsTrue (is_bound (length slots.now.rows) (term_of e.now)) }
    requires temporaries { temps_of (term_of e.now) ≤ slots.now.temps }
    requires kept { kept ≡ not (is_empty (lowered_test slots.now.rows (term_of e.now) v 0).block) }
    ensures { OnOk result (Appends block.old block.new
        (loop_guard slots.now.rows (term_of e.now) v).block) }
{
    if kept {
        lower_into(alloc, e, slots, v, block)?;
    }
    Ok(())
}
