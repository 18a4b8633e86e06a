//! Conditions, and whether they use a scratch variable.

ghost use Rattle.std.specs.Prelude.{◌≡◌, ◌+◌, ◌<◌, ◌≤◌, ◌^◌, not, length, IsTrue, IfOk, OnOk};
ghost use Rattle.list_denotation.specs.Copies.{term_of};
ghost use Rattle.list_denotation.specs.Scopes.{is_bound};
ghost use Rattle.loop_ir.specs.StatementCopies.{test_of};
ghost use Rattle.expr_lower.specs.Costs.{temps_of};
ghost use Rattle.expr_forms.specs.Forms.{is_empty};
ghost use Rattle.expr_lower.specs.Lowering.{lowered_test};
ghost use Rattle.expr_phrases.specs.PhraseCopies.{Appends};
ghost use Rattle.turn_blocks.specs.Pieces.{behind_scratch};
ghost use Rattle.row_emit.specs.Placed.{Puts, condition_piece};

use expr_lower::{lower_test, scopes_hold_expressions};
use list_denotation::Expr;
use loop_ir::{Stmts, T};
use state_alloc::Slots;
use std::alloc::Global;
use strm_num::NoMemory;

/// The test of a condition once its statements have run, and whether there are any, which may use a
/// scratch variable.
#[derive(Drop)]
pub struct Branch {
    pub test: Box<T>,
    pub used: bool,
}

/// Appends the statements of a condition. The one error is `NoMemory`.
#[tactic(auto, using(crate::proofs::BlockSizes::same_length))]
pub fn put_condition(
    alloc: Global,
    e: &Expr,
    slots: &Slots,
    scratch: u32,
    block: &mut Stmts,
) -> Result<Branch, NoMemory>
    requires bound { IsTrue (is_bound (length slots.now.rows) (term_of e.now)) }
    requires temporaries { temps_of (term_of e.now) ≤ slots.now.temps }
    requires scratch { slots.now.next ≤ scratch }
    ensures block { OnOk result (Appends block.old block.new
        (lowered_test slots.now.rows (term_of e.now) scratch slots.now.first_temp).block) }
    ensures test { IfOk result (λ it. test_of it.test.value
        ≡ (lowered_test slots.now.rows (term_of e.now) scratch slots.now.first_temp).test) }
    ensures used { IfOk result (λ it. it.used ≡ not (is_empty
        (lowered_test slots.now.rows (term_of e.now) scratch slots.now.first_temp).block)) }
{
    scopes_hold_expressions();
    let before = block.len();
    let test = lower_test(alloc, e, slots, scratch, block)?;
    let used = block.len() != before;
    Ok(Branch { test, used })
}

/// Appends the statements of a condition, and takes the first variable that was never given out where
/// they may use it. The one error is `NoMemory`.
pub fn put_choice(
    alloc: Global,
    e: &Expr,
    slots: &mut Slots,
    block: &mut Stmts,
) -> Result<Box<T>, NoMemory>
    requires bound { IsTrue (is_bound (length slots.old.rows) (term_of e.now)) }
    requires temporaries { temps_of (term_of e.now) ≤ slots.old.temps }
    requires room { behind_scratch (lowered_test slots.old.rows (term_of e.now) slots.old.next
        slots.old.first_temp) slots.old.next < 2 ^ 32 }
    ensures test { IfOk result (λ test. test_of test.value
        ≡ (lowered_test slots.old.rows (term_of e.now) slots.old.next slots.old.first_temp).test) }
    ensures block { OnOk result (Puts slots.old slots.new block.old block.new
        (condition_piece (lowered_test slots.old.rows (term_of e.now) slots.old.next
        slots.old.first_temp) slots.old.next)) }
{
    let branch = put_condition(alloc, e, slots, slots.next, block)?;
    if branch.used {
        slots.reserve_variables(1);
    }
    Ok(branch.test)
}
