//! The statements of an expression over the words of a scope.

ghost use Rattle.std.specs.Prelude.{◌≡◌, ◌≤◌, length, IsTrue, IfOk, OnOk};
ghost use Rattle.list_denotation.specs.Copies.{term_of};
ghost use Rattle.list_denotation.specs.Literals.{has_words};
ghost use Rattle.list_denotation.specs.Scopes.{is_bound};
ghost use Rattle.loop_ir.specs.Constants.{block_has_words};
ghost use Rattle.loop_ir.specs.Counts.{block_count, block_loops};
ghost use Rattle.loop_ir.specs.StatementCopies.{operand_of, test_of, block_of};
ghost use Rattle.expr_lower.specs.Contract.{scope_of, value_block, condition_block, condition_test, operand_statements, operand_word, IsTarget, GivesValue, NamesOnly, PutsValue, TellsTruth, YieldsWord};
ghost use Rattle.list_denotation.specs.Costs.{cost};
ghost use Rattle.expr_lower.specs.Costs.{temps_of};
ghost use Rattle.expr_phrases.specs.PhraseCopies.{Appends};

use crate::laws::laws_below;
use crate::lowering::{Frame, lower_condition, lower_word, put_value};
use list_denotation::Expr;
use loop_ir::{Stmts, T, W};
use state_alloc::Slots;
use std::alloc::Global;
use strm_num::NoMemory;

/// Appends the statements that put the value of `e` into the variable `target`, as `lower` gives
/// them. Where the target is a temporary or a variable of a word that `e` reads, nothing is said of
/// its value. The one error is `NoMemory`, where memory is refused.
#[tactic(auto, using(crate::proofs::Contract::rows_fit, crate::proofs::Contract::temps_fit))]
pub fn lower_into(
    alloc: Global,
    e: &Expr,
    slots: &Slots,
    target: u32,
    block: &mut Stmts,
) -> Result<(), NoMemory>
    requires bound { IsTrue (is_bound (length slots.now.rows) (term_of e.now)) }
    requires temporaries { temps_of (term_of e.now) ≤ slots.now.temps }

    ensures block { OnOk result (Appends block.old block.new
        (value_block (scope_of slots.now) (term_of e.now) target)) }
    ensures words { OnOk result (IsTrue (has_words (term_of e.now))) }

    // Of what is appended:
    ensures gives { OnOk result (IsTarget (scope_of slots.now) (term_of e.now) target
        → GivesValue (scope_of slots.now) (term_of e.now) target
        (value_block (scope_of slots.now) (term_of e.now) target)) }
    ensures names { OnOk result (NamesOnly (scope_of slots.now) (term_of e.now) target
        (value_block (scope_of slots.now) (term_of e.now) target)) }
    ensures few { OnOk result
        (block_count (value_block (scope_of slots.now) (term_of e.now) target)
        ≤ cost (term_of e.now)) }
    ensures no_loops { OnOk result
        (block_loops (value_block (scope_of slots.now) (term_of e.now) target) ≡ 0) }
    ensures constants { OnOk result (IsTrue (block_has_words
        (value_block (scope_of slots.now) (term_of e.now) target))) }
{
    laws_below();
    let frame = Frame {
        target,
        first_temp: slots.first_temp,
    };
    put_value(alloc, e, &slots.rows, frame, block)
}

/// Appends the statements of a condition, and gives the test that holds once they have run where the
/// value of `e` is true: 0 is false, and every other word is true. Where `e` traps they return 1. They
/// have no loop, and take no turn.
///
/// What is said of the words, the temporaries and the target of `lower` holds here too; what stands
/// in the variable `scratch` then is not said. The one error is `NoMemory`, where memory is refused.
#[tactic(auto, using(crate::proofs::Contract::rows_fit, crate::proofs::Contract::temps_fit))]
pub fn lower_test(
    alloc: Global,
    e: &Expr,
    slots: &Slots,
    scratch: u32,
    block: &mut Stmts,
) -> Result<Box<T>, NoMemory>
    requires bound { IsTrue (is_bound (length slots.now.rows) (term_of e.now)) }
    requires temporaries { temps_of (term_of e.now) ≤ slots.now.temps }
    requires target { IsTarget (scope_of slots.now) (term_of e.now) scratch }

    ensures block { OnOk result (Appends block.old block.new
        (condition_block (scope_of slots.now) (term_of e.now) scratch)) }
    ensures test { IfOk result (λ t. test_of t.value
        ≡ condition_test (scope_of slots.now) (term_of e.now) scratch) }
    ensures words { OnOk result (IsTrue (has_words (term_of e.now))) }
    ensures tells { OnOk result (TellsTruth (scope_of slots.now) (term_of e.now) scratch
        (condition_block (scope_of slots.now) (term_of e.now) scratch)
        (condition_test (scope_of slots.now) (term_of e.now) scratch)) }
{
    laws_below();
    let frame = Frame {
        target: scratch,
        first_temp: slots.first_temp,
    };
    lower_condition(alloc, e, &slots.rows, frame, block)
}

/// Appends the statements of an operand, and gives the word that has the value of `e` once they have
/// run. Where `e` traps they return 1. They have no loop, and take no turn.
///
/// What is said of the words, the temporaries and the target of `lower` holds here too. The word
/// names what `e` names, or the variable `scratch`. The one error is `NoMemory`, where memory is
/// refused.
#[tactic(auto, using(crate::proofs::Contract::rows_fit, crate::proofs::Contract::temps_fit))]
pub fn lower_operand(
    alloc: Global,
    e: &Expr,
    slots: &Slots,
    scratch: u32,
    block: &mut Stmts,
) -> Result<Box<W>, NoMemory>
    requires bound { IsTrue (is_bound (length slots.now.rows) (term_of e.now)) }
    requires temporaries { temps_of (term_of e.now) ≤ slots.now.temps }
    requires target { IsTarget (scope_of slots.now) (term_of e.now) scratch }

    ensures block { OnOk result (Appends block.old block.new
        (operand_statements (scope_of slots.now) (term_of e.now) scratch)) }
    ensures word { IfOk result (λ w. operand_of w.value
        ≡ operand_word (scope_of slots.now) (term_of e.now) scratch) }
    ensures words { OnOk result (IsTrue (has_words (term_of e.now))) }
    ensures yields { OnOk result (YieldsWord (scope_of slots.now) (term_of e.now) scratch
        (operand_statements (scope_of slots.now) (term_of e.now) scratch)
        (operand_word (scope_of slots.now) (term_of e.now) scratch)) }
{
    laws_below();
    let frame = Frame {
        target: scratch,
        first_temp: slots.first_temp,
    };
    lower_word(alloc, e, &slots.rows, frame, block)
}

/// The statements that put the value of `e` into the variable `target`, or return 1 exactly where it
/// traps. They have no loop, and take no turn.
///
/// Word k of `e` is word k of `slots`, which stands in its variable. The target is no temporary, and
/// no variable of a word that `e` reads. Besides the target only temporaries are changed; at most one
/// is used for each level of the depth of `e`. What the operations mean on unsigned words is C's
/// arithmetic (ISO/IEC 9899:2011, 6.2.5 and 6.5). The one error is `NoMemory`, where memory is refused.
pub fn lower(alloc: Global, e: &Expr, slots: &Slots, target: u32) -> Result<Stmts, NoMemory>
    requires bound { IsTrue (is_bound (length slots.now.rows) (term_of e.now)) }
    requires temporaries { temps_of (term_of e.now) ≤ slots.now.temps }
    requires target { IsTarget (scope_of slots.now) (term_of e.now) target }

    ensures block { IfOk result (λ ss. block_of ss
        ≡ value_block (scope_of slots.now) (term_of e.now) target) }
    ensures puts { IfOk result (λ ss.
        PutsValue (scope_of slots.now) (term_of e.now) target (block_of ss)) }
{
    let mut block = Stmts::new(alloc);
    lower_into(alloc, e, slots, target, &mut block)?;
    Ok(block)
}
