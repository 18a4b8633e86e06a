//! The statements of expressions.

ghost use Rattle.std.specs.Prelude.{◌≡◌, ◌≢◌, ℕ, ◌+◌, ◌<◌, ◌^◌, max, length, slice_index, EachIndex, IfOk, OnOk};
ghost use Rattle.list_denotation.specs.Copies.{term_of};
ghost use Rattle.list_denotation.specs.Terms.{Bin};
ghost use Rattle.loop_ir.specs.StatementCopies.{operand_of, test_of};
ghost use Rattle.expr_forms.specs.Forms.{operand_block, operand_in, lowered_connected, lowered_choice, lowered_chosen, lowered_operation, lowered_multiple};
ghost use Rattle.expr_lower.specs.Lowering.{lowered_parts, lowered_term, lowered_into, lowered_test};
ghost use Rattle.expr_constants.specs.Constants.{constant_of};
ghost use Rattle.expr_lower.specs.Costs.{connected_temps, chosen_temps, operation_temps, parts_temps, temps_of};
ghost use Rattle.expr_lower.specs.Scopes.{EachLeaf, IsWordLeaf, IsBoundLeaf};
ghost use Rattle.expr_phrases.specs.PhraseCopies.{connective_of, Appends};
ghost use Rattle.expr_forms.specs.FormCopies.{form_of};

use crate::multiples::{dividend, multiple_divisor};
use expr_constants::constant;
use expr_forms::{
    Form, Part, condition, connected, is_neutral, keep, multiple, negated, operand, operation, put,
    word,
};
use expr_phrases::{Connective, opposite};
use list_denotation::{BinOp, Expr, Words};
use loop_ir::{Stmt, Stmts, T, W};
use std::alloc::Global;
use strm_num::{NoMemory, Word};

/// The variables that the statements of an expression may change: its target, and the temporaries
/// from the first one on.
#[derive(Clone, Copy)]
pub struct Frame {
    pub target: u32,
    pub first_temp: u32,
}

/// The variable in which the bound word k stands.
fn row_variable(rows: &Words, k: u32) -> u32
    requires bound { k < length rows.now }
    requires variables { EachIndex rows.now (λ i. slice_index rows.now i < 2 ^ 32) }
    ensures { result ≡ slice_index rows.now k }
{
    *rows.get(u64::from(k)) as u32
}

/// Appends the statements of `e`, whose bound words stand in the variables `rows`, and says where
/// its value is once they have run. A constant is one word.
#[cycle(terms)]
#[tactic(auto, using(crate::proofs::Appends::push_steps, crate::proofs::Leaves::word_leaves), unfolding(crate::specs::Lowering::lowered_term))]
pub fn lower_form(
    alloc: Global,
    e: &Expr,
    rows: &Words,
    frame: Frame,
    block: &mut Stmts,
) -> Result<Form, NoMemory>
    requires bound { EachLeaf (IsBoundLeaf (length rows.now)) (term_of e.now) }
    requires variables { EachIndex rows.now (λ i. slice_index rows.now i < 2 ^ 32) }
    requires few { frame.first_temp + temps_of (term_of e.now) < 2 ^ 32 }
    ensures block { OnOk result (Appends block.old block.new
        (lowered_term rows.now (term_of e.now) frame.target frame.first_temp).block) }
    ensures form { IfOk result (λ f. form_of f
        ≡ (lowered_term rows.now (term_of e.now) frame.target frame.first_temp).form) }
    ensures words { OnOk result (EachLeaf IsWordLeaf (term_of e.now)) }
{
    if let Some(c) = constant(e) {
        return word(alloc, W::Const(c));
    }
    lower_parts(alloc, e, rows, frame, block)
}

/// Appends the statements of an expression from those of its parts.
#[cycle(terms)]
#[tactic(auto, using(crate::proofs::Appends::push_steps), unfolding(crate::specs::Lowering::lowered_term))]
fn lower_parts(
    alloc: Global,
    e: &Expr,
    rows: &Words,
    frame: Frame,
    block: &mut Stmts,
) -> Result<Form, NoMemory>
    requires bound { EachLeaf (IsBoundLeaf (length rows.now)) (term_of e.now) }
    requires variables { EachIndex rows.now (λ i. slice_index rows.now i < 2 ^ 32) }
    requires few { frame.first_temp + parts_temps (term_of e.now) < 2 ^ 32 }
    ensures block { OnOk result (Appends block.old block.new
        (lowered_parts rows.now (term_of e.now) frame.target frame.first_temp).block) }
    ensures form { IfOk result (λ f. form_of f
        ≡ (lowered_parts rows.now (term_of e.now) frame.target frame.first_temp).form) }
{
    match e {
        Expr::Lit(c) => word(alloc, W::Const(*c)),
        Expr::Truth(b) => word(alloc, W::Const(u64::from(*b))),
        Expr::Var(k) => word(alloc, W::Var(row_variable(rows, *k))),
        Expr::Param(k) => word(alloc, W::Int(*k)),
        Expr::Len(k) => word(alloc, W::Len(*k)),
        Expr::Neg(a) => {
            let form = lower_form(alloc, a, rows, frame, block)?;
            negated(alloc, form, frame.target, block)
        }
        Expr::Not(a) => {
            let holds = lower_condition(alloc, a, rows, frame, block)?;
            Ok(Form::Test(opposite(alloc, holds)?))
        }
        Expr::Bin(op, a, b) => lower_binary(alloc, *op, a, b, rows, frame, block),
        Expr::And(a, b) => lower_connective(alloc, Connective::And, a, b, rows, frame, block),
        Expr::Or(a, b) => lower_connective(alloc, Connective::Or, a, b, rows, frame, block),
        Expr::If(c, a, b) => lower_choice(alloc, c, a, b, rows, frame, block),
    }
}

/// Appends the statements of a comparison of a remainder with 0, or of any other operation.
#[cycle(terms)]
#[tactic(auto, using(crate::proofs::Appends::push_steps, crate::proofs::MultipleTests::binary_steps), unfolding(crate::specs::Lowering::lowered_term))]
fn lower_binary(
    alloc: Global,
    op: BinOp,
    a: &Expr,
    b: &Expr,
    rows: &Words,
    frame: Frame,
    block: &mut Stmts,
) -> Result<Form, NoMemory>
    requires bound { EachLeaf (IsBoundLeaf (length rows.now))
        (Bin op (term_of a.now) (term_of b.now)) }
    requires variables { EachIndex rows.now (λ i. slice_index rows.now i < 2 ^ 32) }
    requires few { frame.first_temp + parts_temps (Bin op (term_of a.now) (term_of b.now))
        < 2 ^ 32 }
    ensures block { OnOk result (Appends block.old block.new
        (lowered_parts rows.now (Bin op (term_of a.now) (term_of b.now)) frame.target
        frame.first_temp).block) }
    ensures form { IfOk result (λ f. form_of f
        ≡ (lowered_parts rows.now (Bin op (term_of a.now) (term_of b.now)) frame.target
        frame.first_temp).form) }
{
    if let Some(c) = multiple_divisor(op, a, b) {
        return lower_multiple(alloc, op, dividend(a), c, rows, frame, block);
    }
    if let Some(c) = multiple_divisor(op, b, a) {
        return lower_multiple(alloc, op, dividend(b), c, rows, frame, block);
    }
    lower_operation(alloc, op, a, b, rows, frame, block)
}

/// Appends the statements of the comparison with 0 of the remainder of `x` by a constant.
#[cycle(terms)]
#[tactic(auto, using(crate::proofs::Appends::push_steps), unfolding(crate::specs::Lowering::lowered_term))]
fn lower_multiple(
    alloc: Global,
    op: BinOp,
    x: &Expr,
    c: Word,
    rows: &Words,
    frame: Frame,
    block: &mut Stmts,
) -> Result<Form, NoMemory>
    requires divisor { c ≢ 0 }
    requires bound { EachLeaf (IsBoundLeaf (length rows.now)) (term_of x.now) }
    requires variables { EachIndex rows.now (λ i. slice_index rows.now i < 2 ^ 32) }
    requires few { frame.first_temp + temps_of (term_of x.now) < 2 ^ 32 }
    ensures block { OnOk result (Appends block.old block.new
        (lowered_multiple op (term_of x.now) c
        (lowered_term rows.now (term_of x.now) frame.target frame.first_temp)
        frame.target).block) }
    ensures form { IfOk result (λ f. form_of f
        ≡ (lowered_multiple op (term_of x.now) c
        (lowered_term rows.now (term_of x.now) frame.target frame.first_temp)
        frame.target).form) }
{
    let form = lower_form(alloc, x, rows, frame, block)?;
    let part = Part {
        e: x,
        form,
        at: frame.target,
    };
    multiple(alloc, op, part, c, block)
}

/// Appends the statements of an operation. The right operand has the first temporary as its target.
#[cycle(terms)]
#[tactic(auto, using(crate::proofs::Appends::push_steps), unfolding(crate::specs::Lowering::lowered_term))]
fn lower_operation(
    alloc: Global,
    op: BinOp,
    a: &Expr,
    b: &Expr,
    rows: &Words,
    frame: Frame,
    block: &mut Stmts,
) -> Result<Form, NoMemory>
    requires bound { EachLeaf (IsBoundLeaf (length rows.now))
        (Bin op (term_of a.now) (term_of b.now)) }
    requires variables { EachIndex rows.now (λ i. slice_index rows.now i < 2 ^ 32) }
    requires few { frame.first_temp + operation_temps op (term_of a.now) (term_of b.now)
        < 2 ^ 32 }
    ensures block { OnOk result (Appends block.old block.new
        (lowered_operation op (term_of a.now) (term_of b.now)
        (lowered_term rows.now (term_of a.now) frame.target frame.first_temp)
        (lowered_term rows.now (term_of b.now) frame.first_temp (frame.first_temp + 1))
        frame.target frame.first_temp).block) }
    ensures form { IfOk result (λ f. form_of f
        ≡ (lowered_operation op (term_of a.now) (term_of b.now)
        (lowered_term rows.now (term_of a.now) frame.target frame.first_temp)
        (lowered_term rows.now (term_of b.now) frame.first_temp (frame.first_temp + 1))
        frame.target frame.first_temp).form) }
{
    let t = frame.first_temp;
    let form = lower_form(alloc, a, rows, frame, block)?;
    let form = keep(alloc, op, a, form, frame.target, block)?;
    let left = Part {
        e: a,
        form,
        at: frame.target,
    };
    // A right operand that is a word as it stands uses neither t nor a temporary.
    let behind = Frame {
        target: t,
        first_temp: t.saturating_add(1),
    };
    let form = lower_form(alloc, b, rows, behind, block)?;
    operation(alloc, op, left, Part { e: b, form, at: t }, block)
}

/// Appends the statements of `&&` or `||`. Where one part is constant, the other one decides.
#[cycle(terms)]
#[tactic(auto, using(crate::proofs::Appends::push_steps), unfolding(crate::specs::Lowering::lowered_term))]
fn lower_connective(
    alloc: Global,
    o: Connective,
    a: &Expr,
    b: &Expr,
    rows: &Words,
    frame: Frame,
    block: &mut Stmts,
) -> Result<Form, NoMemory>
    requires bound { EachLeaf (IsBoundLeaf (length rows.now)) (term_of a.now)
        × EachLeaf (IsBoundLeaf (length rows.now)) (term_of b.now) }
    requires variables { EachIndex rows.now (λ i. slice_index rows.now i < 2 ^ 32) }
    requires few { frame.first_temp + connected_temps (constant_of (term_of a.now))
        (temps_of (term_of a.now)) (temps_of (term_of b.now)) < 2 ^ 32 }
    ensures block { OnOk result (Appends block.old block.new
        (lowered_connected (connective_of o) (constant_of (term_of a.now))
        (constant_of (term_of b.now))
        (lowered_test rows.now (term_of a.now) frame.target frame.first_temp)
        (lowered_test rows.now (term_of b.now) frame.target frame.first_temp)
        frame.target).block) }
    ensures form { IfOk result (λ f. form_of f
        ≡ (lowered_connected (connective_of o) (constant_of (term_of a.now))
        (constant_of (term_of b.now))
        (lowered_test rows.now (term_of a.now) frame.target frame.first_temp)
        (lowered_test rows.now (term_of b.now) frame.target frame.first_temp)
        frame.target).form) }
{
    if constant(a).is_some() {
        return Ok(Form::Test(lower_condition(alloc, b, rows, frame, block)?));
    }
    let first = lower_condition(alloc, a, rows, frame, block)?;
    if is_neutral(o, constant(b)) {
        return Ok(Form::Test(first));
    }
    let mut more = Stmts::new(alloc);
    let second = lower_condition(alloc, b, rows, frame, &mut more)?;
    connected(alloc, o, first, more, second, frame.target, block)
}

/// Appends the statements of the branch that a constant condition chooses, and else of a choice.
#[cycle(terms)]
#[tactic(auto, using(crate::proofs::Appends::push_steps), unfolding(crate::specs::Lowering::lowered_term))]
fn lower_choice(
    alloc: Global,
    c: &Expr,
    a: &Expr,
    b: &Expr,
    rows: &Words,
    frame: Frame,
    block: &mut Stmts,
) -> Result<Form, NoMemory>
    requires bound { EachLeaf (IsBoundLeaf (length rows.now)) (term_of c.now)
        × (EachLeaf (IsBoundLeaf (length rows.now)) (term_of a.now)
        × EachLeaf (IsBoundLeaf (length rows.now)) (term_of b.now)) }
    requires variables { EachIndex rows.now (λ i. slice_index rows.now i < 2 ^ 32) }
    requires few { frame.first_temp + chosen_temps (constant_of (term_of c.now))
        (temps_of (term_of c.now)) (temps_of (term_of a.now)) (temps_of (term_of b.now))
        < 2 ^ 32 }
    ensures block { OnOk result (Appends block.old block.new
        (lowered_chosen (constant_of (term_of c.now))
        (lowered_test rows.now (term_of c.now) frame.target frame.first_temp)
        (lowered_term rows.now (term_of a.now) frame.target frame.first_temp)
        (lowered_term rows.now (term_of b.now) frame.target frame.first_temp)
        frame.target).block) }
    ensures form { IfOk result (λ f. form_of f
        ≡ (lowered_chosen (constant_of (term_of c.now))
        (lowered_test rows.now (term_of c.now) frame.target frame.first_temp)
        (lowered_term rows.now (term_of a.now) frame.target frame.first_temp)
        (lowered_term rows.now (term_of b.now) frame.target frame.first_temp)
        frame.target).form) }
{
    match constant(c) {
        Some(0) => lower_form(alloc, b, rows, frame, block),
        Some(_) => lower_form(alloc, a, rows, frame, block),
        None => {
            lower_branches(alloc, c, a, b, rows, frame, block)?;
            Ok(Form::InTarget)
        }
    }
}

/// Appends the statements that run one of two branches, which puts its value into the target.
#[cycle(terms)]
#[tactic(auto, using(crate::proofs::Appends::push_steps), unfolding(crate::specs::Lowering::lowered_term))]
fn lower_branches(
    alloc: Global,
    c: &Expr,
    a: &Expr,
    b: &Expr,
    rows: &Words,
    frame: Frame,
    block: &mut Stmts,
) -> Result<(), NoMemory>
    requires bound { EachLeaf (IsBoundLeaf (length rows.now)) (term_of c.now)
        × (EachLeaf (IsBoundLeaf (length rows.now)) (term_of a.now)
        × EachLeaf (IsBoundLeaf (length rows.now)) (term_of b.now)) }
    requires variables { EachIndex rows.now (λ i. slice_index rows.now i < 2 ^ 32) }
    requires few { frame.first_temp + max (temps_of (term_of c.now))
        (max (temps_of (term_of a.now)) (temps_of (term_of b.now))) < 2 ^ 32 }
    ensures block { OnOk result (Appends block.old block.new
        (lowered_choice (lowered_test rows.now (term_of c.now) frame.target frame.first_temp)
        (lowered_into rows.now (term_of a.now) frame.target frame.first_temp)
        (lowered_into rows.now (term_of b.now) frame.target frame.first_temp)).block) }
{
    let holds = lower_condition(alloc, c, rows, frame, block)?;
    let mut then = Stmts::new(alloc);
    put_value(alloc, a, rows, frame, &mut then)?;
    let mut otherwise = Stmts::new(alloc);
    put_value(alloc, b, rows, frame, &mut otherwise)?;
    block.push(Stmt::If(Box::into_inner(holds), then, otherwise))
}

/// Appends the statements of `e`, and gives the test that holds then where its value is true.
#[cycle(terms)]
#[tactic(auto, using(crate::proofs::Appends::push_steps), unfolding(crate::specs::Lowering::lowered_term))]
pub fn lower_condition(
    alloc: Global,
    e: &Expr,
    rows: &Words,
    frame: Frame,
    block: &mut Stmts,
) -> Result<Box<T>, NoMemory>
    requires bound { EachLeaf (IsBoundLeaf (length rows.now)) (term_of e.now) }
    requires variables { EachIndex rows.now (λ i. slice_index rows.now i < 2 ^ 32) }
    requires few { frame.first_temp + temps_of (term_of e.now) < 2 ^ 32 }
    ensures block { OnOk result (Appends block.old block.new
        (lowered_test rows.now (term_of e.now) frame.target frame.first_temp).block) }
    ensures test { IfOk result (λ holds. test_of holds.value
        ≡ (lowered_test rows.now (term_of e.now) frame.target frame.first_temp).test) }
    ensures words { OnOk result (EachLeaf IsWordLeaf (term_of e.now)) }
{
    let form = lower_form(alloc, e, rows, frame, block)?;
    condition(alloc, form, frame.target)
}

/// Appends the statements of `e`, and gives the word that has its value then.
#[tactic(auto, using(crate::proofs::Appends::push_steps), unfolding(crate::specs::Lowering::lowered_term))]
pub fn lower_word(
    alloc: Global,
    e: &Expr,
    rows: &Words,
    frame: Frame,
    block: &mut Stmts,
) -> Result<Box<W>, NoMemory>
    requires bound { EachLeaf (IsBoundLeaf (length rows.now)) (term_of e.now) }
    requires variables { EachIndex rows.now (λ i. slice_index rows.now i < 2 ^ 32) }
    requires few { frame.first_temp + temps_of (term_of e.now) < 2 ^ 32 }
    ensures block { OnOk result (Appends block.old block.new
        (operand_block (lowered_term rows.now (term_of e.now) frame.target frame.first_temp)
        frame.target)) }
    ensures word { IfOk result (λ w. operand_of w.value
        ≡ operand_in (lowered_term rows.now (term_of e.now) frame.target frame.first_temp).form
        frame.target) }
    ensures words { OnOk result (EachLeaf IsWordLeaf (term_of e.now)) }
{
    let form = lower_form(alloc, e, rows, frame, block)?;
    operand(alloc, form, frame.target, block)
}

/// Appends the statements that put the value of `e` into the target.
#[cycle(terms)]
#[tactic(auto, using(crate::proofs::Appends::push_steps), unfolding(crate::specs::Lowering::lowered_term))]
pub fn put_value(
    alloc: Global,
    e: &Expr,
    rows: &Words,
    frame: Frame,
    block: &mut Stmts,
) -> Result<(), NoMemory>
    requires bound { EachLeaf (IsBoundLeaf (length rows.now)) (term_of e.now) }
    requires variables { EachIndex rows.now (λ i. slice_index rows.now i < 2 ^ 32) }
    requires few { frame.first_temp + temps_of (term_of e.now) < 2 ^ 32 }
    ensures block { OnOk result (Appends block.old block.new
        (lowered_into rows.now (term_of e.now) frame.target frame.first_temp)) }
    ensures words { OnOk result (EachLeaf IsWordLeaf (term_of e.now)) }
{
    let form = lower_form(alloc, e, rows, frame, block)?;
    put(alloc, form, frame.target, block)
}
