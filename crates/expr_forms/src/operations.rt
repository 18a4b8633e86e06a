//! The statements of operations, once those of their operands have run.

ghost use Rattle.std.specs.Prelude.{◌≡◌, ◌≢◌, if◌then◌else◌, IfOk, OnOk};
ghost use Rattle.list_denotation.specs.Copies.{term_of};
ghost use Rattle.list_denotation.specs.Typing.{is_division};
ghost use Rattle.loop_ir.specs.Statements.{Nil};
ghost use Rattle.loop_ir.specs.StatementCopies.{operand_of};
ghost use Rattle.expr_constants.specs.Constants.{constant_of};
ghost use Rattle.expr_constants.specs.Simple.{is_simple};
ghost use Rattle.expr_forms.specs.Forms.{InTarget, is_word, operand_rest, operand_in, target_rest, division_operand_in, division_operand_block, lowered_minus, lowered_arithmetic, lowered_comparison, lowered_division, lowered_operation, lowered_multiple};
ghost use Rattle.expr_phrases.specs.PhraseCopies.{division_of, Appends};
ghost use Rattle.expr_forms.specs.FormCopies.{form_of, without_statements, as_operand, kept_form, kept_rest};

use crate::forms::{Form, operand, put};
use expr_constants::{constant, is_simple};
use expr_phrases::{
    Division, Side, boxed_word, by_divisor, comparison_test, divides_modulus, magnitude_block,
    minus, multiple_test, set_truth,
};
use list_denotation::{BinOp, Expr, is_division};
use loop_ir::{Stmt, Stmts, W, WOp};
use std::alloc::Global;
use strm_num::{NoMemory, Word, magnitude};

/// An operand whose statements have run: the expression, where its value is to be found, and its
/// target.
#[derive(Drop)]
pub struct Part<'a> {
    pub e: &'a Expr,
    pub form: Form,
    pub at: u32,
}

/// Appends the statements of 0 minus the value.
#[tactic(auto, using(crate::proofs::Appends::push_steps))]
pub fn negated(alloc: Global, f: Form, v: u32, block: &mut Stmts) -> Result<Form, NoMemory>
    ensures block { OnOk result (Appends block.old block.new
        (lowered_minus (without_statements (form_of f)) v).block) }
    ensures form { IfOk result (λ made. form_of made
        ≡ (lowered_minus (without_statements (form_of f)) v).form) }
{
    match f {
        Form::Word(w) => Ok(Form::Word(minus(alloc, w)?)),
        f => {
            let _word = operand(alloc, f, v, block)?;
            let negated = minus(alloc, boxed_word(alloc, W::Var(v))?)?;
            block.push(Stmt::Set(v, Box::into_inner(negated)))?;
            Ok(Form::InTarget)
        }
    }
}

/// Appends the statements that keep a left operand while the right one is computed: a truth is put
/// into the target, and so is what a division can't use more than once.
#[tactic(auto, using(crate::proofs::Appends::push_steps))]
pub fn keep(
    alloc: Global,
    op: BinOp,
    e: &Expr,
    f: Form,
    v: u32,
    block: &mut Stmts,
) -> Result<Form, NoMemory>
    ensures block { OnOk result (Appends block.old block.new
        (kept_rest op (term_of e.now) (form_of f) v)) }
    ensures form { IfOk result (λ made. form_of made ≡ kept_form op (term_of e.now) (form_of f)) }
{
    if is_division(op) {
        keep_divided(alloc, e, f, v, block)
    } else {
        as_operand(alloc, f, v, block)
    }
}

/// A constant or a name stays as it is. Else the statements that put the value into v are appended.
#[tactic(auto, using(crate::proofs::Appends::push_steps))]
fn keep_divided(
    alloc: Global,
    e: &Expr,
    f: Form,
    v: u32,
    block: &mut Stmts,
) -> Result<Form, NoMemory>
    ensures block { OnOk result (Appends block.old block.new
        (if is_simple (term_of e.now) then Nil else target_rest (form_of f) v)) }
    ensures form { IfOk result (λ made. form_of made
        ≡ (if is_simple (term_of e.now) then form_of f else InTarget)) }
{
    if is_simple(e) {
        return Ok(f);
    }
    put(alloc, f, v, block)?;
    Ok(Form::InTarget)
}

/// A word stays as it is. Else the statements that put the value into v are appended.
#[tactic(auto, using(crate::proofs::Appends::push_steps))]
fn as_operand(alloc: Global, f: Form, v: u32, block: &mut Stmts) -> Result<Form, NoMemory>
    ensures block { OnOk result (Appends block.old block.new (operand_rest (form_of f) v)) }
    ensures form { IfOk result (λ made. form_of made ≡ as_operand (form_of f)) }
{
    match f {
        Form::Word(w) => Ok(Form::Word(w)),
        Form::Test(t) => {
            set_truth(alloc, v, t, block)?;
            Ok(Form::InTarget)
        }
        Form::InTarget => Ok(Form::InTarget),
    }
}

/// Appends the statements of an operation whose left operand is kept. The target is that of the
/// left operand.
pub fn operation(
    alloc: Global,
    op: BinOp,
    left: Part,
    right: Part,
    block: &mut Stmts,
) -> Result<Form, NoMemory>
    ensures block { OnOk result (Appends block.old block.new
        (lowered_operation op (term_of left.entry.e.now) (term_of right.entry.e.now)
        (without_statements (form_of left.entry.form))
        (without_statements (form_of right.entry.form)) left.entry.at right.entry.at).block) }
    ensures form { IfOk result (λ made. form_of made
        ≡ (lowered_operation op (term_of left.entry.e.now) (term_of right.entry.e.now)
        (without_statements (form_of left.entry.form))
        (without_statements (form_of right.entry.form)) left.entry.at right.entry.at).form) }
{
    match op {
        BinOp::Add => arithmetic(alloc, WOp::Add, left, right, block),
        BinOp::Sub => arithmetic(alloc, WOp::Sub, left, right, block),
        BinOp::Mul => arithmetic(alloc, WOp::Mul, left, right, block),
        BinOp::Div => division(alloc, Division::Quotient, left, right, block),
        BinOp::Rem => division(alloc, Division::Remainder, left, right, block),
        BinOp::Eq | BinOp::Ne | BinOp::Lt | BinOp::Le | BinOp::Gt | BinOp::Ge => {
            comparison(alloc, op, left, right, block)
        }
    }
}

/// Appends the statements of a sum, a difference or a product. They are none where both operands
/// are words.
#[tactic(auto, using(crate::proofs::Appends::push_steps))]
fn arithmetic(
    alloc: Global,
    op: WOp,
    left: Part,
    right: Part,
    block: &mut Stmts,
) -> Result<Form, NoMemory>
    ensures block { OnOk result (Appends block.old block.new
        (lowered_arithmetic op (without_statements (form_of left.entry.form))
        (without_statements (form_of right.entry.form)) left.entry.at right.entry.at).block) }
    ensures form { IfOk result (λ made. form_of made
        ≡ (lowered_arithmetic op (without_statements (form_of left.entry.form))
        (without_statements (form_of right.entry.form)) left.entry.at right.entry.at).form) }
{
    let in_place = is_word(&left.form) && is_word(&right.form);
    let x = operand(alloc, left.form, left.at, block)?;
    let y = operand(alloc, right.form, right.at, block)?;
    let w = boxed_word(alloc, W::Bin(op, x, y))?;
    if in_place {
        return Ok(Form::Word(w));
    }
    block.push(Stmt::Set(left.at, Box::into_inner(w)))?;
    Ok(Form::InTarget)
}

fn is_word(f: &Form) -> bool
    ensures { result ≡ is_word (form_of f.now) }
{
    matches!(f, Form::Word(_))
}

/// Appends the statements of a comparison, whose value is a test.
#[tactic(auto, using(crate::proofs::Appends::push_steps))]
fn comparison(
    alloc: Global,
    op: BinOp,
    left: Part,
    right: Part,
    block: &mut Stmts,
) -> Result<Form, NoMemory>
    ensures block { OnOk result (Appends block.old block.new
        (lowered_comparison op (without_statements (form_of left.entry.form))
        (without_statements (form_of right.entry.form)) left.entry.at right.entry.at).block) }
    ensures form { IfOk result (λ made. form_of made
        ≡ (lowered_comparison op (without_statements (form_of left.entry.form))
        (without_statements (form_of right.entry.form)) left.entry.at right.entry.at).form) }
{
    let x = operand(alloc, left.form, left.at, block)?;
    let y = operand(alloc, right.form, right.at, block)?;
    Ok(Form::Test(comparison_test(alloc, op, x, y)?))
}

/// Appends the statements of a division, whose value is in the target.
#[tactic(auto, using(crate::proofs::Appends::push_steps))]
fn division(
    alloc: Global,
    d: Division,
    left: Part,
    right: Part,
    block: &mut Stmts,
) -> Result<Form, NoMemory>
    ensures block { OnOk result (Appends block.old block.new
        (lowered_division (division_of d) (term_of left.entry.e.now) (term_of right.entry.e.now)
        (without_statements (form_of left.entry.form))
        (without_statements (form_of right.entry.form)) left.entry.at right.entry.at).block) }
    ensures form { IfOk result (λ made. form_of made ≡ InTarget) }
{
    let v = left.at;
    let x = division_operand(alloc, left, block)?;
    let y = division_operand(alloc, right, block)?;
    by_divisor(alloc, d, &x, &y, v, block)?;
    Ok(Form::InTarget)
}

/// Appends the statements of the comparison with 0 of the remainder of a dividend by the constant `c`,
/// whose value is a test.
#[tactic(auto, using(crate::proofs::Appends::push_steps, crate::proofs::Appends::magnitude_positive))]
pub fn multiple(
    alloc: Global,
    op: BinOp,
    dividend: Part,
    c: Word,
    block: &mut Stmts,
) -> Result<Form, NoMemory>
    requires { c ≢ 0 }
    ensures block { OnOk result (Appends block.old block.new
        (lowered_multiple op (term_of dividend.entry.e.now) c
        (without_statements (form_of dividend.entry.form)) dividend.entry.at).block) }
    ensures form { IfOk result (λ made. form_of made
        ≡ (lowered_multiple op (term_of dividend.entry.e.now) c
        (without_statements (form_of dividend.entry.form)) dividend.entry.at).form) }
{
    let v = dividend.at;
    let m = magnitude(c);
    if divides_modulus(m) {
        let w = operand(alloc, dividend.form, v, block)?;
        return Ok(Form::Test(multiple_test(alloc, op, w, m)?));
    }
    let side = division_operand(alloc, dividend, block)?;
    magnitude_block(alloc, side.word, v, block)?;
    let w = boxed_word(alloc, W::Var(v))?;
    Ok(Form::Test(multiple_test(alloc, op, w, m)?))
}

/// The operand of a division. What isn't a constant or a name is put into its target first.
#[tactic(auto, using(crate::proofs::Appends::push_steps))]
fn division_operand(alloc: Global, part: Part, block: &mut Stmts) -> Result<Side, NoMemory>
    ensures block { OnOk result (Appends block.old block.new
        (division_operand_block (term_of part.entry.e.now)
        (without_statements (form_of part.entry.form)) part.entry.at)) }
    ensures constant { IfOk result (λ side. side.constant ≡ constant_of (term_of part.entry.e.now)) }
    ensures word { IfOk result (λ side. operand_of side.word.value
        ≡ division_operand_in (term_of part.entry.e.now) (form_of part.entry.form) part.entry.at) }
{
    let constant = constant(part.e);
    if is_simple(part.e) {
        let word = named(alloc, part.form, part.at)?;
        return Ok(Side { word, constant });
    }
    put(alloc, part.form, part.at, block)?;
    let word = boxed_word(alloc, W::Var(part.at))?;
    Ok(Side { word, constant })
}

/// The word of a value: its own, or the target.
fn named(alloc: Global, f: Form, v: u32) -> Result<Box<W>, NoMemory>
    ensures { IfOk result (λ w. operand_of w.value ≡ operand_in (form_of f) v) }
{
    match f {
        Form::Word(w) => Ok(w),
        Form::Test(_) | Form::InTarget => boxed_word(alloc, W::Var(v)),
    }
}
