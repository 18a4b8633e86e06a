//! Where the value of an expression is to be found, and its uses.

ghost use Rattle.std.specs.Prelude.{◌≡◌, IfOk, OnOk};
ghost use Rattle.loop_ir.specs.StatementCopies.{operand_of, test_of};
ghost use Rattle.expr_forms.specs.Forms.{AWord, operand_rest, operand_in, word_test, condition_in, target_rest};
ghost use Rattle.expr_phrases.specs.PhraseCopies.{Appends};
ghost use Rattle.expr_forms.specs.FormCopies.{form_of};

use expr_phrases::{boxed_test, boxed_word, is_not_zero, set_truth};
use loop_ir::{Stmt, Stmts, T, W};
use std::alloc::Global;
use strm_num::NoMemory;

/// Where the value of an expression is to be found once its statements have run: a word, the truth
/// of a test, or the target variable.
#[derive(Drop)]
pub enum Form {
    Word(Box<W>),
    Test(Box<T>),
    InTarget,
}

/// The value is this word.
pub fn word(alloc: Global, w: W) -> Result<Form, NoMemory>
    ensures { IfOk result (λ f. form_of f ≡ AWord (operand_of w)) }
{
    Ok(Form::Word(boxed_word(alloc, w)?))
}

/// The value as a word. A truth is put into v first.
#[tactic(auto, using(crate::proofs::Appends::push_steps))]
pub fn operand(alloc: Global, f: Form, v: u32, block: &mut Stmts) -> Result<Box<W>, NoMemory>
    ensures block { OnOk result (Appends block.old block.new (operand_rest (form_of f) v)) }
    ensures word { IfOk result (λ w. operand_of w.value ≡ operand_in (form_of f) v) }
{
    match f {
        Form::Word(w) => Ok(w),
        Form::Test(t) => {
            set_truth(alloc, v, t, block)?;
            boxed_word(alloc, W::Var(v))
        }
        Form::InTarget => boxed_word(alloc, W::Var(v)),
    }
}

/// Whether a word is true. Of a constant other than 0 the test always holds.
fn word_test(alloc: Global, w: Box<W>) -> Result<Box<T>, NoMemory>
    ensures { IfOk result (λ t. test_of t.value ≡ word_test (operand_of w.value)) }
{
    if matches!(&*w, W::Const(c) if *c != 0) {
        return boxed_test(alloc, T::Same(W::Const(0), W::Const(0)));
    }
    is_not_zero(alloc, Box::into_inner(w))
}

/// The value as a condition.
pub fn condition(alloc: Global, f: Form, v: u32) -> Result<Box<T>, NoMemory>
    ensures { IfOk result (λ t. test_of t.value ≡ condition_in (form_of f) v) }
{
    match f {
        Form::Word(w) => word_test(alloc, w),
        Form::Test(t) => Ok(t),
        Form::InTarget => is_not_zero(alloc, W::Var(v)),
    }
}

/// Appends the statements that put the value into v.
#[tactic(auto, using(crate::proofs::Appends::push_steps))]
pub fn put(alloc: Global, f: Form, v: u32, block: &mut Stmts) -> Result<(), NoMemory>
    ensures { OnOk result (Appends block.old block.new (target_rest (form_of f) v)) }
{
    match f {
        Form::Word(w) => block.push(Stmt::Set(v, Box::into_inner(w))),
        Form::Test(t) => set_truth(alloc, v, t, block),
        Form::InTarget => Ok(()),
    }
}
