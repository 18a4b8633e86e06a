//! The statements of `&&` and `||`, from the tests of both parts.

ghost use Rattle.std.specs.Prelude.{◌≡◌, IfOk, OnOk};
ghost use Rattle.loop_ir.specs.StatementCopies.{test_of, block_of};
ghost use Rattle.expr_forms.specs.Forms.{connective_rest, connective_form, is_neutral};
ghost use Rattle.expr_phrases.specs.PhraseCopies.{connective_of, Appends};
ghost use Rattle.expr_forms.specs.FormCopies.{form_of, test_after};

use crate::forms::Form;
use expr_phrases::{Connective, connected_block, connected_test, set_truth};
use loop_ir::{Stmts, T};
use std::alloc::Global;
use strm_num::{NoMemory, Word};

/// Appends the statements of `&&` or `||` behind those of the first part, where `more` are those of
/// the second part.
#[tactic(auto, using(crate::proofs::Appends::choice_steps))]
pub fn connected(
    alloc: Global,
    o: Connective,
    first: Box<T>,
    mut more: Stmts,
    second: Box<T>,
    v: u32,
    block: &mut Stmts,
) -> Result<Form, NoMemory>
    ensures block { OnOk result (Appends block.old block.new
        (connective_rest (connective_of o) (test_of first.value)
        (test_after (block_of more) (test_of second.value)) v)) }
    ensures form { IfOk result (λ f. form_of f
        ≡ connective_form (connective_of o) (test_of first.value)
        (test_after (block_of more) (test_of second.value))) }
{
    if more.is_empty() {
        return Ok(Form::Test(connected_test(alloc, o, first, second)?));
    }
    set_truth(alloc, v, second, &mut more)?;
    connected_block(alloc, o, first, more, v, block)?;
    Ok(Form::InTarget)
}

/// Whether a second part that is this constant leaves it to the first one.
pub fn is_neutral(o: Connective, second: Option<Word>) -> bool
    ensures { result ≡ is_neutral (connective_of o) second }
{
    match (o, second) {
        (Connective::And, Some(c)) => c != 0,
        (Connective::Or, Some(c)) => c == 0,
        (_, None) => false,
    }
}
