//! Statements that set a variable.

ghost use Rattle.std.specs.Prelude.{◌≡◌, IfOk, OnOk};
ghost use Rattle.loop_ir.specs.StatementCopies.{operand_of, test_of, block_of};
ghost use Rattle.expr_phrases.specs.Phrases.{set, set_truth};
ghost use Rattle.expr_phrases.specs.PhraseCopies.{Appends};

use loop_ir::{Stmt, Stmts, T, W};
use std::alloc::Global;
use strm_num::NoMemory;

/// The one statement that sets the variable v. The one error is `NoMemory`.
#[tactic(auto, using(crate::proofs::Appends::push_steps))]
pub fn assignment(alloc: Global, v: u32, w: W) -> Result<Stmts, NoMemory>
    ensures { IfOk result (λ made. block_of made ≡ set v (operand_of w)) }
{
    let mut made = Stmts::new(alloc);
    made.push(Stmt::Set(v, w))?;
    Ok(made)
}

/// Appends the statement that sets the variable v to 1 where the test holds, and else to 0. The one
/// error is `NoMemory`.
#[tactic(auto, using(crate::proofs::Appends::push_steps))]
pub fn set_truth(alloc: Global, v: u32, t: Box<T>, block: &mut Stmts) -> Result<(), NoMemory>
    ensures { OnOk result (Appends block.old block.new (set_truth v (test_of t.value))) }
{
    let one = assignment(alloc, v, W::Const(1))?;
    let zero = assignment(alloc, v, W::Const(0))?;
    block.push(Stmt::If(Box::into_inner(t), one, zero))
}
