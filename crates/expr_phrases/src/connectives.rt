//! The tests and the statements of `&&` and `||`.

ghost use Rattle.std.specs.Prelude.{◌≡◌, IfOk, OnOk};
ghost use Rattle.loop_ir.specs.StatementCopies.{test_of, block_of};
ghost use Rattle.expr_phrases.specs.Phrases.{connected_test, connected_block};
ghost use Rattle.expr_phrases.specs.PhraseCopies.{connective_of, Appends};

use crate::assignments::assignment;
use crate::boxes::boxed_test;
use loop_ir::{Stmt, Stmts, T, W};
use std::alloc::Global;
use strm_num::NoMemory;

/// The operators that look at their second part only where the first one doesn't decide.
#[derive(Clone, Copy)]
pub enum Connective {
    And,
    Or,
}

/// The test of both parts, where the second one needs no statements. The one error is `NoMemory`.
pub fn connected_test(
    alloc: Global,
    o: Connective,
    first: Box<T>,
    second: Box<T>,
) -> Result<Box<T>, NoMemory>
    ensures { IfOk result (λ t. test_of t.value
        ≡ connected_test (connective_of o) (test_of first.value) (test_of second.value)) }
{
    match o {
        Connective::And => boxed_test(alloc, T::Both(first, second)),
        Connective::Or => boxed_test(alloc, T::Either(first, second)),
    }
}

/// Appends the statement that runs those of the second part, which put its truth into the variable
/// v, only where the first one doesn't decide. The one error is `NoMemory`.
#[tactic(auto, using(crate::proofs::Appends::push_steps))]
pub fn connected_block(
    alloc: Global,
    o: Connective,
    first: Box<T>,
    second: Stmts,
    v: u32,
    block: &mut Stmts,
) -> Result<(), NoMemory>
    ensures { OnOk result (Appends block.old block.new
        (connected_block (connective_of o) (test_of first.value) (block_of second) v)) }
{
    match o {
        Connective::And => {
            let no = assignment(alloc, v, W::Const(0))?;
            block.push(Stmt::If(Box::into_inner(first), second, no))
        }
        Connective::Or => {
            let yes = assignment(alloc, v, W::Const(1))?;
            block.push(Stmt::If(Box::into_inner(first), yes, second))
        }
    }
}
