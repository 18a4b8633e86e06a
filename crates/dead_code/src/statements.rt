//! Statements that are appended with other numbers for their variables.

ghost use Rattle.std.specs.Prelude.{◌≡◌, OnOk};
ghost use Rattle.expr_phrases.specs.PhraseCopies.{Appends};
ghost use Rattle.loop_ir.specs.StatementCopies.{operand_of, test_of, block_of};
ghost use Rattle.loop_ir.specs.Statements.{Set, Read, If, Loop, Emit, EndRow, Ret, Nil, Cons};
ghost use Rattle.dead_code.specs.Live.{number_in, renumbered, renumbered_test};

use crate::renumbering::{number_in, renumbered, renumbered_test};
use loop_ir::{Stmt, Stmts, T, Verdict, W};
use std::alloc::Global;
use strm_num::NoMemory;

/// Appends a statement that sets a variable.
#[tactic(auto, using(crate::proofs::Appends::push_steps))]
pub fn push_set(
    alloc: Global,
    v: u32,
    w: &W,
    numbers: &[u32],
    made: &mut Stmts,
) -> Result<(), NoMemory>
    ensures { OnOk result (Appends made.old made.new
        (Cons (Set (number_in numbers.now v) (renumbered numbers.now (operand_of w.now))) Nil)) }
{
    let w = renumbered(alloc, w, numbers)?;
    made.push(Stmt::Set(number_in(numbers, v), Box::into_inner(w)))
}

/// Appends a statement that sets a variable to an item of an array.
#[tactic(auto, using(crate::proofs::Appends::push_steps))]
pub fn push_read(
    alloc: Global,
    v: u32,
    a: u32,
    w: &W,
    numbers: &[u32],
    made: &mut Stmts,
) -> Result<(), NoMemory>
    ensures { OnOk result (Appends made.old made.new
        (Cons (Read (number_in numbers.now v) a (renumbered numbers.now (operand_of w.now))) Nil)) }
{
    let w = renumbered(alloc, w, numbers)?;
    made.push(Stmt::Read(number_in(numbers, v), a, Box::into_inner(w)))
}

/// Appends a choice of these branches, whose variables have their numbers already.
#[tactic(auto, using(crate::proofs::Appends::push_steps))]
pub fn push_if(
    alloc: Global,
    t: &T,
    a: Stmts,
    b: Stmts,
    numbers: &[u32],
    made: &mut Stmts,
) -> Result<(), NoMemory>
    ensures { OnOk result (Appends made.old made.new
        (Cons (If (renumbered_test numbers.now (test_of t.now)) (block_of a) (block_of b)) Nil)) }
{
    let t = renumbered_test(alloc, t, numbers)?;
    made.push(Stmt::If(Box::into_inner(t), a, b))
}

/// Appends a loop with this body, whose variables have their numbers already.
#[tactic(auto, using(crate::proofs::Appends::push_steps))]
pub fn push_loop(
    alloc: Global,
    t: &T,
    body: Stmts,
    numbers: &[u32],
    made: &mut Stmts,
) -> Result<(), NoMemory>
    ensures { OnOk result (Appends made.old made.new
        (Cons (Loop (renumbered_test numbers.now (test_of t.now)) (block_of body)) Nil)) }
{
    let t = renumbered_test(alloc, t, numbers)?;
    made.push(Stmt::Loop(Box::into_inner(t), body))
}

/// Appends a statement that writes a word.
#[tactic(auto, using(crate::proofs::Appends::push_steps))]
pub fn push_emit(alloc: Global, w: &W, numbers: &[u32], made: &mut Stmts) -> Result<(), NoMemory>
    ensures { OnOk result (Appends made.old made.new
        (Cons (Emit (renumbered numbers.now (operand_of w.now))) Nil)) }
{
    let w = renumbered(alloc, w, numbers)?;
    made.push(Stmt::Emit(Box::into_inner(w)))
}

/// Appends the end of a row.
#[tactic(auto, using(crate::proofs::Appends::push_steps))]
pub fn push_end(made: &mut Stmts) -> Result<(), NoMemory>
    ensures { OnOk result (Appends made.old made.new (Cons EndRow Nil)) }
{
    made.push(Stmt::EndRow)
}

/// Appends a return.
#[tactic(auto, using(crate::proofs::Appends::push_steps))]
pub fn push_return(v: Verdict, made: &mut Stmts) -> Result<(), NoMemory>
    ensures { OnOk result (Appends made.old made.new (Cons (Ret v) Nil)) }
{
    made.push(Stmt::Ret(v))
}
