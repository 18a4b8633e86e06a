//! The statements of which something is needed.

ghost use Rattle.std.specs.Prelude.{◌≡◌, OnOk};
ghost use Rattle.expr_phrases.specs.PhraseCopies.{Appends};
ghost use Rattle.loop_ir.specs.StatementCopies.{operand_of, test_of, statement_of, block_of};
ghost use Rattle.loop_ir.specs.Statements.{Set, Read};
ghost use Rattle.dead_code.specs.Live.{number_in, renumbered, renumbered_test, only_if, choice, live_statement, live};
ghost use Rattle.dead_code.specs.Needs.{is_marked};

use crate::needs::is_marked;
use crate::statements::{
    push_emit, push_end, push_if, push_loop, push_read, push_return, push_set,
};
use loop_ir::{Stmt, Stmts, T, W};
use std::alloc::Global;
use strm_num::NoMemory;

/// The variables that are kept, by marks, and the numbers that variables get.
#[derive(Drop)]
pub struct Kept {
    pub marks: Vec<bool>,
    pub numbers: Vec<u32>,
}

// Appends a statement that sets a variable, if it is marked.
#[tactic(auto, using(crate::proofs::Appends::set_steps))]
fn push_live_set(
    alloc: Global,
    v: u32,
    w: &W,
    kept: &Kept,
    made: &mut Stmts,
) -> Result<(), NoMemory>
    ensures { OnOk result (Appends made.old made.new (only_if (is_marked kept.now.marks.items v)
        (Set (number_in kept.now.numbers.items v)
        (renumbered kept.now.numbers.items (operand_of w.now))))) }
{
    if is_marked(&kept.marks, v) {
        return push_set(alloc, v, w, &kept.numbers, made);
    }
    Ok(())
}

// Appends a statement that sets a variable to an item of an array, if it is marked.
#[tactic(auto, using(crate::proofs::Appends::set_steps))]
fn push_live_read(
    alloc: Global,
    v: u32,
    a: u32,
    w: &W,
    kept: &Kept,
    made: &mut Stmts,
) -> Result<(), NoMemory>
    ensures { OnOk result (Appends made.old made.new (only_if (is_marked kept.now.marks.items v)
        (Read (number_in kept.now.numbers.items v) a
        (renumbered kept.now.numbers.items (operand_of w.now))))) }
{
    if is_marked(&kept.marks, v) {
        return push_read(alloc, v, a, w, &kept.numbers, made);
    }
    Ok(())
}

// Appends a choice of these branches, whose variables have their numbers already, unless both are
// empty.
#[tactic(auto, using(crate::proofs::Appends::appends_no_choice, crate::proofs::Appends::some_choice))]
fn push_choice(
    alloc: Global,
    t: &T,
    a: Stmts,
    b: Stmts,
    numbers: &[u32],
    made: &mut Stmts,
) -> Result<(), NoMemory>
    ensures { OnOk result (Appends made.old made.new
        (choice (renumbered_test numbers.now (test_of t.now)) (block_of a) (block_of b))) }
{
    if a.is_empty() && b.is_empty() {
        return Ok(());
    }
    push_if(alloc, t, a, b, numbers, made)
}

/// Appends what is live of a statement. The one error is `NoMemory`.
#[cycle(live)]
#[tactic(auto, using(crate::proofs::Appends::live_steps))]
pub fn push_live_statement(
    alloc: Global,
    s: &Stmt,
    kept: &Kept,
    made: &mut Stmts,
) -> Result<(), NoMemory>
    ensures { OnOk result (Appends made.old made.new (live_statement kept.now.marks.items kept.now.numbers.items (statement_of s.now))) }
{
    match s {
        Stmt::Set(v, w) => push_live_set(alloc, *v, w, kept, made),
        Stmt::Read(v, a, w) => push_live_read(alloc, *v, *a, w, kept, made),
        Stmt::If(t, a, b) => {
            let mut first = Stmts::new(alloc);
            push_live(alloc, a.as_slice(), kept, &mut first)?;
            let mut second = Stmts::new(alloc);
            push_live(alloc, b.as_slice(), kept, &mut second)?;
            push_choice(alloc, t, first, second, &kept.numbers, made)
        }
        Stmt::Loop(t, body) => {
            let mut inside = Stmts::new(alloc);
            push_live(alloc, body.as_slice(), kept, &mut inside)?;
            push_loop(alloc, t, inside, &kept.numbers, made)
        }
        Stmt::Emit(w) => push_emit(alloc, w, &kept.numbers, made),
        Stmt::EndRow => push_end(made),
        Stmt::Ret(v) => push_return(*v, made),
    }
}

#[cycle(live)]
#[tactic(auto, using(crate::proofs::Appends::live_steps))]
fn push_live(alloc: Global, body: &[Stmt], kept: &Kept, made: &mut Stmts) -> Result<(), NoMemory>
    ensures { OnOk result (Appends made.old made.new (live kept.now.marks.items kept.now.numbers.items (block_of body.now))) }
{
    for s in body {
        push_live_statement(alloc, s, kept, made)?;
    }
    Ok(())
}
