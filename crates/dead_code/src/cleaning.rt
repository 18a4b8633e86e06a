//! A loop program without dead code.

ghost use Rattle.std.specs.Prelude.{◌≡◌, ◌<◌, ◌^◌, false, replicate, length, IfOk, OnOk};
ghost use Rattle.loop_ir.specs.Routines.{routine_of};
ghost use Rattle.expr_phrases.specs.PhraseCopies.{Appends};
ghost use Rattle.loop_ir.specs.Statements.{Nil};
ghost use Rattle.loop_ir.specs.StatementCopies.{statement_of, block_of};
ghost use Rattle.dead_code.specs.Ends.{reached};
ghost use Rattle.dead_code.specs.FirstZeros.{is_first_zero, marks_behind, unless_dropped, without_first_zeros};
ghost use Rattle.dead_code.specs.Live.{ranks, live};
ghost use Rattle.dead_code.specs.LiveRoutines.{live_routine};

use crate::first_zeros::sets_first_zero;
use crate::live::{Kept, push_live_statement};
use crate::needs::{marked_count, needed, no_marks};
use crate::reached::push_reached;
use loop_ir::{Prog, Stmt, Stmts};
use std::alloc::Global;
use strm_num::{List, NoMemory};

// The new numbers of variables, where the marked ones stay.
fn ranks(alloc: Global, marks: &[bool]) -> Result<Vec<u32>, NoMemory>
    requires { length marks.now < 2 ^ 32 }
    ensures { IfOk result (λ numbers. numbers.items ≡ ranks marks.now) }
{
    let mut numbers = Vec::new(alloc);
    let mut next: u32 = 0;
    for m in marks {
        numbers.push(next)?;
        if *m {
            next += 1;
        }
    }
    Ok(numbers)
}

// The statements that are reached.
fn reached_body(alloc: Global, body: &[Stmt]) -> Result<Stmts, NoMemory>
    ensures { IfOk result (λ made. block_of made ≡ reached (block_of body.now)) }
{
    let mut made = Stmts::new(alloc);
    let _ends = push_reached(alloc, body, &mut made)?;
    Ok(made)
}

// Appends what is live of a statement, unless it sets a variable to 0 that isn't marked. What it
// sets else is marked.
#[tactic(auto, using(crate::proofs::Appends::first_steps))]
fn push_behind(
    alloc: Global,
    s: &Stmt,
    kept: &Kept,
    marks: &mut [bool],
    made: &mut Stmts,
) -> Result<(), NoMemory>
    ensures marks { marks.new
        ≡ marks_behind (is_first_zero marks.old (statement_of s.now)) (statement_of s.now) marks.old }
    ensures made { OnOk result (Appends made.old made.new
        (live kept.now.marks.items kept.now.numbers.items (unless_dropped
        (is_first_zero marks.old (statement_of s.now)) (statement_of s.now) Nil))) }
{
    if sets_first_zero(s, marks) {
        return Ok(());
    }
    push_live_statement(alloc, s, kept, made)
}

// Appends what is live of statements, but for those that set a variable to 0 that none before has
// set, nor is marked.
#[tactic(auto, using(crate::proofs::Appends::first_steps))]
fn push_live_body(
    alloc: Global,
    body: &[Stmt],
    kept: &Kept,
    marks: &mut [bool],
    made: &mut Stmts,
) -> Result<(), NoMemory>
    ensures { OnOk result (Appends made.old made.new (live kept.now.marks.items
        kept.now.numbers.items (without_first_zeros marks.old (block_of body.now)))) }
{
    for s in body {
        push_behind(alloc, s, kept, marks, made)?;
    }
    Ok(())
}

// What is live of the statements of a program with so many variables.
fn live_body(alloc: Global, vars: u32, body: &[Stmt], kept: &Kept) -> Result<Stmts, NoMemory>
    ensures { IfOk result (λ made. block_of made ≡ live kept.now.marks.items kept.now.numbers.items
        (without_first_zeros (replicate vars false) (block_of body.now))) }
{
    let mut marks = no_marks(alloc, vars)?;
    let mut made = Stmts::new(alloc);
    push_live_body(alloc, body, kept, &mut marks, &mut made)?;
    Ok(made)
}

/// The loop program without dead code. The one error is `NoMemory`.
pub fn without_dead_code(alloc: Global, q: &Prog) -> Result<Prog, NoMemory>
    ensures { IfOk result (λ made. routine_of made ≡ live_routine (routine_of q.now)) }
{
    let reached = reached_body(alloc, q.body.as_slice())?;
    let marks = needed(alloc, q.vars, reached.as_slice())?;
    let numbers = ranks(alloc, &marks)?;
    let vars = marked_count(&marks);
    let kept = Kept { marks, numbers };
    let body = live_body(alloc, q.vars, reached.as_slice(), &kept)?;
    let params = List::from_slice(alloc, q.params.as_slice())?;
    Ok(Prog { params, vars, body })
}
