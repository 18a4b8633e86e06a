//! Statements without those behind the end of the run.

ghost use Rattle.std.specs.Prelude.{◌≡◌, ◌<◌, ◌+◌, ◌==◌, drop, length, IfOk, OnOk};
ghost use Rattle.loop_ir.specs.Counts.{block_loops};
ghost use Rattle.loop_ir.specs.Statements.{Nil, Cons};
ghost use Rattle.expr_phrases.specs.PhraseCopies.{Appends};
ghost use Rattle.loop_ir.specs.StatementCopies.{statement_of, block_of};
ghost use Rattle.dead_code.specs.Ends.{statement_ends, block_ends, reached_statement, reached};

use crate::statements::{
    push_emit, push_end, push_if, push_loop, push_read, push_return, push_set,
};
use loop_ir::{Stmt, Stmts};
use std::alloc::Global;
use strm_num::NoMemory;

#[cycle(loops)]
fn has_no_loop(s: &Stmt) -> bool
    ensures { result ≡ (block_loops (Cons (statement_of s.now) Nil) == 0) }
{
    match s {
        Stmt::If(_, a, b) => have_no_loop(a.as_slice()) && have_no_loop(b.as_slice()),
        Stmt::Loop(_, _) => false,
        _ => true,
    }
}

/// Whether no loop stands in these statements.
#[cycle(loops)]
pub fn have_no_loop(body: &[Stmt]) -> bool
    ensures { result ≡ (block_loops (block_of body.now) == 0) }
{
    for s in body {
        if !has_no_loop(s) {
            return false;
        }
    }
    true
}

// Whether no loop stands behind statement i.
fn no_loop_behind(body: &[Stmt], i: usize) -> bool
    requires { i < length body.now }
    ensures { result ≡ (block_loops (block_of (drop (i + 1) body.now)) == 0) }
{
    have_no_loop(&body[i + 1..])
}

#[cycle(reached)]
#[tactic(auto, using(crate::proofs::Appends::reached_steps))]
fn push_reached_statement(alloc: Global, s: &Stmt, made: &mut Stmts) -> Result<bool, NoMemory>
    ensures made { OnOk result (Appends made.old made.new (Cons (reached_statement (statement_of s.now)) Nil)) }
    ensures ends { IfOk result (λ ends. ends ≡ statement_ends (statement_of s.now)) }
{
    match s {
        Stmt::Set(v, w) => push_set(alloc, *v, w, &[], made)?,
        Stmt::Read(v, a, w) => push_read(alloc, *v, *a, w, &[], made)?,
        Stmt::If(t, a, b) => {
            let mut first = Stmts::new(alloc);
            let first_ends = push_reached(alloc, a.as_slice(), &mut first)?;
            let mut second = Stmts::new(alloc);
            let second_ends = push_reached(alloc, b.as_slice(), &mut second)?;
            push_if(alloc, t, first, second, &[], made)?;
            return Ok(first_ends && second_ends);
        }
        Stmt::Loop(t, body) => {
            let mut inside = Stmts::new(alloc);
            let _ends = push_reached(alloc, body.as_slice(), &mut inside)?;
            push_loop(alloc, t, inside, &[], made)?;
        }
        Stmt::Emit(w) => push_emit(alloc, w, &[], made)?,
        Stmt::EndRow => push_end(made)?,
        Stmt::Ret(v) => {
            push_return(*v, made)?;
            return Ok(true);
        }
    }
    Ok(false)
}

#[cycle(reached)]
#[tactic(auto, using(crate::proofs::Appends::walk_steps))]
pub fn push_reached(alloc: Global, body: &[Stmt], made: &mut Stmts) -> Result<bool, NoMemory>
    ensures made { OnOk result (Appends made.old made.new (reached (block_of body.now))) }
    ensures ends { IfOk result (λ ends. ends ≡ block_ends (block_of body.now)) }
{
    let mut ends = false;
    for (i, s) in body.iter().enumerate() {
        if push_reached_statement(alloc, s, made)? {
            ends = true;
            if no_loop_behind(body, i) {
                return Ok(true);
            }
        }
    }
    Ok(ends)
}
