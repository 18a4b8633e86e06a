//! Which variables are needed.

ghost use Rattle.std.specs.Prelude.{◌≡◌, ◌+◌, ◌<◌, ◌^◌, false, length, replicate, IfOk};
ghost use Rattle.loop_ir.specs.StatementCopies.{operand_of, test_of, statement_of, block_of};
ghost use Rattle.dead_code.specs.Live.{marked_count};
ghost use Rattle.dead_code.specs.Needs.{is_marked, with_mark, with_operand, with_test, is_idle, are_idle};
ghost use Rattle.dead_code.specs.Needs.{needs_of_set, needs_of_choice, needs_of, needs_of_block, needs_in, needed};

use loop_ir::{Stmt, T, W};
use std::alloc::Global;
use strm_num::NoMemory;

/// Whether a variable is marked.
pub fn is_marked(marks: &[bool], v: u32) -> bool
    ensures { result ≡ is_marked marks.now v }
{
    marks.get(v as usize).copied().unwrap_or(false)
}

/// Marks a variable, if it has an item in the list.
pub fn mark(v: u32, marks: &mut [bool])
    ensures { marks.new ≡ with_mark v marks.old }
{
    if (v as usize) < marks.len() {
        marks[v as usize] = true;
    }
}

// Marks the variables of an operand.
fn mark_operand(w: &W, marks: &mut [bool])
    ensures { marks.new ≡ with_operand (operand_of w.now) marks.old }
{
    match w {
        W::Var(v) => mark(*v, marks),
        W::Bin(_, a, b) => {
            mark_operand(a, marks);
            mark_operand(b, marks);
        }
        W::Const(_) | W::Len(_) | W::Int(_) => {}
    }
}

// Marks the variables of a test.
fn mark_test(t: &T, marks: &mut [bool])
    ensures { marks.new ≡ with_test (test_of t.now) marks.old }
{
    match t {
        T::Less(a, b) | T::Same(a, b) => {
            mark_operand(a, marks);
            mark_operand(b, marks);
        }
        T::Both(a, b) | T::Either(a, b) => {
            mark_test(a, marks);
            mark_test(b, marks);
        }
        T::Not(a) => mark_test(a, marks),
    }
}

#[cycle(idle)]
fn is_idle(s: &Stmt, marks: &[bool]) -> bool
    ensures { result ≡ is_idle marks.now (statement_of s.now) }
{
    match s {
        Stmt::Set(v, _) | Stmt::Read(v, _, _) => !is_marked(marks, *v),
        Stmt::If(_, a, b) => are_idle(a.as_slice(), marks) && are_idle(b.as_slice(), marks),
        Stmt::Loop(_, _) | Stmt::Emit(_) | Stmt::EndRow | Stmt::Ret(_) => false,
    }
}

// Whether statements do nothing but set variables that aren't marked.
#[cycle(idle)]
fn are_idle(body: &[Stmt], marks: &[bool]) -> bool
    ensures { result ≡ are_idle marks.now (block_of body.now) }
{
    for s in body {
        if !is_idle(s, marks) {
            return false;
        }
    }
    true
}

// Marks what a variable is set to, where it is marked itself.
fn mark_set(v: u32, w: &W, marks: &mut [bool])
    ensures { marks.new ≡ needs_of_set v (operand_of w.now) marks.old }
{
    if is_marked(marks, v) {
        mark_operand(w, marks);
    }
}

// Marks the test of a choice, unless it is idle.
fn mark_choice(t: &T, a: &[Stmt], b: &[Stmt], marks: &mut [bool])
    ensures { marks.new ≡ needs_of_choice (test_of t.now) (block_of a.now) (block_of b.now) marks.old }
{
    if !(are_idle(a, marks) && are_idle(b, marks)) {
        mark_test(t, marks);
    }
}

#[cycle(needs)]
fn mark_needs_of(s: &Stmt, marks: &mut [bool])
    ensures { marks.new ≡ needs_of (statement_of s.now) marks.old }
{
    match s {
        Stmt::Set(v, w) | Stmt::Read(v, _, w) => mark_set(*v, w, marks),
        Stmt::If(t, a, b) => {
            mark_needs(b.as_slice(), marks);
            mark_needs(a.as_slice(), marks);
            mark_choice(t, a.as_slice(), b.as_slice(), marks);
        }
        Stmt::Loop(t, body) => {
            mark_test(t, marks);
            mark_needs(body.as_slice(), marks);
        }
        Stmt::Emit(w) => mark_operand(w, marks),
        Stmt::EndRow | Stmt::Ret(_) => {}
    }
}

// Marks what statements need, from the end to the beginning.
#[cycle(needs)]
fn mark_needs(body: &[Stmt], marks: &mut [bool])
    ensures { marks.new ≡ needs_of_block (block_of body.now) marks.old }
{
    for i in (0..body.len()).rev() {
        mark_needs_of(&body[i], marks);
    }
}

/// How many variables are marked.
pub fn marked_count(marks: &[bool]) -> u32
    requires { length marks.now < 2 ^ 32 }
    ensures { result ≡ marked_count marks.now }
{
    let mut count: u32 = 0;
    for m in marks {
        if *m {
            count += 1;
        }
    }
    count
}

/// As many marks as there are variables, none of which is set. The one error is `NoMemory`.
pub fn no_marks(alloc: Global, vars: u32) -> Result<Vec<bool>, NoMemory>
    ensures { IfOk result (λ marks. marks.items ≡ replicate vars false) }
{
    let mut marks = Vec::new(alloc);
    for _ in 0..vars {
        marks.push(false)?;
    }
    Ok(marks)
}

// Marks what statements need, and says whether that were more.
#[tactic(auto, using(crate::proofs::Growth::same_count))]
fn mark_more(body: &[Stmt], marks: &mut [bool]) -> bool
    requires { length marks.old < 2 ^ 32 }
    ensures marks { marks.new ≡ needs_of_block (block_of body.now) marks.old }
    ensures same { result ≡ false → marks.new ≡ marks.old }
{
    let before = marked_count(marks);
    mark_needs(body, marks);
    marked_count(marks) != before
}

// Marks all that statements need, in passes until there is no more.
#[tactic(auto, using(crate::proofs::Growth::pass_steps))]
fn mark_all(body: &[Stmt], marks: &mut [bool])
    requires { length marks.old < 2 ^ 32 }
    ensures { marks.new ≡ needs_in (length marks.old + 1) (block_of body.now) marks.old }
{
    for _ in 0..marks.len() + 1 {
        if !mark_more(body, marks) {
            return;
        }
    }
}

/// Marks for the variables that statements need, of so many variables. The one error is `NoMemory`.
#[tactic(auto, using(crate::proofs::Growth::all_passes, crate::proofs::Growth::needed_long))]
pub fn needed(alloc: Global, vars: u32, body: &[Stmt]) -> Result<Vec<bool>, NoMemory>
    ensures marks { IfOk result (λ marks. marks.items ≡ needed vars (block_of body.now)) }
    ensures long { IfOk result (λ marks. length marks.items ≡ vars) }
{
    let mut marks = no_marks(alloc, vars)?;
    mark_all(body, &mut marks);
    Ok(marks)
}
