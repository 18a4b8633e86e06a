//! Statements that set a variable to 0 that none has set.

ghost use Rattle.std.specs.Prelude.{◌≡◌};
ghost use Rattle.loop_ir.specs.StatementCopies.{operand_of, statement_of, block_of};
ghost use Rattle.dead_code.specs.FirstZeros.{with_set, with_sets, is_zero, is_first_zero, marks_behind};

use crate::needs::{is_marked, mark};
use loop_ir::{Stmt, W};

#[cycle(sets)]
fn mark_set(s: &Stmt, marks: &mut [bool])
    ensures { marks.new ≡ with_set (statement_of s.now) marks.old }
{
    match s {
        Stmt::Set(v, _) | Stmt::Read(v, _, _) => mark(*v, marks),
        Stmt::If(_, a, b) => {
            mark_sets(a.as_slice(), marks);
            mark_sets(b.as_slice(), marks);
        }
        Stmt::Loop(_, body) => mark_sets(body.as_slice(), marks),
        Stmt::Emit(_) | Stmt::EndRow | Stmt::Ret(_) => {}
    }
}

// Marks the variables that statements set.
#[cycle(sets)]
fn mark_sets(body: &[Stmt], marks: &mut [bool])
    ensures { marks.new ≡ with_sets (block_of body.now) marks.old }
{
    for s in body {
        mark_set(s, marks);
    }
}

fn is_zero(w: &W) -> bool
    ensures { result ≡ is_zero (operand_of w.now) }
{
    match w {
        W::Const(n) => *n == 0,
        _ => false,
    }
}

fn is_first_zero(s: &Stmt, marks: &[bool]) -> bool
    ensures { result ≡ is_first_zero marks.now (statement_of s.now) }
{
    match s {
        Stmt::Set(v, w) => is_zero(w) && !is_marked(marks, *v),
        _ => false,
    }
}

/// Whether a statement sets a variable to 0 that isn't marked. Else what it sets is marked.
pub fn sets_first_zero(s: &Stmt, marks: &mut [bool]) -> bool
    ensures first { result ≡ is_first_zero marks.old (statement_of s.now) }
    ensures marks { marks.new ≡ marks_behind result (statement_of s.now) marks.old }
{
    let first = is_first_zero(s, marks);
    if !first {
        mark_set(s, marks);
    }
    first
}
