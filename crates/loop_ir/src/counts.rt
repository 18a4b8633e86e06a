//! The counts of loop programs. They take no memory. A count above 2^64 - 1 is given as 2^64 - 1.

ghost use Rattle.std.specs.Prelude.{◌≡◌};
ghost use Rattle.loop_ir.specs.Routines.{routine_of};
ghost use Rattle.loop_ir.specs.StatementCopies.{statement_of, block_of};
ghost use Rattle.loop_ir.specs.Counts.{plain_count, joint_count, statement_measure, block_measure};
ghost use Rattle.loop_ir.specs.Counts.{block_count, block_loops, block_nest, up_to_most};

use crate::program::Prog;
use crate::syntax::Stmt;

/// The variables of a program, below 2^32.
pub fn vars(q: &Prog) -> u64
    ensures { result ≡ (routine_of q.now).vars }
{
    u64::from(q.vars)
}

/// The loops of a program, also those inside others.
pub fn loops(q: &Prog) -> u64
    ensures { result ≡ up_to_most (block_loops (routine_of q.now).body) }
{
    block_measure(Measure::Loops, q.body.as_slice())
}

/// The most loops of a program inside one another: 0 where there is no loop.
pub fn nest(q: &Prog) -> u64
    ensures { result ≡ up_to_most (block_nest (routine_of q.now).body) }
{
    block_measure(Measure::Nesting, q.body.as_slice())
}

/// All statements of a program, also those inside others.
pub fn stmts(q: &Prog) -> u64
    ensures { result ≡ up_to_most (block_count (routine_of q.now).body) }
{
    block_measure(Measure::Statements, q.body.as_slice())
}

/// What is counted of statements: all of them, the loops, or the most loops inside one another.
#[derive(Clone, Copy)]
enum Measure {
    Statements,
    Loops,
    Nesting,
}

/// The count of a statement that is no loop, where its parts count so much.
fn plain_count(what: Measure, parts: u64) -> u64
    ensures { result ≡ up_to_most (plain_count what parts) }
{
    match what {
        Measure::Statements => parts.saturating_add(1),
        Measure::Loops | Measure::Nesting => parts,
    }
}

/// The count of statements beside one another.
fn joint_count(what: Measure, first: u64, second: u64) -> u64
    ensures { result ≡ up_to_most (joint_count what first second) }
{
    match what {
        Measure::Statements | Measure::Loops => first.saturating_add(second),
        Measure::Nesting => first.max(second),
    }
}

#[cycle(measures)]
fn block_measure(what: Measure, body: &[Stmt]) -> u64
    ensures { result ≡ up_to_most (block_measure what (block_of body.now)) }
{
    let mut n: u64 = 0;
    for s in body {
        n = joint_count(what, n, statement_measure(what, s));
    }
    n
}

#[cycle(measures)]
fn statement_measure(what: Measure, s: &Stmt) -> u64
    ensures { result ≡ up_to_most (statement_measure what (statement_of s.now)) }
{
    match s {
        Stmt::If(_, a, b) => {
            let first = block_measure(what, a.as_slice());
            let second = block_measure(what, b.as_slice());
            plain_count(what, joint_count(what, first, second))
        }
        Stmt::Loop(_, body) => block_measure(what, body.as_slice()).saturating_add(1),
        _ => plain_count(what, 0),
    }
}
