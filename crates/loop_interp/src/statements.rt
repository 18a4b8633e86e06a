//! Statements, which are run over the registers.

ghost use Rattle.std.specs.Prelude.{◌≡◌, ◌≤◌, ℕ, ◌∷◌, [], length, take, slice_set};
ghost use Rattle.list_denotation.specs.declared.event.Event.TheVariants.{Emit, EndRow};
ghost use Rattle.loop_ir.specs.Meaning.{Runs, verdict_of, run, run_one, test_value};
ghost use Rattle.loop_ir.specs.StatementCopies.{test_of, statement_of, block_of};
ghost use Rattle.loop_interp.specs.Answers.{answer_of};
ghost use Rattle.loop_interp.specs.Runs.{Assigns, BeginsTurn, Follows, IsReady, state_of};

use crate::machine::{Progress, Registers};
use crate::operands::{operand, read, test};
use crate::outcome::Outcome;
use crate::output::{emit, end_row};
use loop_ir::{Inputs, Stmt, T, Verdict, Words};
use strm_io::Sink;
use strm_num::Word;

/// The variables.
#[inline]
fn env(words: &Words, vars: usize) -> &[Word]
    requires { vars ≤ length words.now }
    ensures { result.now ≡ take vars words.now }
{
    &words.as_slice()[..vars]
}

/// Sets a variable.
#[inline]
fn set(words: &mut Words, vars: usize, v: u32, x: Word)
    requires { vars ≤ length words.old }
    ensures env { take vars words.new ≡ slice_set (take vars words.old) v x }
    ensures length { length words.new ≡ length words.old }
{
    if (v as usize) < vars {
        words.set(u64::from(v), x);
    }
}

/// Sets a variable to a value, where there is one.
#[inline]
fn assign(words: &mut Words, vars: usize, v: u32, x: Option<Word>) -> Result<(), Outcome>
    requires { vars ≤ length words.old }
    ensures assigns { Assigns x v (take vars words.old) (take vars words.new) result }
    ensures length { length words.new ≡ length words.old }
{
    match x {
        Some(x) => {
            set(words, vars, v, x);
            Ok(())
        }
        None => Err(Outcome::Undefined),
    }
}

/// How a run ends that returns.
#[inline]
fn returned(v: Verdict) -> Outcome
    ensures { result ≡ answer_of (verdict_of v) }
{
    match v {
        Verdict::Done => Outcome::Done,
        Verdict::Trap => Outcome::Trap,
    }
}

/// Writes a number.
fn number<O: Sink>(
    w: Word,
    regs: &mut Registers,
    progress: &mut Progress,
    sink: &mut O,
) -> Result<(), Outcome>
    requires { regs.old.fill ≤ 4096 }
    ensures follows { (vars : ℕ) → Follows
        (Runs (Emit w ∷ []) (take vars regs.old.words) progress.old.left)
        (state_of vars (O.written sink.old) (O.faults sink.old) regs.old progress.old)
        (state_of vars (O.written sink.new) (O.faults sink.new) regs.new progress.new) result }
    ensures words { regs.new.words ≡ regs.old.words }
    ensures fill { regs.new.fill ≤ 4096 }
{
    match emit(w, progress.in_row, &mut regs.pending, &mut regs.fill, sink) {
        Ok(()) => {
            progress.in_row = true;
            Ok(())
        }
        Err(_) => Err(Outcome::Write),
    }
}

/// Writes the end of a row.
fn row_end<O: Sink>(
    regs: &mut Registers,
    progress: &mut Progress,
    sink: &mut O,
) -> Result<(), Outcome>
    requires { regs.old.fill ≤ 4096 }
    ensures follows { (vars : ℕ) → Follows
        (Runs (EndRow ∷ []) (take vars regs.old.words) progress.old.left)
        (state_of vars (O.written sink.old) (O.faults sink.old) regs.old progress.old)
        (state_of vars (O.written sink.new) (O.faults sink.new) regs.new progress.new) result }
    ensures words { regs.new.words ≡ regs.old.words }
    ensures fill { regs.new.fill ≤ 4096 }
{
    match end_row(progress.in_row, &mut regs.pending, &mut regs.fill, sink) {
        Ok(()) => {
            progress.in_row = false;
            Ok(())
        }
        Err(_) => Err(Outcome::Write),
    }
}

/// Begins a turn of a loop where its test holds: one of those that are left is spent.
fn turn(t: &T, inputs: &Inputs, vars: &[Word], left: &mut u64) -> Result<bool, Outcome>
    ensures { BeginsTurn (test_value inputs.now (test_of t.now) vars.now) left.old left.new result }
{
    match test(t, inputs, vars) {
        Some(true) => {
            if *left == 0 {
                return Err(Outcome::Spent);
            }
            *left -= 1;
            Ok(true)
        }
        Some(false) => Ok(false),
        None => Err(Outcome::Undefined),
    }
}

/// Runs statements in order.
#[cycle(statements)]
pub(crate) fn block<O: Sink>(
    body: &[Stmt],
    inputs: &Inputs,
    vars: usize,
    regs: &mut Registers,
    progress: &mut Progress,
    sink: &mut O,
) -> Result<(), Outcome>
    requires { IsReady vars regs.old }
    ensures follows { Follows
        (run inputs.now (block_of body.now) (take vars regs.old.words) progress.old.left)
        (state_of vars (O.written sink.old) (O.faults sink.old) regs.old progress.old)
        (state_of vars (O.written sink.new) (O.faults sink.new) regs.new progress.new) result }
    ensures ready { IsReady vars regs.new }
{
    for s in body {
        statement(s, inputs, vars, regs, progress, sink)?;
    }
    Ok(())
}

/// Runs a statement.
#[cycle(statements)]
fn statement<O: Sink>(
    s: &Stmt,
    inputs: &Inputs,
    vars: usize,
    regs: &mut Registers,
    progress: &mut Progress,
    sink: &mut O,
) -> Result<(), Outcome>
    requires { IsReady vars regs.old }
    ensures follows { Follows
        (run_one inputs.now (statement_of s.now) (take vars regs.old.words) progress.old.left)
        (state_of vars (O.written sink.old) (O.faults sink.old) regs.old progress.old)
        (state_of vars (O.written sink.new) (O.faults sink.new) regs.new progress.new) result }
    ensures ready { IsReady vars regs.new }
{
    match s {
        Stmt::Set(v, w) => {
            let x = operand(w, inputs, env(&regs.words, vars));
            assign(&mut regs.words, vars, *v, x)
        }
        Stmt::Read(v, a, w) => {
            let x = read(*a, w, inputs, env(&regs.words, vars));
            assign(&mut regs.words, vars, *v, x)
        }
        Stmt::If(t, a, b) => match test(t, inputs, env(&regs.words, vars)) {
            Some(true) => block(a.as_slice(), inputs, vars, regs, progress, sink),
            Some(false) => block(b.as_slice(), inputs, vars, regs, progress, sink),
            None => Err(Outcome::Undefined),
        },
        Stmt::Loop(t, body) => {
            while turn(t, inputs, env(&regs.words, vars), &mut progress.left)? {
                block(body.as_slice(), inputs, vars, regs, progress, sink)?;
            }
            Ok(())
        }
        Stmt::Emit(w) => match operand(w, inputs, env(&regs.words, vars)) {
            Some(x) => number(x, regs, progress, sink),
            None => Err(Outcome::Undefined),
        },
        Stmt::EndRow => row_end(regs, progress, sink),
        Stmt::Ret(v) => Err(returned(*v)),
    }
}
