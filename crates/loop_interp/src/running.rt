//! Whole runs.

ghost use Rattle.std.specs.Prelude.{◌≡◌, ◌≤◌, ℕ, length, take, replicate};
ghost use Rattle.loop_ir.specs.Meaning.{meaning};
ghost use Rattle.loop_ir.specs.Routines.{routine_of};
ghost use Rattle.loop_interp.specs.Answers.{Answers, AnswerHasCause};
ghost use Rattle.loop_interp.specs.Runs.{PutsRest, Finishes, output_of};

use crate::machine::{Progress, Registers};
use crate::outcome::Outcome;
use crate::statements::block;
use loop_ir::{Inputs, Prog, Words};
use strm_io::{Sink, put_all};

/// Sets all variables to 0.
fn clear(words: &mut Words)
    ensures zero { (n : ℕ) → n ≤ length words.old → take n words.new ≡ replicate n 0 }
    ensures length { length words.new ≡ length words.old }
{
    for i in 0..words.len() {
        words.set(i, 0);
    }
}

/// Puts what is pending.
fn put_rest<O: Sink>(before: Outcome, regs: &mut Registers, sink: &mut O) -> Outcome
    requires { regs.old.fill ≤ 4096 }
    ensures rest { PutsRest before
        (output_of (O.written sink.old) (O.faults sink.old) regs.old)
        (output_of (O.written sink.new) (O.faults sink.new) regs.new) result }
    ensures faults { O.faults sink.old ≤ O.faults sink.new }
    ensures length { length regs.new.words ≡ length regs.old.words }
{
    let put = put_all(sink, &regs.pending[..regs.fill as usize]);
    regs.fill = 0;
    match put {
        Ok(()) => before,
        Err(_) => Outcome::Write,
    }
}

/// Ends a run: what is pending is put, unless a write failed before.
fn finish<O: Sink>(ended: Result<(), Outcome>, regs: &mut Registers, sink: &mut O) -> Outcome
    requires { regs.old.fill ≤ 4096 }
    ensures finishes { Finishes ended
        (output_of (O.written sink.old) (O.faults sink.old) regs.old)
        (output_of (O.written sink.new) (O.faults sink.new) regs.new) result }
    ensures faults { O.faults sink.old ≤ O.faults sink.new }
    ensures length { length regs.new.words ≡ length regs.old.words }
{
    match ended {
        Ok(()) => put_rest(Outcome::Done, regs, sink),
        Err(Outcome::Write) => Outcome::Write,
        Err(before) => put_rest(before, regs, sink),
    }
}

/// Runs a program on inputs, with so many turns of its loops, and writes the text of its events.
///
/// The registers have a word at least for each variable; all are set to 0 first, and nothing is
/// pending. `Write` comes only where `faults` of the sink rose in this call. It takes no memory.
pub fn exec<O: Sink>(
    q: &Prog,
    inputs: &Inputs,
    regs: &mut Registers,
    turns: u64,
    sink: &mut O,
) -> Outcome
    requires { q.now.vars ≤ length regs.old.words }
    ensures answers { Answers (meaning (routine_of q.now) inputs.now turns)
        (O.written sink.old) (O.written sink.new) result }
    ensures cause { AnswerHasCause (O.faults sink.old) (O.faults sink.new) result }
    ensures faults { O.faults sink.old ≤ O.faults sink.new }
    ensures room { q.now.vars ≤ length regs.new.words }
{
    clear(&mut regs.words);
    regs.fill = 0;
    let mut progress = Progress {
        left: turns,
        in_row: false,
    };
    let vars = q.vars as usize;
    let ended = block(q.body.as_slice(), inputs, vars, regs, &mut progress, sink);
    finish(ended, regs, sink)
}
