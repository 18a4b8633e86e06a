//! The work of each command. All memory is taken before the first byte is written.

ghost use Rattle.std.specs.Prelude.{◌≡◌, ◌≤◌, length};
ghost use Rattle.job_steps.specs.Works.{Counting, Compiling, Running, Executing, Listing, Ends, IsSeen, status_at};
ghost use Rattle.list_denotation.specs.Pipelines.{pipeline_of};
ghost use Rattle.list_model.specs.Seen.{seen_of, standing_at};
ghost use Rattle.loop_ir.specs.Routines.{routine_of};
ghost use Rattle.job_work.specs.Ways.{work_of};
ghost use Rattle.job_work.specs.Working.{Does};

use crate::passes::{c_text, loop_program};
use count_lines::counts_text;
use event_texts::print_events;
use list_denotation::{Inputs, Program};
use list_model::{ModelFault, Observation, Stop, observe};
use loop_interp::room::{Registers, registers};
use loop_interp::{Outcome, exec};
use loop_ir::Prog;
use status_lines::Status;
use std::alloc::Global;
use strm_io::{Sink, put_all};

/// Writes a text.
pub fn write<O: Sink>(text: &[u8], out: &mut O) -> Status
    ensures does { Does (λ end written. (end ≡ Status.Done) × (written ≡ text.now))
        (O.written out.old) (O.written out.new) (O.faults out.old) (O.faults out.new) result }
    ensures faults { O.faults out.old ≤ O.faults out.new }
{
    match put_all(out, text) {
        Ok(()) => Status::Done,
        Err(_) => Status::WriteFault,
    }
}

/// Writes the counts of a pipeline.
pub fn count<O: Sink>(alloc: Global, program: &Program, out: &mut O) -> Status
    ensures does { Does (Ends (Counting (pipeline_of program.now)))
        (O.written out.old) (O.written out.new) (O.faults out.old) (O.faults out.new) result }
    ensures faults { O.faults out.old ≤ O.faults out.new }
{
    match counts_text(alloc, program) {
        Ok(text) => write(text.as_slice(), out),
        Err(_) => Status::NoMemory,
    }
}

/// Writes the C text of a pipeline.
pub fn compile<O: Sink>(alloc: Global, program: &Program, out: &mut O) -> Status
    ensures does { Does (Ends (Compiling (pipeline_of program.now)))
        (O.written out.old) (O.written out.new) (O.faults out.old) (O.faults out.new) result }
    ensures faults { O.faults out.old ≤ O.faults out.new }
{
    match c_text(alloc, program) {
        Ok(text) => write(text.as_slice(), out),
        Err(_) => Status::NoMemory,
    }
}

/// Runs a loop program in its registers.
fn execute_in<O: Sink>(
    q: &Prog,
    inputs: &Inputs,
    regs: &mut Registers,
    turns: u64,
    out: &mut O,
) -> Status
    requires { q.now.vars ≤ length regs.old.words }
    ensures does { Does (Ends (Executing (routine_of q.now) inputs.now turns))
        (O.written out.old) (O.written out.new) (O.faults out.old) (O.faults out.new) result }
    ensures faults { O.faults out.old ≤ O.faults out.new }
{
    match exec(q, inputs, regs, turns, out) {
        Outcome::Done => Status::Done,
        Outcome::Trap => Status::Trap,
        Outcome::Spent => Status::Spent(turns),
        Outcome::Undefined => Status::Undefined,
        Outcome::Write => Status::WriteFault,
    }
}

/// Runs a loop program with so many turns of its loops, and writes what it shows.
pub fn execute<O: Sink>(alloc: Global, q: &Prog, inputs: &Inputs, turns: u64, out: &mut O) -> Status
    ensures does { Does (Ends (Executing (routine_of q.now) inputs.now turns))
        (O.written out.old) (O.written out.new) (O.faults out.old) (O.faults out.new) result }
    ensures faults { O.faults out.old ≤ O.faults out.new }
{
    match registers(alloc, q) {
        Ok(mut regs) => execute_in(q, inputs, &mut regs, turns, out),
        Err(_) => Status::NoMemory,
    }
}

/// Runs the loop program of a pipeline with so many turns of its loops, and writes what it shows.
pub fn run<O: Sink>(
    alloc: Global,
    program: &Program,
    inputs: &Inputs,
    turns: u64,
    out: &mut O,
) -> Status
    ensures does { Does (Ends (Running (pipeline_of program.now) inputs.now turns))
        (O.written out.old) (O.written out.new) (O.faults out.old) (O.faults out.new) result }
    ensures faults { O.faults out.old ≤ O.faults out.new }
{
    match loop_program(alloc, program) {
        Ok(routine) => execute(alloc, &routine, inputs, turns, out),
        Err(_) => Status::NoMemory,
    }
}

/// The status for how lists stop that are cut off behind so many rows.
fn status_at(pulls: u64, stop: Stop) -> Status
    ensures { result ≡ status_at pulls (standing_at stop) }
{
    match stop {
        Stop::Done => Status::Done,
        Stop::Going => Status::Spent(pulls),
        Stop::Trap => Status::Trap,
    }
}

/// Writes the text of what is seen of lists that are cut off behind so many rows.
fn write_seen<O: Sink>(alloc: Global, seen: &Observation, pulls: u64, out: &mut O) -> Status
    ensures does { Does (IsSeen pulls (seen_of seen.now))
        (O.written out.old) (O.written out.new) (O.faults out.old) (O.faults out.new) result }
    ensures faults { O.faults out.old ≤ O.faults out.new }
{
    match print_events(alloc, seen.events.as_slice()) {
        Ok(text) => match put_all(out, text.as_slice()) {
            Ok(()) => status_at(pulls, seen.stop),
            Err(_) => Status::WriteFault,
        },
        Err(_) => Status::NoMemory,
    }
}

/// Writes what the lists of a pipeline give where each source is cut off behind so many rows.
fn list<O: Sink>(
    alloc: Global,
    program: &Program,
    inputs: &Inputs,
    pulls: u64,
    out: &mut O,
) -> Status
    ensures does { Does (Ends (Listing (pipeline_of program.now) inputs.now pulls))
        (O.written out.old) (O.written out.new) (O.faults out.old) (O.faults out.new) result }
    ensures faults { O.faults out.old ≤ O.faults out.new }
{
    match observe(alloc, program, inputs, pulls) {
        Ok(seen) => write_seen(alloc, &seen, pulls, out),
        Err(ModelFault::TooMuch) => Status::TooMuch,
        Err(ModelFault::NoMemory) => Status::NoMemory,
    }
}

/// How the rows of a pipeline are made: by its loops, with at most so many turns, or as lists, where each
/// source is cut off behind so many rows.
#[derive(Clone, Copy)]
pub enum Way {
    Loops(u64),
    Lists(u64),
}

/// Writes what a pipeline shows on inputs.
pub fn show<O: Sink>(
    alloc: Global,
    way: Way,
    program: &Program,
    inputs: &Inputs,
    out: &mut O,
) -> Status
    ensures does { Does (Ends (work_of way (pipeline_of program.now) inputs.now))
        (O.written out.old) (O.written out.new) (O.faults out.old) (O.faults out.new) result }
    ensures faults { O.faults out.old ≤ O.faults out.new }
{
    match way {
        Way::Loops(turns) => run(alloc, program, inputs, turns, out),
        Way::Lists(pulls) => list(alloc, program, inputs, pulls, out),
    }
}
