ghost use Rattle.std.specs.Prelude.{◌≡◌, ◌≤◌, [], ◌++◌, codes, decimal};
ghost use Rattle.strm_io.specs.Appending.{PutsAll, WriteHasCause};
ghost use Rattle.status_lines.specs.FaultTexts.{input_fault_text, placed_text, refusal_text};
ghost use Rattle.status_lines.specs.StatusLines.{input_text, line_of, status_text, Reports};

use crate::places::{Placed, refusal_placed, value_placed};
use crate::refusals::Refusal;
use crate::statuses::{InputFault, InputName, Name, Status};
use itoa::Buffer;
use strm_io::{Sink, WriteFault, put_all};

/// Writes the line of a status, and nothing for `Done`. It takes no memory. Where the sink fails, a
/// prefix of the line stands there.
#[tactic(auto, using(crate::proofs::WrittenLines::reports))]
pub fn report<E: Sink>(status: &Status, err: &mut E)
    ensures line { Reports (E.written err.old) (E.written err.new) (line_of status.now)
        (E.faults err.old) (E.faults err.new) }
    ensures quiet { status.now ≡ Status.Done → E.written err.new ≡ E.written err.old }
    ensures faults { E.faults err.old ≤ E.faults err.new }
{
    match status {
        Status::Done => {}
        _ => {
            let _written = put_line(err, b"strymonas: ", status);
        }
    }
}

/// Writes a text, that of a status after it, and the end of the line: the line of the status behind the name
/// of a program. Where the sink fails, a prefix of it stands there.
#[tactic(auto, using(crate::proofs::WrittenLines::puts))]
pub fn put_line<E: Sink>(err: &mut E, prefix: &[u8], status: &Status) -> Result<(), WriteFault>
    ensures puts { PutsAll (E.written err.old) (E.written err.new)
        (prefix.now ++ status_text status.now ++ codes "\n") result }
    ensures cause { WriteHasCause (E.faults err.old) (E.faults err.new) result }
    ensures faults { E.faults err.old ≤ E.faults err.new }
{
    put_prefixed(err, prefix, status)?;
    put_all(err, b"\n")
}

// Writes a text and that of a status after it.
#[tactic(auto, using(crate::proofs::WrittenLines::puts))]
fn put_prefixed<E: Sink>(err: &mut E, prefix: &[u8], status: &Status) -> Result<(), WriteFault>
    ensures puts { PutsAll (E.written err.old) (E.written err.new)
        (prefix.now ++ status_text status.now) result }
    ensures cause { WriteHasCause (E.faults err.old) (E.faults err.new) result }
    ensures faults { E.faults err.old ≤ E.faults err.new }
{
    put_all(err, prefix)?;
    put_status(err, status)
}

// Writes the text of a status.
fn put_status<E: Sink>(err: &mut E, status: &Status) -> Result<(), WriteFault>
    ensures puts { PutsAll (E.written err.old) (E.written err.new) (status_text status.now) result }
    ensures cause { WriteHasCause (E.faults err.old) (E.faults err.new) result }
    ensures faults { E.faults err.old ≤ E.faults err.new }
{
    match status {
        Status::Done => put_all(err, b""),
        Status::Words => put_all(err, b"words"),
        Status::Missing(name) => put_named(err, b"missing: ", name),
        Status::Refused(refusal) => put_refusal(err, b"refused: ", *refusal),
        Status::Trap => put_all(err, b"trap"),
        Status::Spent(bound) => put_number(err, b"spent: ", *bound),
        Status::ReadFault(name) => put_named(err, b"read fault: ", name),
        Status::WriteFault => put_all(err, b"write fault"),
        Status::NoMemory => put_all(err, b"no memory"),
        Status::BadInput(name, fault) => put_bad_input(err, b"bad input: ", name, *fault),
        Status::TooLong(name) => put_named(err, b"too long: ", name),
        Status::Undefined => put_all(err, b"undefined"),
        Status::TooMuch => put_all(err, b"too much"),
    }
}

// Writes a text and a name after it.
fn put_named<E: Sink>(err: &mut E, prefix: &[u8], name: &Name) -> Result<(), WriteFault>
    ensures puts { PutsAll (E.written err.old) (E.written err.new) (prefix.now ++ name.now) result }
    ensures cause { WriteHasCause (E.faults err.old) (E.faults err.new) result }
    ensures faults { E.faults err.old ≤ E.faults err.new }
{
    put_both(err, prefix, name.as_slice())
}

// Writes a text and after it why a file is refused.
#[tactic(auto, using(crate::proofs::WrittenLines::puts))]
fn put_refusal<E: Sink>(err: &mut E, prefix: &[u8], refusal: Refusal) -> Result<(), WriteFault>
    ensures puts { PutsAll (E.written err.old) (E.written err.new)
        (prefix.now ++ refusal_text refusal) result }
    ensures cause { WriteHasCause (E.faults err.old) (E.faults err.new) result }
    ensures faults { E.faults err.old ≤ E.faults err.new }
{
    put_all(err, prefix)?;
    put_placed(err, refusal_placed(refusal))
}

// Writes a text, what an input is called, and what is wrong with it.
#[tactic(auto, using(crate::proofs::WrittenLines::puts))]
fn put_bad_input<E: Sink>(
    err: &mut E,
    prefix: &[u8],
    name: &InputName,
    fault: InputFault,
) -> Result<(), WriteFault>
    ensures puts { PutsAll (E.written err.old) (E.written err.new)
        (prefix.now ++ input_text name.now ++ codes ": " ++ input_fault_text fault) result }
    ensures cause { WriteHasCause (E.faults err.old) (E.faults err.new) result }
    ensures faults { E.faults err.old ≤ E.faults err.new }
{
    put_input_head(err, prefix, name)?;
    put_input_fault(err, fault)
}

// Writes a text, what an input is called, and a colon.
#[tactic(auto, using(crate::proofs::WrittenLines::puts))]
fn put_input_head<E: Sink>(err: &mut E, prefix: &[u8], name: &InputName) -> Result<(), WriteFault>
    ensures puts { PutsAll (E.written err.old) (E.written err.new)
        (prefix.now ++ input_text name.now ++ codes ": ") result }
    ensures cause { WriteHasCause (E.faults err.old) (E.faults err.new) result }
    ensures faults { E.faults err.old ≤ E.faults err.new }
{
    put_input(err, prefix, name)?;
    put_all(err, b": ")
}

// Writes a text and what an input is called.
fn put_input<E: Sink>(err: &mut E, prefix: &[u8], name: &InputName) -> Result<(), WriteFault>
    ensures puts { PutsAll (E.written err.old) (E.written err.new)
        (prefix.now ++ input_text name.now) result }
    ensures cause { WriteHasCause (E.faults err.old) (E.faults err.new) result }
    ensures faults { E.faults err.old ≤ E.faults err.new }
{
    match name {
        InputName::Named(name) => put_named(err, prefix, name),
        InputName::Position(position) => put_number(err, prefix, *position),
    }
}

// Writes what is wrong with an input.
fn put_input_fault<E: Sink>(err: &mut E, fault: InputFault) -> Result<(), WriteFault>
    ensures puts { PutsAll (E.written err.old) (E.written err.new) (input_fault_text fault) result }
    ensures cause { WriteHasCause (E.faults err.old) (E.faults err.new) result }
    ensures faults { E.faults err.old ≤ E.faults err.new }
{
    match fault {
        InputFault::Unknown => put_all(err, b"unknown"),
        InputFault::Twice => put_all(err, b"twice"),
        InputFault::Absent => put_all(err, b"absent"),
        InputFault::NotANumber => put_all(err, b"not a number"),
        InputFault::Values(fault) => put_placed(err, value_placed(fault)),
    }
}

// Writes a kind and a place.
#[tactic(auto, using(crate::proofs::WrittenLines::puts))]
fn put_placed<E: Sink>(err: &mut E, placed: Placed) -> Result<(), WriteFault>
    ensures puts { PutsAll (E.written err.old) (E.written err.new)
        (placed_text placed.kind.now placed.at) result }
    ensures cause { WriteHasCause (E.faults err.old) (E.faults err.new) result }
    ensures faults { E.faults err.old ≤ E.faults err.new }
{
    put_both(err, placed.kind.as_bytes(), b" at ")?;
    put_all(err, Buffer::new().format(placed.at).as_bytes())
}

// Writes a text and the digits of a number after it.
fn put_number<E: Sink>(err: &mut E, prefix: &[u8], number: u64) -> Result<(), WriteFault>
    ensures puts { PutsAll (E.written err.old) (E.written err.new)
        (prefix.now ++ decimal number) result }
    ensures cause { WriteHasCause (E.faults err.old) (E.faults err.new) result }
    ensures faults { E.faults err.old ≤ E.faults err.new }
{
    put_both(err, prefix, Buffer::new().format(number).as_bytes())
}

// Writes one text after another.
#[tactic(auto, using(crate::proofs::WrittenLines::puts))]
fn put_both<E: Sink>(err: &mut E, first: &[u8], second: &[u8]) -> Result<(), WriteFault>
    ensures puts { PutsAll (E.written err.old) (E.written err.new)
        (first.now ++ second.now) result }
    ensures cause { WriteHasCause (E.faults err.old) (E.faults err.new) result }
    ensures faults { E.faults err.old ≤ E.faults err.new }
{
    put_all(err, first)?;
    put_all(err, second)
}
