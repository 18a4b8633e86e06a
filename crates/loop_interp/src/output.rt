//! The text of events, which is gathered in a buffer and put to a sink where the buffer is full.

ghost use Rattle.std.specs.Prelude.{◌≡◌, ◌≤◌, ◌+◌, ◌++◌, [], length, take, OnOk};
ghost use Rattle.list_denotation.specs.declared.event.Event.TheVariants.{Emit, EndRow};
ghost use Rattle.strm_num.specs.SignedTexts.{sign_text};
ghost use Rattle.event_texts.specs.Texts.{event_text};
ghost use Rattle.strm_io.specs.Appending.{WriteHasCause};
ghost use Rattle.loop_interp.specs.Output.{Writes, event_before, blank_text};

use itoa::Buffer;
use strm_io::{Sink, WriteFault, put_all};
use strm_num::{Word, is_negative, magnitude};

/// Puts what is pending.
#[tactic(auto, using(crate::proofs::Adding::puts))]
pub(crate) fn flush<O: Sink>(pending: &[u8], fill: &mut u64, sink: &mut O) -> Result<(), WriteFault>
    requires { fill.old ≤ length pending.now }
    ensures writes { Writes (O.written sink.old) (O.written sink.new)
        (take fill.old pending.now) (take fill.new pending.now) [] result }
    ensures cause { WriteHasCause (O.faults sink.old) (O.faults sink.new) result }
    ensures faults { O.faults sink.old ≤ O.faults sink.new }
    ensures within { fill.new ≤ fill.old }
    ensures none { OnOk result (fill.new ≡ 0) }
{
    put_all(sink, &pending[..*fill as usize])?;
    *fill = 0;
    Ok(())
}

/// Places bytes behind the pending ones.
fn place(bytes: &[u8], pending: &mut [u8], fill: &mut u64)
    requires { fill.old + length bytes.now ≤ length pending.old }
    ensures placed { take fill.new pending.new ≡ take fill.old pending.old ++ bytes.now }
    ensures within { fill.new ≤ length pending.old }
{
    let start = *fill as usize;
    let end = start + bytes.len();
    pending[start..end].copy_from_slice(bytes);
    *fill = end as u64;
}

/// Adds bytes to the pending ones. Where there is no room for all, the buffer is filled and put first.
#[tactic(auto, using(crate::proofs::Adding::puts))]
fn add<O: Sink>(
    bytes: &[u8],
    pending: &mut [u8],
    fill: &mut u64,
    sink: &mut O,
) -> Result<(), WriteFault>
    requires room { length bytes.now ≤ length pending.old }
    requires within { fill.old ≤ length pending.old }
    ensures writes { Writes (O.written sink.old) (O.written sink.new)
        (take fill.old pending.old) (take fill.new pending.new) bytes.now result }
    ensures cause { WriteHasCause (O.faults sink.old) (O.faults sink.new) result }
    ensures faults { O.faults sink.old ≤ O.faults sink.new }
    ensures within { fill.new ≤ length pending.old }
{
    let room = pending.len() - *fill as usize;
    if bytes.len() <= room {
        place(bytes, pending, fill);
        return Ok(());
    }
    place(&bytes[..room], pending, fill);
    flush(pending, fill, sink)?;
    place(&bytes[room..], pending, fill);
    Ok(())
}

/// What stands before the digits of a number.
fn lead(in_row: bool, negative: bool) -> &'static [u8]
    ensures text { result.now ≡ blank_text in_row ++ sign_text negative }
    ensures short { length result.now ≤ 2 }
{
    match (in_row, negative) {
        (true, true) => b" -",
        (true, false) => b" ",
        (false, true) => b"-",
        (false, false) => b"",
    }
}

/// Adds the text of a number, behind another one of its row or not.
#[tactic(auto, using(crate::proofs::Adding::emits))]
pub(crate) fn emit<O: Sink>(
    w: Word,
    in_row: bool,
    pending: &mut [u8],
    fill: &mut u64,
    sink: &mut O,
) -> Result<(), WriteFault>
    requires room { 40 ≤ length pending.old }
    requires within { fill.old ≤ length pending.old }
    ensures writes { Writes (O.written sink.old) (O.written sink.new)
        (take fill.old pending.old) (take fill.new pending.new)
        (event_text (event_before in_row) (Emit w)) result }
    ensures cause { WriteHasCause (O.faults sink.old) (O.faults sink.new) result }
    ensures faults { O.faults sink.old ≤ O.faults sink.new }
    ensures within { fill.new ≤ length pending.old }
{
    add(lead(in_row, is_negative(w)), pending, fill, sink)?;
    let mut digits = Buffer::new();
    add(digits.format(magnitude(w)).as_bytes(), pending, fill, sink)
}

/// Adds the end of a row.
#[tactic(auto, using(crate::proofs::Adding::emits))]
pub(crate) fn end_row<O: Sink>(
    in_row: bool,
    pending: &mut [u8],
    fill: &mut u64,
    sink: &mut O,
) -> Result<(), WriteFault>
    requires room { 40 ≤ length pending.old }
    requires within { fill.old ≤ length pending.old }
    ensures writes { Writes (O.written sink.old) (O.written sink.new)
        (take fill.old pending.old) (take fill.new pending.new)
        (event_text (event_before in_row) EndRow) result }
    ensures cause { WriteHasCause (O.faults sink.old) (O.faults sink.new) result }
    ensures faults { O.faults sink.old ≤ O.faults sink.new }
    ensures within { fill.new ≤ length pending.old }
{
    add(b"\n", pending, fill, sink)
}
