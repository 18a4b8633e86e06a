ghost use Rattle.std.specs.Prelude.{◌≤◌};
ghost use Rattle.strm_io.specs.Appending.{PutsAll, WriteHasCause};

use crate::writing::{Put, Sink};

/// A sink failed before the last byte was written.
#[derive(Clone, Copy)]
pub struct WriteFault;

/// Writes all of `bytes`. It takes no memory.
///
/// `WriteFault` comes only where `faults` of the sink rose in this call, and what was written is
/// then a prefix of `bytes`.
pub fn put_all<O: Sink>(sink: &mut O, bytes: &[u8]) -> Result<(), WriteFault>
    ensures puts { PutsAll (O.written sink.old) (O.written sink.new) bytes.now result }
    ensures cause { WriteHasCause (O.faults sink.old) (O.faults sink.new) result }
    ensures faults { O.faults sink.old ≤ O.faults sink.new }
{
    let mut done = 0;
    while done < bytes.len() {
        match sink.put(&bytes[done..]) {
            Put::Took(n) => done += n as usize,
            Put::Failed => return Err(WriteFault),
        }
    }
    Ok(())
}
