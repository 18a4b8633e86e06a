ghost use Rattle.std.specs.Prelude.{◌≡◌, ◌<◌, ◌≤◌, length, IfSome, None};
ghost use Rattle.strm_io.specs.Writing.{PutsPiece, PutHasCause, CountsPut};

use crate::writing::{Put, Sink};
use std::io::Write;
use std::marker::Model;

/// A sink over a writer of the host, which tells no bytes.
#[derive(Drop)]
pub struct HostSink<W: Write> {
    to: W,
    faults: u64,
}

impl<W: Write> Model for HostSink<W> {
    ghost use Rattle.strm_io.specs.HostStates.{HostSinkState};

    ghost Value = { HostSinkState };

    ghost view = { λ s. record { faults = s.faults } };
}

impl<W: Write> HostSink<W> {
    /// A sink over `to`, with no fault so far.
    pub fn new(to: W) -> HostSink<W>
        ensures { result ≡ record { faults = 0 } }
    {
        HostSink { to, faults: 0 }
    }
}

impl<W: Write> Sink for HostSink<W> {
    ghost use Rattle.std.specs.Prelude.{None};

    ghost written = { λ _. None };

    ghost faults = { λ s. s.faults };

    /// Writes and then flushes. A write or a flush that fails is a fault, and so is a write that
    /// takes nothing of a piece that isn't empty.
    fn put(&mut self, piece: &[u8]) -> Put
        ensures puts { PutsPiece None None piece.now result }
        ensures cause { PutHasCause self.old.faults self.new.faults result }
        ensures faults { self.old.faults ≤ self.new.faults }
        ensures counts { CountsPut self.old.faults self.new.faults result }
        ensures empty { length piece.now ≡ 0 → result ≡ Put.Took 0 }
    {
        if piece.is_empty() {
            return Put::Took(0);
        }
        match write_through(&mut self.to, piece) {
            Some(n) => Put::Took(n),
            None => {
                self.faults = self.faults.saturating_add(1);
                Put::Failed
            }
        }
    }
}

// How many bytes of the piece were written and flushed, if any were.
fn write_through<W: Write>(to: &mut W, piece: &[u8]) -> Option<u64>
    ensures { IfSome result (λ n. (0 < n) × (n ≤ length piece.now)) }
{
    match to.write(piece) {
        Ok(n) if n > 0 && to.flush().is_ok() => Some(n as u64),
        _ => None,
    }
}
