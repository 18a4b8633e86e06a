ghost use Rattle.std.specs.Prelude.{ℕ, ◌≤◌, List, Option};
ghost use Rattle.strm_io.specs.Writing.{PutsPiece, PutHasCause};

/// The answer of `Sink::put`.
#[derive(Clone, Copy)]
pub enum Put {
    /// A prefix of so many bytes of the piece was written: at least one, where it has any.
    Took(u64),
    /// The device failed, and what was written is as before.
    Failed,
}

/// What bytes are written to.
///
/// Contracts see what was written so far (`written`), where the device tells it, and the count
/// of the calls that failed (`faults`), which never falls.
pub trait Sink {
    ghost written: { Self → Option (List ℕ) };

    ghost faults: { Self → ℕ };

    /// Writes a prefix of the piece. `Failed` comes only where the faults rose in this call.
    fn put(&mut self, piece: &[u8]) -> Put
        ensures puts { PutsPiece (written self.old) (written self.new) piece.now result }
        ensures cause { PutHasCause (faults self.old) (faults self.new) result }
        ensures faults { faults self.old ≤ faults self.new };
}
