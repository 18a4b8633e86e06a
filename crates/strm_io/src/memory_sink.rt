ghost use Rattle.std.specs.Prelude.{◌≡◌, ◌≤◌, [], length, IfOk, Some};
ghost use Rattle.strm_io.specs.MemorySink.{TakesMost, UsesRoom};
ghost use Rattle.strm_io.specs.Writing.{PutsPiece, PutHasCause, CountsPut};

use crate::MEMORY_STEP;
use crate::writing::{Put, Sink};
use std::alloc::Global;
use std::marker::Model;
use strm_num::NoMemory;

/// A sink over memory, which tells its bytes and fails where its room is used up. One put takes
/// 8,192 bytes at most.
#[derive(Drop)]
pub struct MemSink {
    // Its capacity has the room that is left.
    bytes: Vec<u8>,
    // How many bytes can still be written.
    room: u64,
    faults: u64,
}

impl Model for MemSink {
    ghost use Rattle.strm_io.specs.MemoryStates.{SinkState};

    ghost Value = { SinkState };

    ghost use Rattle.strm_io.specs.MemorySink.{sink_state, HasReserved};

    ghost view = { sink_state };

    ghost invariant = { HasReserved };
}

impl MemSink {
    /// A sink with nothing written and room for so many bytes, which it reserves here.
    pub fn with_room(alloc: Global, room: u64) -> Result<MemSink, NoMemory>
        ensures { IfOk result (λ s. s ≡ record { written = []; room = room; faults = 0 }) }
    {
        Ok(MemSink {
            bytes: Vec::with_capacity(alloc, room as usize)?,
            room,
            faults: 0,
        })
    }

    /// What was written.
    pub fn bytes(&self) -> &[u8]
        ensures { result.now ≡ self.now.written }
    {
        &self.bytes
    }
}

impl Sink for MemSink {
    ghost use Rattle.std.specs.Prelude.{Some};

    ghost written = { λ s. Some s.written };

    ghost faults = { λ s. s.faults };

    /// It takes as much as the piece, the step and the room allow, and fails exactly where a
    /// piece that isn't empty finds no room. It takes no memory.
    fn put(&mut self, piece: &[u8]) -> Put
        ensures puts { PutsPiece (Some self.old.written) (Some self.new.written) piece.now result }
        ensures cause { PutHasCause self.old.faults self.new.faults result }
        ensures faults { self.old.faults ≤ self.new.faults }
        ensures counts { CountsPut self.old.faults self.new.faults result }
        ensures takes { TakesMost (length piece.now) self.old.room result }
        ensures room { UsesRoom self.old.room self.new.room result }
    {
        let most = (piece.len() as u64).min(self.room).min(MEMORY_STEP);
        if most == 0 && !piece.is_empty() {
            self.faults = self.faults.saturating_add(1);
            return Put::Failed;
        }
        match self.bytes.extend_from_slice(&piece[..most as usize]) {
            Ok(()) => {
                self.room -= most;
                Put::Took(most)
            }
            Err(_) => unreachable!(),
        }
    }
}
