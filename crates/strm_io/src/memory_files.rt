ghost use Rattle.std.specs.Prelude.{◌≡◌, ◌≢◌, ◌<◌, ◌≤◌, [], OnOk, OnErr, IfSome, Some, length};
ghost use Rattle.strm_io.specs.Devices.{LeavesFiles};
ghost use Rattle.strm_io.specs.MemoryStates.{files_told, with_file};
ghost use Rattle.strm_io.specs.MemoryFiles.{GivesMost, found_bytes, store_of};
ghost use Rattle.strm_io.specs.Reading.{BringsPiece, CountsOpening, OpeningHasCause, OpensFile};
ghost use Rattle.strm_io.specs.Reading.{PieceHasCause};
ghost use Rattle.strm_io.specs.Store.{held};

use crate::MEMORY_STEP;
use crate::reading::{Files, Opened, Piece};
use std::alloc::Global;
use std::marker::Model;
use strm_num::NoMemory;

// A file as it was set.
#[derive(Drop)]
struct Entry {
    name: String,
    bytes: Vec<u8>,
}

/// Files over memory, which tell their bytes and never fail. One piece has 8,192 bytes at most.
///
/// A file that is set again under its name hides the earlier one from later openings.
#[derive(Drop)]
pub struct MemFiles {
    // A later entry hides an earlier one of the same name.
    entries: Vec<Entry>,
    // The place of the entry that is open.
    opened: Option<usize>,
    // How many bytes of it were read.
    read: usize,
    faults: u64,
    misses: u64,
}

impl Model for MemFiles {
    ghost use Rattle.strm_io.specs.MemoryStates.{FilesState};

    ghost Value = { FilesState };

    ghost use Rattle.strm_io.specs.MemoryFiles.{files_state, OpensEntry};

    ghost view = { files_state };

    ghost invariant = { OpensEntry };
}

impl MemFiles {
    /// A store without files, where none is open and all counts are 0.
    pub fn new(alloc: Global) -> MemFiles
        ensures { result ≡ record { files = []; left = []; faults = 0; misses = 0 } }
    {
        MemFiles {
            entries: Vec::new(alloc),
            opened: None,
            read: 0,
            faults: 0,
            misses: 0,
        }
    }

    /// Sets the file of this name. The file that is open stays, with what is left of it. A
    /// refused call changes nothing.
    pub fn add(&mut self, name: &str, bytes: &[u8]) -> Result<(), NoMemory>
        ensures ok { OnOk result (self.new ≡ with_file self.old name.now bytes.now) }
        ensures err { OnErr result (self.new ≡ self.old) }
    {
        let alloc = *self.entries.allocator();
        let entry = Entry {
            name: String::from_str(alloc, name)?,
            bytes: Vec::from_slice(alloc, bytes)?,
        };
        self.entries.push(entry)?;
        Ok(())
    }
}

// The place of the last entry of this name.
fn find(entries: &[Entry], name: &str) -> Option<usize>
    ensures found { held (store_of entries.now) name.now ≡ found_bytes entries.now result }
    ensures within { IfSome result (λ i. i < length entries.now) }
{
    let mut found = None;
    for (i, entry) in entries.iter().enumerate() {
        if entry.name.as_str() == name {
            found = Some(i);
        }
    }
    found
}

impl Files for MemFiles {
    ghost use Rattle.std.specs.Prelude.{Some};

    ghost told = { files_told };

    /// It never fails, and counts each name that it doesn't hold. It takes no memory.
    fn open_file(&mut self, name: &str) -> Opened
        ensures opens { OpensFile (Some self.old.files) name.now (Some self.new.left) result }
        ensures leaves { LeavesFiles (files_told self.old) (files_told self.new) (OpeningHasCause result) }
        ensures counts { CountsOpening self.old.misses self.new.misses
            self.old.faults self.new.faults result }
        ensures succeeds { result ≢ Opened.Failed }
    {
        let found = find(&self.entries, name);
        self.opened = found;
        self.read = 0;
        if found.is_some() {
            Opened::Found
        } else {
            self.misses = self.misses.saturating_add(1);
            Opened::Missing
        }
    }

    /// It never fails, and gives as much as the step, the buffer and the file allow. It takes no
    /// memory.
    fn piece(&mut self, buf: &mut [u8]) -> Piece
        requires { 0 < length buf.old }
        ensures brings { BringsPiece (Some self.old.left) (Some self.new.left) buf.new result }
        ensures leaves { LeavesFiles (files_told self.old) (files_told self.new) (PieceHasCause result) }
        ensures misses { self.new.misses ≡ self.old.misses }
        ensures faults { self.new.faults ≡ self.old.faults }
        ensures gives { GivesMost (length self.old.left) (length buf.old) result }
    {
        let Some(i) = self.opened else {
            return Piece::AtEnd;
        };
        let Some(entry) = self.entries.get(i) else {
            return Piece::AtEnd;
        };
        if self.read >= entry.bytes.len() {
            return Piece::AtEnd;
        }
        let most = (MEMORY_STEP as usize)
            .min(buf.len())
            .min(entry.bytes.len() - self.read);
        buf[..most].copy_from_slice(&entry.bytes[self.read..self.read + most]);
        self.read += most;
        Piece::Got(most as u64)
    }
}
