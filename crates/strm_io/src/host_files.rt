ghost use Rattle.std.specs.Prelude.{◌≡◌, ◌<◌, ◌≤◌, length, None, false};
ghost use Rattle.strm_io.specs.Reading.{OpensFile, OpeningHasCause, BringsPiece, PieceHasCause};
ghost use Rattle.strm_io.specs.Devices.{LeavesFiles};
ghost use Rattle.strm_io.specs.HostStates.{after_opening, after_piece, files_told, ReadsOpenFile};

use crate::reading::{Files, Opened, Piece};
use std::fs::File;
use std::io::{ErrorKind, Read};
use std::marker::Model;

/// The files of the host's system, which tell no bytes.
#[derive(Drop)]
pub struct HostFiles {
    rt: HostRuntime,
    file: Option<File>,
    faults: u64,
    misses: u64,
}

impl Model for HostFiles {
    ghost use Rattle.std.specs.Prelude.{is_some};
    ghost use Rattle.strm_io.specs.HostStates.{HostFilesState};

    ghost Value = { HostFilesState };

    ghost view = { λ s. record { is_open = is_some s.file; faults = s.faults; misses = s.misses } };
}

impl HostFiles {
    /// The files that `rt` reaches. None is open, and all counts are 0.
    pub fn new(rt: HostRuntime) -> HostFiles
        ensures { result ≡ record { is_open = false; faults = 0; misses = 0 } }
    {
        HostFiles {
            rt,
            file: None,
            faults: 0,
            misses: 0,
        }
    }

    // Closes the file that is open and counts a fault.
    fn fail(&mut self)
        ensures after { self.new ≡ after_piece self.old Piece.Failed }
        ensures faults { self.old.faults ≤ self.new.faults }
    {
        self.file = None;
        self.faults = self.faults.saturating_add(1);
    }
}

impl Files for HostFiles {
    ghost use Rattle.std.specs.Prelude.{None};

    ghost told = { files_told };

    /// A file is missing where the system says that it isn't found. Each other error is a fault.
    fn open_file(&mut self, name: &str) -> Opened
        ensures opens { OpensFile None name.now None result }
        ensures leaves { LeavesFiles (files_told self.old) (files_told self.new) (OpeningHasCause result) }
        ensures after { self.new ≡ after_opening self.old result }
    {
        match File::open(&self.rt, name) {
            Ok(file) => {
                self.file = Some(file);
                Opened::Found
            }
            Err(error) => {
                self.file = None;
                if error.kind() == ErrorKind::NotFound {
                    self.misses = self.misses.saturating_add(1);
                    Opened::Missing
                } else {
                    self.fail();
                    Opened::Failed
                }
            }
        }
    }

    /// Each error is a fault. A read of no bytes is the end of the file.
    fn piece(&mut self, buf: &mut [u8]) -> Piece
        requires { 0 < length buf.old }
        ensures brings { BringsPiece None None buf.new result }
        ensures leaves { LeavesFiles (files_told self.old) (files_told self.new) (PieceHasCause result) }
        ensures misses { self.new.misses ≡ self.old.misses }
        ensures after { self.new ≡ after_piece self.old result }
        ensures reads { ReadsOpenFile self.old.is_open result }
    {
        match &mut self.file {
            None => Piece::AtEnd,
            Some(file) => match file.read(buf) {
                Ok(0) => Piece::AtEnd,
                Ok(n) => Piece::Got(n as u64),
                Err(_) => {
                    self.fail();
                    Piece::Failed
                }
            },
        }
    }
}
