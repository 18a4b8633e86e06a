ghost use Rattle.std.specs.Prelude.{◌<◌, length};
ghost use Rattle.strm_io.specs.Devices.{FilesTold, LeavesFiles};
ghost use Rattle.strm_io.specs.Reading.{OpensFile, OpeningHasCause, BringsPiece, PieceHasCause};

/// The answer of `Files::open_file`.
#[derive(Clone, Copy)]
pub enum Opened {
    /// The file is open, and is read from its first byte.
    Found,
    /// There is no such file. No file is open.
    Missing,
    /// The device failed. No file is open.
    Failed,
}

/// The answer of `Files::piece`.
#[derive(Clone, Copy)]
pub enum Piece {
    /// So many bytes at the start of the buffer are the next of the file, at least one.
    Got(u64),
    /// The file has no byte more, or no file is open.
    AtEnd,
    /// The device failed. No file is open.
    Failed,
}

/// Files that are read one at a time, each from its start to its end.
///
/// Contracts see what the files tell of themselves (`told`): what the store holds and what is still to be read of
/// the open file, both where the device tells them, and two counts that never fall: of the calls that failed and of
/// those that found no file.
pub trait Files {
    ghost told: { Self → FilesTold };

    /// Makes the named file the one that is read, from its first byte.
    ///
    /// `Missing` comes only where the misses rose in this call, and over a store that tells it
    /// comes exactly where no such name is held and the answer isn't `Failed`. `Failed` comes
    /// only where the faults rose in this call.
    fn open_file(&mut self, name: &str) -> Opened
        ensures opens { OpensFile (told self.old).holds name.now (told self.new).left result }
        ensures leaves { LeavesFiles (told self.old) (told self.new) (OpeningHasCause result) };

    /// Takes the next bytes of the open file into the start of `buf`, which isn't empty.
    ///
    /// `AtEnd` comes only where nothing is left to be read. `Failed` comes only where the faults
    /// rose in this call.
    fn piece(&mut self, buf: &mut [u8]) -> Piece
        requires { 0 < length buf.old }
        ensures brings { BringsPiece (told self.old).left (told self.new).left buf.new result }
        ensures leaves { LeavesFiles (told self.old) (told self.new) (PieceHasCause result) };
}
