ghost use Rattle.strm_io.specs.Devices.{LeavesFiles};
ghost use Rattle.strm_io.specs.Loading.{LoadsFile, LoadsRest, LoadHasCause};

use crate::reading::{Files, Opened, Piece};
use std::alloc::Global;

/// Why a file wasn't loaded.
#[derive(Clone, Copy)]
pub enum LoadFault {
    /// There is no such file: it comes only where `misses` of the files rose in the call.
    Missing,
    /// The file has more bytes than the limit.
    TooLong,
    /// The device failed: it comes only where `faults` of the files rose in the call.
    Read,
    /// Memory was refused.
    NoMemory,
}

/// The bytes of the named file, read to its end, at most `limit` of them.
///
/// Over a store that tells its bytes the answer is exact, unless it is `Read` or `NoMemory`: it
/// is `Missing` exactly where no such name is held, `TooLong` exactly where the file has more
/// than `limit` bytes, and else the file's bytes.
pub fn load<F: Files>(
    alloc: Global,
    files: &mut F,
    name: &str,
    limit: u64,
) -> Result<Vec<u8>, LoadFault>
    ensures loads { LoadsFile (F.told files.old).holds name.now limit result }
    ensures leaves { LeavesFiles (F.told files.old) (F.told files.new) (LoadHasCause result) }
{
    match files.open_file(name) {
        Opened::Found => load_rest(alloc, files, limit),
        Opened::Missing => Err(LoadFault::Missing),
        Opened::Failed => Err(LoadFault::Read),
    }
}

// What is left of the open file, at most `limit` bytes.
fn load_rest<F: Files>(alloc: Global, files: &mut F, limit: u64) -> Result<Vec<u8>, LoadFault>
    ensures loads { LoadsRest (F.told files.old).left limit result }
    ensures leaves { LeavesFiles (F.told files.old) (F.told files.new) (LoadHasCause result) }
{
    let mut bytes = Vec::new(alloc);
    let mut buffer = [0u8; 8_192];
    while bytes.len() as u64 <= limit {
        match files.piece(&mut buffer) {
            Piece::Got(n) => {
                if bytes.extend_from_slice(&buffer[..n as usize]).is_err() {
                    return Err(LoadFault::NoMemory);
                }
            }
            Piece::AtEnd => return Ok(bytes),
            Piece::Failed => return Err(LoadFault::Read),
        }
    }
    Err(LoadFault::TooLong)
}
