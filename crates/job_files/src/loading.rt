ghost use Rattle.std.specs.Prelude.{◌≡◌, ◌≤◌, IfErr, IfOk};
ghost use Rattle.job_files.specs.Bytes.{bytes_of};
ghost use Rattle.strm_io.specs.Devices.{LeavesFiles};
ghost use Rattle.job_steps.specs.Loads.{FailsWithCause, Loads};
ghost use Rattle.job_steps.specs.Steps.{ComesOf};

use status_lines::{Name, Status};
use std::alloc::Global;
use strm_io::{Files, LoadFault, load};
use strm_num::{List, NoMemory};

/// A copy of a name.
fn copy_of(alloc: Global, name: &str) -> Result<Name, NoMemory>
    ensures { IfOk result (λ copy. copy ≡ name.now) }
{
    List::from_slice(alloc, name.as_bytes())
}

/// The bytes of the named file, at most `limit` of them, or the status that there is else: `Missing`,
/// `TooLong` and `ReadFault` with the name, or `NoMemory`.
pub fn load_file<F: Files>(
    alloc: Global,
    files: &mut F,
    name: &str,
    limit: u64,
) -> Result<Vec<u8>, Status>
    ensures loads { ComesOf bytes_of (Loads (F.told files.old).holds name.now limit) result }
    ensures leaves { LeavesFiles (F.told files.old) (F.told files.new) (FailsWithCause result) }
{
    match load(alloc, files, name, limit) {
        Ok(bytes) => Ok(bytes),
        Err(LoadFault::Missing) => Err(Status::Missing(copy_of(alloc, name)?)),
        Err(LoadFault::TooLong) => Err(Status::TooLong(copy_of(alloc, name)?)),
        Err(LoadFault::Read) => Err(Status::ReadFault(copy_of(alloc, name)?)),
        Err(LoadFault::NoMemory) => Err(Status::NoMemory),
    }
}
