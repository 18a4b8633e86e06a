ghost use Rattle.std.specs.Prelude.{◌≡◌, ◌≤◌, length, IfErr};
ghost use Rattle.job_files.specs.Sources.{boxed_routine};
ghost use Rattle.strm_io.specs.Devices.{LeavesFiles};
ghost use Rattle.job_steps.specs.CTexts.{LoadsC, ReadsC};
ghost use Rattle.job_steps.specs.Loads.{FailsWithCause};
ghost use Rattle.job_steps.specs.Steps.{ComesOf};

use crate::loading::load_file;
use c_subset_reader::read_c;
use loop_ir::Prog;
use pipe_limits::MOST_C_BYTES;
use status_lines::Status;
use std::alloc::Global;
use strm_io::Files;

/// The program of a C text of at most 33,554,432 bytes, or the status for its first fault.
fn read_routine(alloc: Global, src: &[u8]) -> Result<Box<Prog>, Status>
    requires { length src.now ≤ MOST_C_BYTES }
    ensures { ComesOf boxed_routine (ReadsC src.now) result }
{
    let program = read_c(alloc, src)?;
    Ok(Box::new(alloc, program)?)
}

/// The program of the C text in the named file, or the status that there is else.
pub fn loaded_c<F: Files>(alloc: Global, files: &mut F, name: &str) -> Result<Box<Prog>, Status>
    ensures reads { ComesOf boxed_routine (LoadsC (F.told files.old).holds name.now) result }
    ensures leaves { LeavesFiles (F.told files.old) (F.told files.new) (FailsWithCause result) }
{
    let src = load_file(alloc, files, name, MOST_C_BYTES)?;
    read_routine(alloc, src.as_slice())
}
