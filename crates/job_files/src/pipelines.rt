ghost use Rattle.std.specs.Prelude.{◌≡◌, ◌≤◌, length, IfErr};
ghost use Rattle.job_files.specs.Sources.{source_of};
ghost use Rattle.strm_io.specs.Devices.{LeavesFiles};
ghost use Rattle.job_steps.specs.Loads.{FailsWithCause};
ghost use Rattle.job_steps.specs.Pipelines.{LoadsPipeline, ReadsPipeline};
ghost use Rattle.job_steps.specs.Steps.{ComesOf};

use crate::loading::load_file;
use crate::source::Source;
use kind_rules::typed_trees_stand_for_programs;
use pipe_grammar::parse;
use pipe_lexer::tokens;
use pipe_limits::MOST_BYTES;
use pipe_types::check;
use status_lines::Status;
use std::alloc::Global;
use strm_io::Files;

/// The pipeline of a text of at most 65,536 bytes, or the status for its first fault: that of its tokens,
/// of its tree or of its kinds.
pub fn read_pipeline(alloc: Global, src: &[u8]) -> Result<Box<Source>, Status>
    requires { length src.now ≤ MOST_BYTES }
    ensures { ComesOf source_of (ReadsPipeline src.now) result }
{
    typed_trees_stand_for_programs();
    let toks = tokens(alloc, src)?;
    let tree = Box::new(alloc, parse(alloc, src, toks.as_slice())?)?;
    let program = check(alloc, &tree)?;
    Ok(Box::new(alloc, Source { tree, program })?)
}

/// The pipeline in the named file, or the status that there is else.
pub fn loaded_pipeline<F: Files>(
    alloc: Global,
    files: &mut F,
    name: &str,
) -> Result<Box<Source>, Status>
    ensures reads { ComesOf source_of (LoadsPipeline (F.told files.old).holds name.now) result }
    ensures leaves { LeavesFiles (F.told files.old) (F.told files.new) (FailsWithCause result) }
{
    let src = load_file(alloc, files, name, MOST_BYTES)?;
    read_pipeline(alloc, src.as_slice())
}
