//! Taking one input.

ghost use Rattle.std.specs.Prelude.{◌≡◌, ◌≤◌, IfErr};
ghost use Rattle.list_denotation.specs.declared.input.Input.{Input};
ghost use Rattle.pipe_limits.specs.declared.TheConstants.{MOST_VALUE_BYTES};
ghost use Rattle.value_files.specs.Numbers.{value_of};
ghost use Rattle.strm_io.specs.Devices.{LeavesFiles};
ghost use Rattle.job_steps.specs.Inputs.{ReadsArray, TakesKind, int_of};
ghost use Rattle.job_steps.specs.Loads.{FailsWithCause, Loads};
ghost use Rattle.job_steps.specs.Steps.{ComesOf, Is, Then};
ghost use Rattle.job_inputs.specs.Faults.{IsForNoFile};
ghost use Rattle.job_inputs.specs.Names.{name_of};

use crate::called::{Called, input_name};
use job_files::load_file;
use list_denotation::{Input, InputKind};
use pipe_limits::MOST_VALUE_BYTES;
use status_lines::{InputFault, Status};
use std::alloc::Global;
use strm_io::Files;
use value_files::{ValueFault, value, values};

/// An int, or `BadInput` where this isn't its number.
fn int(alloc: Global, called: Called<'_>, number: &str) -> Result<Input, Status>
    ensures takes { ComesOf (λ (i : Input). i) (Is (int_of (name_of called.entry) (value_of number.now))) result }
    ensures file { IfErr result IsForNoFile }
{
    match value(number.as_bytes()) {
        Ok(word) => Ok(Input::Int(word)),
        Err(_) => Err(Status::BadInput(input_name(alloc, called)?, InputFault::NotANumber)),
    }
}

/// An array of the values that the bytes are, or `BadInput` with their first fault.
fn array(alloc: Global, called: Called<'_>, bytes: &[u8]) -> Result<Input, Status>
    ensures takes { ComesOf (λ (i : Input). i) (ReadsArray (name_of called.entry) bytes.now) result }
    ensures file { IfErr result IsForNoFile }
{
    match values(alloc, bytes) {
        Ok(words) => Ok(Input::Array(words)),
        Err(ValueFault::NoMemory) => Err(Status::NoMemory),
        Err(fault) => {
            let name = input_name(alloc, called)?;
            Err(Status::BadInput(name, InputFault::Values(fault)))
        }
    }
}

/// An array of the values in the named file, or the status that there is else.
fn loaded_array<F: Files>(
    alloc: Global,
    files: &mut F,
    called: Called<'_>,
    file: &str,
) -> Result<Input, Status>
    ensures takes { ComesOf (λ (i : Input). i) (Then (Loads (F.told files.old).holds file.now MOST_VALUE_BYTES)
        (ReadsArray (name_of called.entry))) result }
    ensures leaves { LeavesFiles (F.told files.old) (F.told files.new) (FailsWithCause result) }
{
    let bytes = load_file(alloc, files, file, MOST_VALUE_BYTES)?;
    array(alloc, called, &bytes)
}

/// An input of this kind, by the value that is given for it, or the status that there is else.
pub fn take_input<F: Files>(
    alloc: Global,
    files: &mut F,
    called: Called<'_>,
    kind: InputKind,
    given: &str,
) -> Result<Input, Status>
    ensures takes { ComesOf (λ (i : Input). i)
        (TakesKind (F.told files.old).holds (name_of called.entry) given.now kind) result }
    ensures leaves { LeavesFiles (F.told files.old) (F.told files.new) (FailsWithCause result) }
{
    match kind {
        InputKind::Int => int(alloc, called, given),
        InputKind::Array => loaded_array(alloc, files, called, given),
    }
}
