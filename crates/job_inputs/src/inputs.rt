//! The inputs of a run.

ghost use Rattle.std.specs.Prelude.{◌≡◌, ◌≤◌, List, Err, [], length, IfErr, OnOk};
ghost use Rattle.command_words.specs.Commands.{texts_of};
ghost use Rattle.list_denotation.specs.declared.input.Input.{Input};
ghost use Rattle.strm_io.specs.Devices.{LeavesFiles};
ghost use Rattle.job_steps.specs.Bindings.{placed};
ghost use Rattle.job_steps.specs.Inputs.{BindsInputs, PlacesInputs, TakesInputs};
ghost use Rattle.job_steps.specs.Loads.{FailsWithCause};
ghost use Rattle.job_steps.specs.Steps.{ComesOf};
ghost use Rattle.job_inputs.specs.Faults.{IsForNoFile};
ghost use Rattle.job_inputs.specs.Givens.{bound_givens, placed_givens};
ghost use Rattle.job_inputs.specs.Names.{names_of};

use crate::binding::{check_names, check_words, value_for};
use crate::called::Called;
use crate::input::take_input;
use list_denotation::{InputKinds, Inputs};
use pipe_tree::Decl;
use status_lines::{InputFault, InputName, Status};
use std::alloc::Global;
use strm_io::Files;
use strm_num::List;

/// The inputs by the values that the words bind them to.
fn take_bound<F: Files>(
    alloc: Global,
    files: &mut F,
    words: &[String],
    names: &[Decl],
    kinds: &InputKinds,
) -> Result<Inputs, Status>
    requires { length names.now ≡ length kinds.now }
    ensures takes { ComesOf (λ (is : List Input). is) (TakesInputs (F.told files.old).holds []
        (bound_givens (texts_of words.now) (names_of names.now) kinds.now)) result }
    ensures leaves { LeavesFiles (F.told files.old) (F.told files.new) (FailsWithCause result) }
{
    let mut taken = List::new(alloc);
    for i in 0..kinds.len() {
        let name = names[i as usize].name.text.as_slice();
        let given = value_for(name, words);
        let input = take_input(alloc, files, Called::Named(name), *kinds.get(i), given)?;
        taken.push(input)?;
    }
    Ok(taken)
}

/// The inputs by the values at their positions.
fn take_placed<F: Files>(
    alloc: Global,
    files: &mut F,
    values: &[String],
    kinds: &InputKinds,
) -> Result<Inputs, Status>
    requires { length values.now ≡ length kinds.now }
    ensures takes { ComesOf (λ (is : List Input). is) (TakesInputs (F.told files.old).holds []
        (placed_givens 0 (texts_of values.now) kinds.now)) result }
    ensures leaves { LeavesFiles (F.told files.old) (F.told files.new) (FailsWithCause result) }
{
    let mut taken = List::new(alloc);
    for i in 0..kinds.len() {
        let given = values[i as usize].as_str();
        let input = take_input(alloc, files, Called::Position(i), *kinds.get(i), given)?;
        taken.push(input)?;
    }
    Ok(taken)
}

/// `BadInput` with the position of the first input without a value, or of the first value without an
/// input.
#[tactic(auto, using(crate::proofs::Positions::other_counts))]
fn check_count(values: &[String], kinds: &InputKinds) -> Result<(), Status>
    ensures fault { IfErr result (λ status. placed 0 (texts_of values.now) kinds.now ≡ Err status) }
    ensures file { IfErr result IsForNoFile }
    ensures same { OnOk result (length values.now ≡ length kinds.now) }
{
    let given = values.len() as u64;
    let wanted = kinds.len();
    if given < wanted {
        return Err(Status::BadInput(InputName::Position(given), InputFault::Absent));
    }
    if wanted < given {
        return Err(Status::BadInput(InputName::Position(wanted), InputFault::Unknown));
    }
    Ok(())
}

/// The inputs that words `NAME=VALUE` bind, in order of declaration, or the status that there is else.
///
/// `BadInput` comes for the first word whose name is no input's or is bound by a word before it, and then
/// for the first input that no word binds. Then, input by input, `BadInput` comes for what isn't a number
/// or a file of values, and `Missing`, `TooLong` or `ReadFault` for a file. `NoMemory` may come at any
/// time.
pub fn bound_inputs<F: Files>(
    alloc: Global,
    files: &mut F,
    words: &[String],
    names: &[Decl],
    kinds: &InputKinds,
) -> Result<Inputs, Status>
    requires { length names.now ≡ length kinds.now }
    ensures inputs { ComesOf (λ (is : List Input). is)
        (BindsInputs (F.told files.old).holds (texts_of words.now) (names_of names.now) kinds.now) result }
    ensures leaves { LeavesFiles (F.told files.old) (F.told files.new) (FailsWithCause result) }
{
    check_words(alloc, words, names)?;
    check_names(alloc, words, names)?;
    take_bound(alloc, files, words, names, kinds)
}

/// The inputs that values are given for in order, or the status that there is else.
///
/// `BadInput` comes with the position of the first input that no value is given for, or of the first value
/// that there is no input for. Then it goes on as in `bound_inputs`.
pub fn placed_inputs<F: Files>(
    alloc: Global,
    files: &mut F,
    values: &[String],
    kinds: &InputKinds,
) -> Result<Inputs, Status>
    ensures inputs { ComesOf (λ (is : List Input). is)
        (PlacesInputs (F.told files.old).holds (texts_of values.now) kinds.now) result }
    ensures leaves { LeavesFiles (F.told files.old) (F.told files.new) (FailsWithCause result) }
{
    check_count(values, kinds)?;
    take_placed(alloc, files, values, kinds)
}
