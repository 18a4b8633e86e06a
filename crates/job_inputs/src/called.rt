ghost use Rattle.std.specs.Prelude.{◌≡◌, IfOk};
ghost use Rattle.job_inputs.specs.Names.{name_of};

use status_lines::InputName;
use std::alloc::Global;
use strm_num::{List, NoMemory};

/// What an input is called, where its name is borrowed.
#[derive(Clone, Copy)]
pub enum Called<'a> {
    /// An input of a pipeline: its name.
    Named(&'a [u8]),
    /// A parameter of a C text: its position, counted from 0.
    Position(u64),
}

/// What an input is called, as statuses have it: with a copy of its name.
pub fn input_name(alloc: Global, called: Called<'_>) -> Result<InputName, NoMemory>
    ensures { IfOk result (λ name. name ≡ name_of called.entry) }
{
    match called {
        Called::Named(name) => Ok(InputName::Named(List::from_slice(alloc, name)?)),
        Called::Position(k) => Ok(InputName::Position(k)),
    }
}
