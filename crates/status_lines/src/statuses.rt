ghost use Rattle.std.specs.Prelude.{◌≡◌};
ghost use Rattle.status_lines.specs.StatusLines.{code_of};

use crate::refusals::Refusal;
use strm_num::List;
use value_files::ValueFault;

/// The name of a file or of an input, as bytes.
pub type Name = List<u8>;

/// What an input is called.
#[derive(Drop)]
pub enum InputName {
    /// An input of a pipeline: its name.
    Named(Name),
    /// A parameter of a C text: its position, counted from 0.
    Position(u64),
}

/// What is wrong with an input.
#[derive(Clone, Copy)]
pub enum InputFault {
    /// No input is called so.
    Unknown,
    /// It is given a second time.
    Twice,
    /// It isn't given.
    Absent,
    /// What is given for an int isn't a number from -2^63 to 2^63 - 1.
    NotANumber,
    /// The file that is given for an array has this fault. It isn't want of memory.
    Values(ValueFault),
}

/// How the program ends.
#[derive(Drop)]
pub enum Status {
    /// All was done, and the text was written whole.
    Done,
    /// The words are no command.
    Words,
    /// There is no file of this name.
    Missing(Name),
    /// The file that word 1 names is refused.
    Refused(Refusal),
    /// What was run trapped. The text of what came before was written whole.
    Trap,
    /// What was run is still going at this bound. The text of what came before was written whole.
    Spent(u64),
    /// The file of this name wasn't read, for the device failed.
    ReadFault(Name),
    /// The text wasn't written whole, for the device failed.
    WriteFault,
    /// Memory was refused.
    NoMemory,
    /// This input is not as it is declared.
    BadInput(InputName, InputFault),
    /// The file of this name is longer than it may be.
    TooLong(Name),
    /// The C text does what C leaves undefined. The text of what came before was written whole.
    Undefined,
    /// The pipeline's work is more than is done for its lists.
    TooMuch,
}

impl Status {
    /// The number that the program ends with.
    pub fn code(self) -> u8
        ensures { result ≡ code_of self }
    {
        match self {
            Status::Done => 0,
            Status::Words => 1,
            Status::Missing(_) => 2,
            Status::Refused(_) => 3,
            Status::Trap => 4,
            Status::Spent(_) => 5,
            Status::ReadFault(_) => 6,
            Status::WriteFault => 7,
            Status::NoMemory => 8,
            Status::BadInput(..) => 9,
            Status::TooLong(_) => 10,
            Status::Undefined => 11,
            Status::TooMuch => 12,
        }
    }
}
