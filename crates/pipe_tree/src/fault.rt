ghost use Rattle.std.specs.Prelude.{◌≡◌};
ghost use Rattle.pipe_tree.specs.declared.fault.ParseFault.TheVariants.{NoMemory as MemoryRefused};

use std::alloc::AllocFailed;
use strm_num::NoMemory;
use thiserror::Error;

/// Why tokens are no sentence within the limits. Each offset is a number of bytes from the start of the
/// text.
#[derive(Clone, Copy, Debug, Error)]
pub enum ParseFault {
    /// At this offset stands the first token that no sentence goes on with; at the text's length, the
    /// tokens only begin a sentence.
    #[error("Syntax")]
    Syntax(u32),
    /// At this offset stands the first token that sentences go on with, but none whose expressions are
    /// at most 200 deep and whose streams are nested at most 16 deep.
    #[error("TooDeep")]
    TooDeep(u32),
    /// At this offset the 17th input is declared.
    #[error("TooManyInputs")]
    TooManyInputs(u32),
    /// At this offset the 129th operator stands: a source, a stage or the terminal.
    #[error("TooManyOps")]
    TooManyOps(u32),
    /// At this offset the 8,193rd node of expressions stands, parentheses counted.
    #[error("TooManyNodes")]
    TooManyNodes(u32),
    /// Memory was refused.
    #[error("NoMemory")]
    NoMemory,
}

impl From<NoMemory> for ParseFault {
    ghost from_gives = { λ _ e. e ≡ MemoryRefused };

    fn from(_refused: NoMemory) -> ParseFault {
        ParseFault::NoMemory
    }
}

impl<T: Drop> From<AllocFailed<T>> for ParseFault {
    ghost from_gives = { λ _ e. e ≡ MemoryRefused };

    fn from(_refused: AllocFailed<T>) -> ParseFault {
        ParseFault::NoMemory
    }
}
