ghost use Rattle.std.specs.Prelude.{◌≡◌};
ghost use Rattle.pipe_lexer.specs.declared.fault.LexFault.TheVariants.{NoMemory as MemoryRefused};

use std::alloc::AllocError;
use strm_num::NoMemory;
use thiserror::Error;

/// Why a text has no tokens. Each offset is a number of bytes from the start of the text.
#[derive(Clone, Copy, Debug, Error)]
pub enum LexFault {
    /// The bytes are not UTF-8. The offset is the length of the longest prefix that is.
    #[error("NotUtf8")]
    NotUtf8(u32),
    /// No token, blank or comment begins at this offset.
    #[error("BadChar")]
    BadChar(u32),
    /// At this offset a number begins that is larger than 9223372036854775807.
    #[error("NumberTooLarge")]
    NumberTooLarge(u32),
    /// Memory was refused.
    #[error("NoMemory")]
    NoMemory,
}

impl From<NoMemory> for LexFault {
    ghost from_gives = { λ _ e. e ≡ MemoryRefused };

    fn from(_refused: NoMemory) -> LexFault {
        LexFault::NoMemory
    }
}

impl From<AllocError> for LexFault {
    ghost from_gives = { λ _ e. e ≡ MemoryRefused };

    fn from(_refused: AllocError) -> LexFault {
        LexFault::NoMemory
    }
}
