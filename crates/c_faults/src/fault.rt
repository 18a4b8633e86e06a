ghost use Rattle.std.specs.Prelude.{◌≡◌};
ghost use Rattle.c_faults.specs.declared.fault.CFault.TheVariants.{NoMemory as MemoryRefused};

use std::alloc::AllocError;
use strm_num::NoMemory;
use thiserror::Error;

/// Why a C text is no program of the C subset. Each place is a number of bytes from the start of the text.
#[derive(Clone, Copy, Debug, Error)]
pub enum CFault {
    /// No token, blank or whole comment begins at this place.
    #[error("Lex")]
    Lex(u32),
    /// With the bracket at this place more than `MOST_OPEN_BRACKETS` are open.
    #[error("TooDeep")]
    TooDeep(u32),
    /// With the token at this place no program goes on; or the text, which is so long, only begins one.
    /// 0 for a text that doesn't begin with the line of the header.
    #[error("Syntax")]
    Syntax(u32),
    /// The name at this place isn't declared.
    #[error("Unbound")]
    Unbound(u32),
    /// Memory was refused.
    #[error("NoMemory")]
    NoMemory,
}

impl From<NoMemory> for CFault {
    ghost from_gives = { λ _ e. e ≡ MemoryRefused };

    fn from(_refused: NoMemory) -> CFault {
        CFault::NoMemory
    }
}

impl From<AllocError> for CFault {
    ghost from_gives = { λ _ e. e ≡ MemoryRefused };

    fn from(_refused: AllocError) -> CFault {
        CFault::NoMemory
    }
}
