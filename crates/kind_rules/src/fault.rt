ghost use Rattle.std.specs.Prelude.{◌≡◌};
ghost use Rattle.kind_rules.specs.declared.fault.TypeFault.TheVariants.{NoMemory as MemoryRefused};

use std::alloc::{AllocError, AllocFailed};
use strm_num::NoMemory;
use thiserror::Error;

/// Why a tree has no kinds. Each number is an offset in bytes from the start of the text, that of the
/// first part that breaks a rule, where the text is gone through from left to right.
#[derive(Clone, Copy, Debug, PartialEq, Eq, Error)]
pub enum TypeFault {
    /// The name at this offset is not in scope.
    #[error("Unknown")]
    Unknown(u32),
    /// The name at this offset was declared or bound before, beside it.
    #[error("Twice")]
    Twice(u32),
    /// The part at this offset is not of the kind that its rule asks for.
    #[error("Mismatch")]
    Mismatch(u32),
    /// The pattern or row at this offset is not as wide as the row that it binds or follows, or it is a
    /// row without parts, which the tree of a text never has.
    #[error("WidthMismatch")]
    WidthMismatch(u32),
    /// At this offset stands the ninth part of a row, or a `zip` whose rows are wider than 8.
    #[error("TooWide")]
    TooWide(u32),
    /// At this offset a division stands in an opening expression.
    #[error("DivisionInOpening")]
    DivisionInOpening(u32),
    /// The name at this offset is in scope and no array input.
    #[error("NotArray")]
    NotArray(u32),
    /// Memory was refused.
    #[error("NoMemory")]
    NoMemory,
}

impl From<NoMemory> for TypeFault {
    ghost from_gives = { λ _ e. e ≡ MemoryRefused };

    fn from(_refused: NoMemory) -> TypeFault {
        TypeFault::NoMemory
    }
}

impl From<AllocError> for TypeFault {
    ghost from_gives = { λ _ e. e ≡ MemoryRefused };

    fn from(_refused: AllocError) -> TypeFault {
        TypeFault::NoMemory
    }
}

impl<T: Drop> From<AllocFailed<T>> for TypeFault {
    ghost from_gives = { λ _ e. e ≡ MemoryRefused };

    fn from(_refused: AllocFailed<T>) -> TypeFault {
        TypeFault::NoMemory
    }
}
