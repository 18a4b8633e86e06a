ghost use Rattle.std.specs.Prelude.{◌≡◌};
ghost use Rattle.value_files.specs.declared.fault.ValueFault.TheVariants.{NoMemory as MemoryRefused};

use strm_num::NoMemory;
use thiserror::Error;

/// Why an item has no word.
#[derive(Clone, Copy, Debug, Error)]
pub enum ItemFault {
    /// It isn't an optional `-` and one decimal digit or more.
    #[error("Bad")]
    Bad,
    /// Its number is below -2^63 or above 2^63 - 1.
    #[error("Range")]
    Range,
}

/// Why a file has no values. Each number is the place of the item's first byte, counted from 0.
#[derive(Clone, Copy, Debug, Error)]
pub enum ValueFault {
    /// The item isn't an optional `-` and one decimal digit or more.
    #[error("Bad")]
    Bad(u64),
    /// The item's number is below -2^63 or above 2^63 - 1.
    #[error("Range")]
    Range(u64),
    /// The item is the 4,194,305th, whatever its bytes are.
    #[error("TooMany")]
    TooMany(u64),
    /// Memory was refused.
    #[error("NoMemory")]
    NoMemory,
}

impl From<NoMemory> for ValueFault {
    ghost from_gives = { λ _ e. e ≡ MemoryRefused };

    fn from(_refused: NoMemory) -> ValueFault {
        ValueFault::NoMemory
    }
}
