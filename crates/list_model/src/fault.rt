ghost use Rattle.std.specs.Prelude.{◌≡◌};
ghost use Rattle.list_model.specs.declared.fault.ModelFault.TheVariants.{NoMemory as MemoryRefused};

use strm_num::NoMemory;
use thiserror::Error;

/// Why a pipeline isn't observed.
#[derive(Clone, Copy, Debug, Error)]
pub enum ModelFault {
    /// Its work is above 1,000,000.
    #[error("TooMuch")]
    TooMuch,
    /// Memory was refused.
    #[error("NoMemory")]
    NoMemory,
}

impl From<NoMemory> for ModelFault {
    ghost from_gives = { λ _ e. e ≡ MemoryRefused };

    fn from(_refused: NoMemory) -> ModelFault {
        ModelFault::NoMemory
    }
}
