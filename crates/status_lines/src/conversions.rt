//! What a fault of a reader ends the program with.

ghost use Rattle.std.specs.Prelude.{◌≡◌};
ghost use Rattle.status_lines.specs.FaultStatuses.{c_status, lex_status, parse_status, type_status};
ghost use Rattle.status_lines.specs.declared.statuses.Status.TheVariants.{NoMemory as MemoryRefused};

use crate::refusals::Refusal;
use crate::statuses::Status;
use c_faults::CFault;
use kind_rules::TypeFault;
use pipe_lexer::LexFault;
use pipe_tree::ParseFault;
use std::alloc::{AllocError, AllocFailed};
use strm_num::NoMemory;

impl From<LexFault> for Status {
    ghost from_gives = { λ e s. s ≡ lex_status e };

    fn from(fault: LexFault) -> Status {
        match fault {
            LexFault::NoMemory => Status::NoMemory,
            _ => Status::Refused(Refusal::Lex(fault)),
        }
    }
}

impl From<ParseFault> for Status {
    ghost from_gives = { λ e s. s ≡ parse_status e };

    fn from(fault: ParseFault) -> Status {
        match fault {
            ParseFault::NoMemory => Status::NoMemory,
            _ => Status::Refused(Refusal::Parse(fault)),
        }
    }
}

impl From<TypeFault> for Status {
    ghost from_gives = { λ e s. s ≡ type_status e };

    fn from(fault: TypeFault) -> Status {
        match fault {
            TypeFault::NoMemory => Status::NoMemory,
            _ => Status::Refused(Refusal::Kinds(fault)),
        }
    }
}

impl From<CFault> for Status {
    ghost from_gives = { λ e s. s ≡ c_status e };

    fn from(fault: CFault) -> Status {
        match fault {
            CFault::NoMemory => Status::NoMemory,
            _ => Status::Refused(Refusal::C(fault)),
        }
    }
}

impl From<NoMemory> for Status {
    ghost from_gives = { λ _ s. s ≡ MemoryRefused };

    fn from(_refused: NoMemory) -> Status {
        Status::NoMemory
    }
}

impl From<AllocError> for Status {
    ghost from_gives = { λ _ s. s ≡ MemoryRefused };

    fn from(_refused: AllocError) -> Status {
        Status::NoMemory
    }
}

impl<T: Drop> From<AllocFailed<T>> for Status {
    ghost from_gives = { λ _ s. s ≡ MemoryRefused };

    fn from(_refused: AllocFailed<T>) -> Status {
        Status::NoMemory
    }
}
