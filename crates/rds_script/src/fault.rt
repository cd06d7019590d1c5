ghost use Rattle.std.specs.Prelude.{◌≡◌};
ghost use Rattle.rds_script.specs.declared.fault.Fault.TheVariants as fault;
ghost use Rattle.rds_script.specs.declared.cause.ScriptError.TheVariants as error;

use crate::{Cause, ScriptError};
use rds_wire::Memory;
use std::alloc::{AllocError, AllocFailed};

/// Why a line gave no command.
#[derive(Clone, Copy, Debug, PartialEq, Eq)]
pub(crate) enum Fault {
    Refused(Cause),
    Memory,
}

impl Fault {
    ghost use Rattle.rds_script.specs.Reading.{at_its_line};

    /// The fault at this line.
    pub(crate) fn at(self, line: u32) -> ScriptError
        ensures { result ≡ at_its_line self line }
    {
        match self {
            Fault::Refused(cause) => ScriptError::BadLine { line, cause },
            Fault::Memory => ScriptError::Memory,
        }
    }
}

impl From<Cause> for Fault {
    ghost from_gives = { λ cause e. e ≡ fault.Refused cause };

    fn from(cause: Cause) -> Fault {
        Fault::Refused(cause)
    }
}

impl From<Memory> for Fault {
    ghost from_gives = { λ _ e. e ≡ fault.Memory };

    fn from(_error: Memory) -> Fault {
        Fault::Memory
    }
}

impl From<AllocError> for Fault {
    ghost from_gives = { λ _ e. e ≡ fault.Memory };

    fn from(_error: AllocError) -> Fault {
        Fault::Memory
    }
}

impl<T: Drop> From<AllocFailed<T>> for Fault {
    ghost from_gives = { λ _ e. e ≡ fault.Memory };

    fn from(_error: AllocFailed<T>) -> Fault {
        Fault::Memory
    }
}
