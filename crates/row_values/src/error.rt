ghost use Rattle.std.specs.Prelude.{◌≡◌};
ghost use Rattle.row_values.specs.declared.error.ExecError.TheVariants.{Fault, NoMemory as OutOfMemory};

use null_logic::RunFault;
use perm_values::NoMemory;
use std::alloc::{AllocError, AllocFailed};

/// Why an evaluation has no value.
#[derive(Clone, Copy, PartialEq, Eq)]
pub enum ExecError {
    /// A fault that the evaluation meets.
    Fault(RunFault),
    /// There was not enough memory.
    NoMemory,
}

impl From<RunFault> for ExecError {
    ghost from_gives = { λ fault error. error ≡ Fault fault };

    fn from(fault: RunFault) -> ExecError {
        ExecError::Fault(fault)
    }
}

impl From<NoMemory> for ExecError {
    ghost from_gives = { λ _ error. error ≡ OutOfMemory };

    fn from(_error: NoMemory) -> ExecError {
        ExecError::NoMemory
    }
}

impl From<AllocError> for ExecError {
    ghost from_gives = { λ _ error. error ≡ OutOfMemory };

    fn from(_error: AllocError) -> ExecError {
        ExecError::NoMemory
    }
}

impl<T: Drop> From<AllocFailed<T>> for ExecError {
    ghost from_gives = { λ _ error. error ≡ OutOfMemory };

    fn from(_error: AllocFailed<T>) -> ExecError {
        ExecError::NoMemory
    }
}
