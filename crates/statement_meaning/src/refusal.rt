ghost use Rattle.std.specs.Prelude.{◌≡◌};
ghost use Rattle.statement_meaning.specs.Answers.{met};
ghost use Rattle.statement_meaning.specs.declared.refusal.StepRefusal.TheVariants.{NoMemory as OutOfMemory};

use csv_tables::DataError;
use name_meaning::Break;
use null_logic::RunFault;
use perm_values::NoMemory;
use row_values::ExecError;
use std::alloc::AllocError;

/// Why a statement isn't carried out. Offsets are those of the statement in the script.
#[derive(Clone, Copy, PartialEq, Eq)]
pub enum StepRefusal {
    /// It breaks a rule of names and kinds, or no number is left to draw.
    Break(Break),
    /// It meets this fault, perhaps among others.
    Run { fault: RunFault, at: usize },
    /// There is no file of its name.
    Missing { at: usize },
    /// Its file has more bytes than may be.
    TooLarge { at: usize },
    /// A record of its file breaks a rule, which isn't want of memory.
    Unfit(DataError),
    /// A call on its file failed.
    ReadFault,
    NoMemory,
}

impl From<NoMemory> for StepRefusal {
    ghost from_gives = { λ _ refusal. refusal ≡ OutOfMemory };

    fn from(_error: NoMemory) -> StepRefusal {
        StepRefusal::NoMemory
    }
}

impl From<AllocError> for StepRefusal {
    ghost from_gives = { λ _ refusal. refusal ≡ OutOfMemory };

    fn from(_error: AllocError) -> StepRefusal {
        StepRefusal::NoMemory
    }
}

impl StepRefusal {
    /// Why a statement at an offset has no value of an evaluation.
    pub fn met(error: ExecError, at: usize) -> StepRefusal
        ensures { result ≡ met at error }
    {
        match error {
            ExecError::Fault(fault) => StepRefusal::Run { fault, at },
            ExecError::NoMemory => StepRefusal::NoMemory,
        }
    }
}
