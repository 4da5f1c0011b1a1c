//! Why a token was not taken.

use pay_tree::NameFault;
use std::alloc::{AllocError, AllocFailed};

/// Why a token was not taken, or a script not ended.
#[derive(Clone, Copy, PartialEq, Eq, Debug)]
pub enum StepFault {
    /// The token can't stand there, or no script ends there.
    NotScript,
    /// There was no memory for what the token adds.
    NoMemory,
}

impl From<AllocError> for StepFault {
    ghost use Rattle.std.specs.Prelude.{◌≡◌};
    ghost use Rattle.pay_place.specs.declared.step_fault.StepFault.{StepFault};

    ghost from_gives = { λ _ fault. fault ≡ StepFault.NoMemory };

    fn from(_: AllocError) -> StepFault {
        StepFault::NoMemory
    }
}

impl<T: Drop> From<AllocFailed<T>> for StepFault {
    ghost use Rattle.std.specs.Prelude.{◌≡◌};
    ghost use Rattle.pay_place.specs.declared.step_fault.StepFault.{StepFault};

    ghost from_gives = { λ _ fault. fault ≡ StepFault.NoMemory };

    fn from(_: AllocFailed<T>) -> StepFault {
        StepFault::NoMemory
    }
}

impl From<NameFault> for StepFault {
    ghost use Rattle.std.specs.Prelude.{◌≡◌};
    ghost use Rattle.pay_place.specs.ReadingViews.{fault_of_name};

    ghost from_gives = { λ fault step. step ≡ fault_of_name fault };

    fn from(fault: NameFault) -> StepFault {
        match fault {
            NameFault::NotName => StepFault::NotScript,
            NameFault::NoMemory => StepFault::NoMemory,
        }
    }
}
