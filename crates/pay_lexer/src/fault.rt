//! Why a text is not cut into tokens.

use std::alloc::{AllocError, AllocFailed};
use thiserror::Error;

/// Why a text was not cut into tokens.
#[derive(Clone, Copy, PartialEq, Eq, Debug, Error)]
pub enum LexFault {
    /// At the place `at`, counted in bytes from 0, neither a blank, a comment nor a token begins; at each place before
    /// it one does.
    #[error("byte {at}: no token begins here")]
    BadByte { at: u32 },
    /// There was no memory for the tokens.
    #[error("there was no memory for the tokens")]
    NoMemory,
}

impl From<AllocError> for LexFault {
    ghost use Rattle.std.specs.Prelude.{◌≡◌};
    ghost use Rattle.pay_lexer.specs.declared.fault.LexFault.{LexFault};

    ghost from_gives = { λ _ fault. fault ≡ LexFault.NoMemory };

    fn from(_: AllocError) -> LexFault {
        LexFault::NoMemory
    }
}

impl<T: Drop> From<AllocFailed<T>> for LexFault {
    ghost use Rattle.std.specs.Prelude.{◌≡◌};
    ghost use Rattle.pay_lexer.specs.declared.fault.LexFault.{LexFault};

    ghost from_gives = { λ _ fault. fault ≡ LexFault.NoMemory };

    fn from(_: AllocFailed<T>) -> LexFault {
        LexFault::NoMemory
    }
}
