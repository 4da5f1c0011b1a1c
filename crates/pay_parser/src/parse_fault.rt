//! Why tokens were not read as a script.

use pay_steps::StepFault;
use thiserror::Error;

/// Why tokens were not read as a script.
#[derive(Clone, Copy, PartialEq, Eq, Debug, Error)]
pub enum ParseFault {
    /// A number token has more than 40 bytes or lies beyond the limit of a number, or a name has more than 64 bytes.
    #[error("the number or name at byte {at} is too large")]
    TooLarge {
        /// The place of the first such token.
        at: u32,
    },
    /// More than 100 brackets or 96 `if`s are open, or a stretch has more than 96 operators.
    #[error("too many brackets, ifs or operators at byte {at}")]
    TooDeep {
        /// The place of the first token at which one of these counts is passed.
        at: u32,
    },
    /// The tokens are no script of the language.
    #[error("the tokens are no script")]
    NotScript,
    /// There was no memory for the script's tree.
    #[error("no memory is left for the script")]
    NoMemory,
}

impl From<StepFault> for ParseFault {
    ghost use Rattle.std.specs.Prelude.{◌≡◌};
    ghost use Rattle.pay_parser.specs.Parsing.{fault_of_step};

    ghost from_gives = { λ fault parse. parse ≡ fault_of_step fault };

    fn from(fault: StepFault) -> ParseFault {
        match fault {
            StepFault::NotScript => ParseFault::NotScript,
            StepFault::NoMemory => ParseFault::NoMemory,
        }
    }
}
