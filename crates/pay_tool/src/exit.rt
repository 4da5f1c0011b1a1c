//! How the tool ended.

ghost use Rattle.std.specs.Prelude.{◌≡◌};
ghost use Rattle.pay_tool.specs.Exits.{exit_at, status_of};

use pay_inputs::{InputStop, Refusal};
use pay_scenarios::PutStop;
use pay_words::FileName;

/// How the tool ended.
#[derive(Drop)]
pub enum Exit {
    /// The whole answer was given.
    Done,
    /// The words are no request.
    NotRequest,
    /// The input of this name is refused.
    Refused(FileName, Refusal),
    /// The input of this name could not be read, or its file is not there.
    Unread(FileName),
    /// The answer could not be put.
    Unwritten,
    /// There was no memory.
    NoMemory,
}

/// The exit of a request that stopped at the input of this name.
pub fn exit_at(name: FileName, stop: InputStop) -> Exit
    ensures { result ≡ exit_at name stop }
{
    match stop {
        InputStop::Refused(refusal) => Exit::Refused(name, refusal),
        InputStop::Unread => Exit::Unread(name),
        InputStop::NoMemory => Exit::NoMemory,
    }
}

impl From<PutStop> for Exit {
    ghost use Rattle.std.specs.Prelude.{◌≡◌};
    ghost use Rattle.pay_tool.specs.Exits.{exit_of_put};

    ghost from_gives = { λ stop exit. exit ≡ exit_of_put stop };

    fn from(stop: PutStop) -> Exit {
        match stop {
            PutStop::Failed => Exit::Unwritten,
            PutStop::NoMemory => Exit::NoMemory,
        }
    }
}

/// The exit status: 0, or 2 to 6.
pub fn status_of(exit: &Exit) -> u8
    ensures { result ≡ status_of exit.now }
{
    match exit {
        Exit::Done => 0,
        Exit::NotRequest => 2,
        Exit::Refused(_, _) => 3,
        Exit::Unread(_) => 4,
        Exit::Unwritten => 5,
        Exit::NoMemory => 6,
    }
}
