//! Why a script is no trade.

use pay_dates::Day;
use pay_passes::IndexRefusal;
use pay_roll::{RollRefusal, What};

/// Why a script is no trade.
#[derive(Clone, Copy, PartialEq, Eq, Debug)]
pub enum CompileRefusal {
    /// A schedule's first date isn't before its last, or its step isn't of 1 to 999 units.
    BadSchedule {
        /// The item of the script that it is, counted from 1.
        item: u32,
    },
    /// Two events have one date.
    SameDate {
        /// The earliest date that two events have.
        date: Day,
    },
    /// There are more of these than the limit.
    TooMany {
        /// What there are too many of.
        what: What,
        /// How many there may be.
        limit: u32,
    },
    /// There was no memory.
    NoMemory,
}

impl From<RollRefusal> for CompileRefusal {
    ghost use Rattle.std.specs.Prelude.{◌≡◌};
    ghost use Rattle.pay_compile.specs.Refusals.{refused_roll};

    ghost from_gives = { λ refusal given. given ≡ refused_roll refusal };

    fn from(refusal: RollRefusal) -> CompileRefusal {
        match refusal {
            RollRefusal::BadSchedule { item } => CompileRefusal::BadSchedule { item },
            RollRefusal::SameDate { date } => CompileRefusal::SameDate { date },
            RollRefusal::TooMany { what, limit } => CompileRefusal::TooMany { what, limit },
            RollRefusal::NoMemory => CompileRefusal::NoMemory,
        }
    }
}

impl From<IndexRefusal> for CompileRefusal {
    ghost use Rattle.std.specs.Prelude.{◌≡◌};
    ghost use Rattle.pay_compile.specs.Refusals.{refused_index};

    ghost from_gives = { λ refusal given. given ≡ refused_index refusal };

    fn from(refusal: IndexRefusal) -> CompileRefusal {
        match refusal {
            IndexRefusal::TooMany { what, limit } => CompileRefusal::TooMany { what, limit },
            IndexRefusal::NoMemory => CompileRefusal::NoMemory,
        }
    }
}
