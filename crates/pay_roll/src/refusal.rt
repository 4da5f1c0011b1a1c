//! Why a script is refused before it has events.

use pay_dates::Day;
use pay_fixed::NoMemory;

/// What there may be too many of.
#[derive(Clone, Copy, PartialEq, Eq, Debug)]
pub enum What {
    /// Events of a script.
    Events,
    /// Nodes of a script's events: their numbers, conditions and statements.
    Nodes,
    /// Payments of a script's events.
    Pays,
    /// Rows of a table.
    Rows,
    /// Date columns of a table.
    Columns,
    /// Different variables of a script.
    Variables,
    /// Different legs of a script.
    Legs,
}

/// Why a script is refused before it has events.
#[derive(Clone, Copy, PartialEq, Eq, Debug)]
pub enum RollRefusal {
    /// The first date of this schedule isn't before its last, or its step isn't of 1 to 999 units.
    BadSchedule {
        /// The number of the item, from 1.
        item: u32,
    },
    /// Two events have this date, and no earlier one is shared.
    SameDate {
        /// The date.
        date: Day,
    },
    /// The events have more of these than the limit.
    TooMany {
        /// What they have too many of.
        what: What,
        /// How many there may be.
        limit: u32,
    },
    /// There was no memory.
    NoMemory,
}

impl From<NoMemory> for RollRefusal {
    ghost use Rattle.std.specs.Prelude.{◌≡◌};
    ghost use Rattle.pay_roll.specs.declared.refusal.RollRefusal.{RollRefusal};

    ghost from_gives = { λ _ refusal. refusal ≡ RollRefusal.NoMemory };

    fn from(_: NoMemory) -> RollRefusal {
        RollRefusal::NoMemory
    }
}
