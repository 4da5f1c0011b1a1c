//! A trade: a script's events with its variables and legs by number.

use pay_fixed::NoMemory;
use pay_roll::What;
use pay_tree::{Event, Name};

/// A trade: events whose variables and legs are numbers, and the names of these.
#[derive(Drop)]
pub struct Trade {
    /// The names of the variables: each stands at its number, from 0.
    pub names: Vec<Name>,
    /// The names of the legs: each stands at its number, from 0.
    pub legs: Vec<Name>,
    /// The events, in order of date.
    pub events: Vec<Event>,
}

/// Why a script with events is no trade.
#[derive(Clone, Copy, PartialEq, Eq, Debug)]
pub enum IndexRefusal {
    /// The script has more of these than the limit.
    TooMany {
        /// What it has too many of.
        what: What,
        /// How many there may be.
        limit: u32,
    },
    /// There was no memory.
    NoMemory,
}

impl From<NoMemory> for IndexRefusal {
    ghost use Rattle.std.specs.Prelude.{◌≡◌};
    ghost use Rattle.pay_passes.specs.declared.trade.IndexRefusal.{IndexRefusal};

    ghost from_gives = { λ _ refusal. refusal ≡ IndexRefusal.NoMemory };

    fn from(_: NoMemory) -> IndexRefusal {
        IndexRefusal::NoMemory
    }
}
