//! Past fixings in memory.

ghost use Rattle.std.specs.Prelude.{◌≡◌, []};
ghost use Rattle.pay_tables.specs.Views as view;

use pay_dates::Day;
use pay_fixed::Fixed;
use std::alloc::Global;

/// A past fixing: its date, and its value, or nothing where the file has none for that date.
#[derive(Clone, Copy, Debug)]
pub struct PastRow {
    /// The date.
    pub date: Day,
    /// The value, in raws of 1/10,000.
    pub value: Option<Fixed>,
}

/// Past fixings in order of date.
#[derive(Drop)]
pub struct Past {
    /// The fixings, no two of one date.
    pub rows: Vec<PastRow>,
}

impl Past {
    /// No past fixings.
    pub fn none(alloc: Global) -> Past
        ensures { view.past result ≡ [] }
    {
        Past {
            rows: Vec::new(alloc),
        }
    }
}
