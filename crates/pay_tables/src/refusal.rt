//! Why a file gave no table.

use pay_fixed::NoMemory;
use pay_roll::What;
use std::alloc::{AllocError, AllocFailed};

/// Why a file gave no table, or no past fixings. Rows and columns are counted from 1; the first row is the one under the header, and the
/// first column of a scenario file has the labels.
#[derive(Clone, Copy, PartialEq, Eq, Debug)]
pub enum TableRefusal {
    /// There is no record, or the first isn't the header of such a file.
    BadHeader,
    /// A field in the place of a date is no day of the years 1900 to 2199 as `YYYY-MM-DD`.
    BadDate {
        /// Its column in a scenario file, its row in a fixings file.
        place: u32,
    },
    /// A date is there once more.
    SameDate {
        /// Its column in a scenario file, its row in a fixings file.
        place: u32,
    },
    /// A row has more or fewer fields than the header.
    BadRow {
        /// The row.
        row: u32,
    },
    /// The first field of a row is no label.
    BadName {
        /// The row.
        row: u32,
    },
    /// A cell is neither empty nor a decimal of a magnitude of at most 10^15 raws.
    BadCell {
        /// The row.
        row: u32,
        /// The column.
        column: u32,
    },
    /// There are more of these than there may be.
    TooMany {
        /// What there are too many of: rows or columns.
        what: What,
        /// How many there may be.
        limit: u32,
    },
    /// There was no memory.
    NoMemory,
}

impl From<AllocError> for TableRefusal {
    ghost use Rattle.std.specs.Prelude.{◌≡◌};
    ghost use Rattle.pay_tables.specs.declared.refusal.TableRefusal.{TableRefusal};

    ghost from_gives = { λ _ refusal. refusal ≡ TableRefusal.NoMemory };

    fn from(_: AllocError) -> TableRefusal {
        TableRefusal::NoMemory
    }
}

impl<T: Drop> From<AllocFailed<T>> for TableRefusal {
    ghost use Rattle.std.specs.Prelude.{◌≡◌};
    ghost use Rattle.pay_tables.specs.declared.refusal.TableRefusal.{TableRefusal};

    ghost from_gives = { λ _ refusal. refusal ≡ TableRefusal.NoMemory };

    fn from(_: AllocFailed<T>) -> TableRefusal {
        TableRefusal::NoMemory
    }
}

impl From<NoMemory> for TableRefusal {
    ghost use Rattle.std.specs.Prelude.{◌≡◌};
    ghost use Rattle.pay_tables.specs.declared.refusal.TableRefusal.{TableRefusal};

    ghost from_gives = { λ _ refusal. refusal ≡ TableRefusal.NoMemory };

    fn from(_: NoMemory) -> TableRefusal {
        TableRefusal::NoMemory
    }
}
