//! The past fixings of a run.

use pay_dates::Day;
use pay_tables::Past;

/// Past fixings, and the last date at which they count.
#[derive(Drop)]
pub struct PastFixings {
    /// The last date at which they count; after it the scenarios count.
    pub asof: Day,
    /// The fixings, in order of date.
    pub fixings: Past,
}
