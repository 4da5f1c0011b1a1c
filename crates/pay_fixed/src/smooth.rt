//! How a comparison weighs that is smoothed.

/// How a smoothed comparison weighs its gap in raws, which grows as it comes nearer to being true (left minus right for `>`, right minus left for `<`):
/// from false below to true above, or true around a gap of 0, for `=`.
#[derive(Clone, Copy, PartialEq, Eq, Debug)]
pub enum Smooth {
    /// A call spread: false up to `low`, true from `high` on, and in between the weight rises with the gap.
    Rise {
        /// It is false up to this gap.
        low: i64,
        /// It is true from this gap on.
        high: i64,
    },
    /// A butterfly: true at a gap of 0, and the weight falls on both sides of it.
    Peak {
        /// It is false up to this gap, below 0; where there is none, it is true at each gap below 0.
        below: Option<i64>,
        /// It is false from this gap on, above 0; where there is none, it is true at each gap above 0.
        above: Option<i64>,
    },
}
