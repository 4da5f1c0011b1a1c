//! Choices that have begun.

use crate::weight::Weight;

/// A choice that has begun. Payments are counted from the first of the event that runs.
#[derive(Clone, Copy)]
pub(crate) enum Frame {
    /// One branch runs alone.
    Alone,
    /// Both branches run, and the true one does now.
    TrueBranch {
        /// The weight of the true branch.
        weight: Weight,
        /// How many payments there were before it.
        before: usize,
        /// How many values were saved before it.
        from: usize,
    },
    /// Both branches run, and the false one does now.
    FalseBranch {
        /// The weight of the true branch.
        weight: Weight,
        /// How many payments there were before the true branch.
        before: usize,
        /// How many payments there were before the false branch.
        between: usize,
        /// How many values were saved before the true branch.
        from: usize,
    },
}
