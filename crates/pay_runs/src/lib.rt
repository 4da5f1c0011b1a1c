//! Runs with weights: what scripts mean where comparisons are smoothed, and how many parts a run evaluates. Definitions and laws, hardly any code.
//!
//! - `specs/Weighing.antt`: the weight of a condition, and the effect of statements and the meaning of events with weights. In a crisp run a
//!   condition weighs the whole or nothing, and no smoothing is read.
//! - `specs/Counting.antt`: how many numbers, conditions and statements a run evaluates.
//! - `specs/Slots.antt`, `specs/SlotCounts.antt`: the same for owned trees, over a list of values, one for each variable.
//! - [`laws`]: a crisp run is the direct one, and a run by numbers of variables is that by their names.
#![tactic(auto)]

pub mod laws;
