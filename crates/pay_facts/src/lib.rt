//! What is known at each place of a script, in every run that reaches it. Definitions and laws, hardly any code:
//!
//! - `specs/Facts.antt`: the raws that each variable can have, and whether the fixing is known to be there.
//! - `specs/Ranges.antt`: the raws that a number can have, the faults that it can have, and whether the fixing is known to be there afterwards.
//! - `specs/Decisions.antt`: whether a condition is decided, and its faults.
//! - `specs/After.antt`: the facts after statements, and before each event.
//! - `specs/Holding.antt`: when facts hold of the variables of a run.
//! - `specs/SlotFacts.antt`: ranges, decisions and facts of owned trees, by the numbers of variables.
//! - `specs/Reached.antt`: the parts of steps that some run can reach, with what each can give; `specs/Visits.antt`: the parts that a run evaluates.
//! - [`laws`]: the facts hold in every run, a comparison of numbers that have raws is decided exactly where all raws agree on it, and folding changes
//!   nothing; facts by number are those by name, and each part that a run evaluates is reached, with facts that it fits.
#![tactic(auto)]

pub mod laws;
