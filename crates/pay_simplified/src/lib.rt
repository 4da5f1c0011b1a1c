//! The simplified script, and what trees become where they are pruned by their marks. Definitions and laws, hardly any code:
//!
//! - `specs/Simplified.antt`: the simplified script of events, by names.
//! - `specs/Pruning.antt`: what becomes of owned trees by their marks.
//! - `specs/Examples.antt`: worked examples.
//! - [`laws`]: the simplified script pays, ends and faults as the script; pruned trees stand for it, and can be lowered where the trees could.
#![tactic(auto)]

pub mod laws;
