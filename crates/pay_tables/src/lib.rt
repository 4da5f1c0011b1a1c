//! Tables of comma-separated values: the scenarios of a run, and past fixings.
//!
//! [`read_scenarios`] reads a file such as
//!
//! ```text
//! scenario,2024-06-28,2024-12-30
//! up,112.5,118
//! gone,,97.25
//! ```
//!
//! as two dates and two rows of a label and a cell for each date; the second row has no fixing on the first date. [`read_fixings`] reads a file
//! such as
//!
//! ```text
//! date,value
//! 2024-03-15,5000
//! 2025-03-17,4800
//! ```
//!
//! as past fixings in order of date. A fixing is a number in raws of 1/10,000, so 112.5 is the raw 1,125,000. Both files are read by the crate
//! `csv`, so a file may be one that a spreadsheet writes, with a byte order mark, quotes and any line end. A file that is no such table is
//! refused for the first thing that is wrong in it: a [`TableRefusal`], with its row, its column or both, where it lies in one.
//!
//! Proved: what is read, and the refusal, are those of `specs/ScenarioFile.antt` and `specs/FixingsFile.antt` over the records that `csv`
//! gives. The module [`laws`] proves that records are read as a table, or as past fixings, exactly where they spell it by
//! `specs/Spelling.antt`, and are refused exactly for their fault by `specs/Faults.antt`: neither reads anything in an order.
#![tactic(auto)]

mod fields;
mod fixings_file;
mod label;
pub mod laws;
mod past;
mod records;
mod refusal;
mod scenario_file;
mod scenarios;

pub use fixings_file::read_fixings;
pub use label::{Label, LabelFault};
pub use past::{Past, PastRow};
pub use refusal::TableRefusal;
pub use scenario_file::read_scenarios;
pub use scenarios::{ScenarioRow, Scenarios};
