//! A trade over the scenarios of a table: the report of a run, put in pieces.
//!
//! [`put_report`] compiles a trade once and puts a header, the lines of each scenario, and a last line with how many nodes of the simplified
//! script were evaluated. The fixing of an event is the past one where its date isn't after the as-of date, and else the cell of the scenario
//! in the column of its date. One program, one row, one machine and one outcome serve all scenarios: nothing is allocated for a scenario once
//! they have grown.
//!
//! Proved: what is put is `run_text` of `specs/RunTexts.antt`, the direct meaning of the unsimplified events in each scenario, whole where
//! the call succeeds and else a front of it; and the count of the sink's faults rose where a put failed.
#![tactic(auto)]

mod aligned;
mod columns;
mod put;

pub use put::{PutStop, put_piece, put_report};
