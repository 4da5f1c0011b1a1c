//! The reports of runs, as comma-separated values written by the crate `csv`.
//!
//! A detail report has the line `scenario,date,leg,amount`, the lines of each scenario, and a last line:
//!
//! ```text
//! scenario,date,leg,amount
//! up,2024-06-28,opt,12.5
//! gone,2024-06-28,!missing fixing,
//! #nodes,7,,
//! ```
//!
//! Each line ends with a line feed, and no field needs quotes. A [`DetailWriter`] gives the lines of scenarios one after the other, with the same
//! buffers. Proved: it gives exactly the bytes that `specs/Detail.antt` says, and each other call appends exactly those, or leaves its text as it
//! was.
#![tactic(auto)]

mod date_text;
mod detail;
mod detail_writer;
mod lines;

pub use detail::{detail_header, detail_rows, nodes_line};
pub use detail_writer::DetailWriter;
