//! What the tests of the whole tool share: a script, a table and their report, files in memory, and runs of the tool over
//! them.
//!
//! The runs have no clauses: a test compares what they give when it runs. That a run is not what it has to be is an `Err`,
//! with which the test ends, since only a test itself may abort.
#![tactic(auto)]

mod files;
mod runs;

pub use files::{REPORT, SCRIPT, TABLE, depot_with};
pub use runs::{ROOM, ends, line_of, status_of, words_of};
