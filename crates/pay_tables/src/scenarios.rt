//! A table of scenarios in memory.

use crate::label::Label;
use pay_dates::Day;
use pay_fixed::Fixed;

/// A scenario: its label, and a fixing or nothing for each date.
#[derive(Drop)]
pub struct ScenarioRow {
    /// The label.
    pub label: Label,
    /// The cells, one for each date of the table in its order.
    pub cells: Vec<Option<Fixed>>,
}

/// A table of scenarios: the dates of its columns, and its rows in the order of the file.
#[derive(Drop)]
pub struct Scenarios {
    /// The dates of the columns.
    pub dates: Vec<Day>,
    /// The rows, one for each scenario.
    pub rows: Vec<ScenarioRow>,
}
