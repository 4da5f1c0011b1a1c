//! A scenario file, read from its bytes.

ghost use Rattle.std.specs.Prelude.{◌≡◌, ◌+◌, ◌<◌, ◌≤◌, IfOk, IfErr, None, Ok, OnOk, [], drop, length, map, not};
ghost use Rattle.std.specs.Bool.{IsTrue};
ghost use Rattle.pay_roll.specs.Rolling.{first_of};
ghost use Rattle.pay_tables.specs.Fields.{refused_if};
ghost use Rattle.pay_tables.specs.Labels.{is_label};
ghost use Rattle.pay_tables.specs.Reader.{current, left};
ghost use Rattle.pay_tables.specs.ScenarioFile.{cell_of, dates_of, row_of, scenarios_in};
ghost use Rattle.pay_tables.specs.ScenarioFile.{cell_refusals, date_refusals, header_refusals, row_refusals, rows_refusals};
ghost use Rattle.pay_tables.specs.Tables.{IsGood};
ghost use Rattle.pay_tables.specs.Views.{IsFirst, Refuses, row, table};

use crate::fields::{is_word, read_cell, read_date};
use crate::label::{Label, LabelFault};
use crate::records::Records;
use crate::refusal::TableRefusal;
use crate::scenarios::{ScenarioRow, Scenarios};
use pay_dates::Day;
use pay_fixed::Fixed;
use pay_roll::What;
use std::alloc::Global;
use std::collections::BTreeSet;

/// The most dates of a table.
const MOST_DATES: u32 = 4096;

/// The most rows of a table.
const MOST_ROWS: u32 = 100_000;

/// The table of a scenario file: a header of `scenario` and dates, and under it a row for each scenario, of its label and a fixing or an
/// empty field for each date.
///
/// The bytes are those of a file of comma-separated values, as a spreadsheet writes it (RFC 4180), and the crate `csv` reads them: a field may
/// stand in double quotes, a line ends by CR LF, LF or CR, and empty lines count for nothing. Neither do spaces and tabs at both ends of a
/// field, and a UTF-8 byte order mark at the front: one is dropped before `csv` reads, which drops one itself. A date is one of the years 1900
/// to 2199 as `YYYY-MM-DD`. A fixing is a decimal, rounded to raws of 1/10,000. Dates and rows are given in the order of the file.
///
/// # Errors
///
/// The first of these, in this order. Of the header: `BadHeader` where there is no record or the first field isn't `scenario`, in whatever
/// case; `TooMany` columns where more than 4,096 fields follow; then, from the left, `BadDate` or `SameDate` with the column of the first
/// field that is no date or a date once more. Of each row in order: `TooMany` rows for the 100,001st; `BadRow` where it hasn't as many
/// fields as the header; `BadName` where its first field is no label; `BadCell` with the column of the first of the others that is neither
/// empty nor a decimal of a magnitude of at most 10^15 raws. `NoMemory` at any time, where there was no memory.
pub fn read_scenarios(alloc: Global, bytes: &[u8]) -> Result<Scenarios, TableRefusal>
    ensures read { IfOk result (λ scenarios. scenarios_in bytes.now ≡ Ok (table scenarios)) }
    ensures good { IfOk result (λ scenarios. IsGood (table scenarios)) }
    ensures refused { IfErr result (Refuses (scenarios_in bytes.now)) }
{
    let mut records = Records::new(alloc, bytes);
    if !records.advance()? {
        return Err(TableRefusal::BadHeader);
    }
    let dates = read_header(alloc, &records)?;
    let rows = read_rows(alloc, &mut records, dates.len() + 1)?;
    Ok(Scenarios { dates, rows })
}

/// The dates of the header, which is the record that was read last.
fn read_header(alloc: Global, records: &Records<'_>) -> Result<Vec<Day>, TableRefusal>
    ensures accepted { OnOk result (first_of (header_refusals (current records.now)) ≡ None) }
    ensures dates { IfOk result (λ dates. dates.items ≡ dates_of (current records.now)) }
    ensures width { IfOk result (λ dates. length (current records.now) ≡ length dates.items + 1) }
    ensures few { IfOk result (λ dates. length dates.items ≤ 4096) }
    ensures refused { IfErr result (IsFirst (first_of (header_refusals (current records.now)))) }
{
    if records.len() == 0 || !is_word(records.field(0), b"scenario") {
        return Err(TableRefusal::BadHeader);
    }
    if records.len() - 1 > MOST_DATES as usize {
        return Err(TableRefusal::TooMany {
            what: What::Columns,
            limit: MOST_DATES,
        });
    }
    read_dates(alloc, records)
}

/// The dates of the fields after the first.
fn read_dates(alloc: Global, records: &Records<'_>) -> Result<Vec<Day>, TableRefusal>
    requires some { 0 < length (current records.now) }
    requires few { length (current records.now) ≤ 4097 }
    ensures accepted { OnOk result (first_of (date_refusals 2 [] (drop 1 (current records.now))) ≡ None) }
    ensures dates { IfOk result (λ dates. dates.items ≡ dates_of (current records.now)) }
    ensures width { IfOk result (λ dates. length (current records.now) ≡ length dates.items + 1) }
    ensures refused { IfErr result (IsFirst (first_of (date_refusals 2 [] (drop 1 (current records.now))))) }
{
    let mut seen = BTreeSet::new(alloc);
    let mut dates = Vec::with_capacity(alloc, records.len() - 1)?;
    for at in 1..records.len() {
        let place = at as u32 + 1;
        let date = read_date(records.field(at)).ok_or(TableRefusal::BadDate { place })?;
        let is_new = seen.insert(date)?;
        if !is_new {
            return Err(TableRefusal::SameDate { place });
        }
        dates.push(date)?;
    }
    Ok(dates)
}

/// The rows of the records that are left, under a header of so many fields.
fn read_rows(
    alloc: Global,
    records: &mut Records<'_>,
    width: usize,
) -> Result<Vec<ScenarioRow>, TableRefusal>
    requires some { 0 < width }
    requires few { width ≤ 4097 }
    ensures accepted { OnOk result (first_of (rows_refusals width 1 (left records.old)) ≡ None) }
    ensures rows { IfOk result (λ rows. map row rows.items ≡ map row_of (left records.old)) }
    ensures refused { IfErr result (IsFirst (first_of (rows_refusals width 1 (left records.old)))) }
{
    let mut rows = Vec::new(alloc);
    let mut number = 1;
    while records.advance()? {
        let row = read_row(alloc, records, number, width)?;
        rows.push(row)?;
        number += 1;
    }
    Ok(rows)
}

/// The row of the record that was read last, which has this number, under a header of so many fields.
fn read_row(
    alloc: Global,
    records: &Records<'_>,
    number: u32,
    width: usize,
) -> Result<ScenarioRow, TableRefusal>
    requires some { 0 < width }
    requires few { width ≤ 4097 }
    ensures accepted { OnOk result (first_of (row_refusals width number (current records.now)) ≡ None) }
    ensures row { IfOk result (λ r. row r ≡ row_of (current records.now)) }
    ensures number { OnOk result (number ≤ 100_000) }
    ensures refused { IfErr result (IsFirst (first_of (row_refusals width number (current records.now)))) }
{
    if number > MOST_ROWS {
        return Err(TableRefusal::TooMany {
            what: What::Rows,
            limit: MOST_ROWS,
        });
    }
    if records.len() != width {
        return Err(TableRefusal::BadRow { row: number });
    }
    let label = read_label(alloc, records.field(0), number)?;
    let cells = read_cells(alloc, records, number)?;
    Ok(ScenarioRow { label, cells })
}

/// The label of the row of this number.
fn read_label(alloc: Global, field: &[u8], number: u32) -> Result<Label, TableRefusal>
    ensures read { IfOk result (λ label. label ≡ field.now) }
    ensures label { OnOk result (IsTrue (is_label field.now)) }
    ensures refused { IfErr result (IsFirst (refused_if (not (is_label field.now)) (TableRefusal.BadName number))) }
{
    Label::read(alloc, field).map_err(|fault| match fault {
        LabelFault::BadLabel => TableRefusal::BadName { row: number },
        LabelFault::NoMemory => TableRefusal::NoMemory,
    })
}

/// The cells of the fields after the first, in the row of this number.
fn read_cells(
    alloc: Global,
    records: &Records<'_>,
    number: u32,
) -> Result<Vec<Option<Fixed>>, TableRefusal>
    requires some { 0 < length (current records.now) }
    requires few { length (current records.now) ≤ 4097 }
    ensures accepted { OnOk result (first_of (cell_refusals number 2 (drop 1 (current records.now))) ≡ None) }
    ensures cells { IfOk result (λ cells. cells.items ≡ map cell_of (drop 1 (current records.now))) }
    ensures refused { IfErr result (IsFirst (first_of (cell_refusals number 2 (drop 1 (current records.now))))) }
{
    let mut cells = Vec::with_capacity(alloc, records.len() - 1)?;
    for at in 1..records.len() {
        let column = at as u32 + 1;
        let cell = read_cell(records.field(at)).ok_or(TableRefusal::BadCell {
            row: number,
            column,
        })?;
        cells.push(cell)?;
    }
    Ok(cells)
}
