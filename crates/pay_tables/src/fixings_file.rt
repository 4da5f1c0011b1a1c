//! A fixings file, read from its bytes.

ghost use Rattle.std.specs.Prelude.{◌≡◌, ◌≤◌, IfOk, IfErr, OnOk, IsTrue, [], true, false, filter_map};
ghost use Rattle.std.specs.BTreeMap.{keys};
ghost use Rattle.pay_dates.specs.Days.{day_in};
ghost use Rattle.pay_roll.specs.Rolling.{first_of};
ghost use Rattle.pay_tables.specs.Fields.{date_refusal};
ghost use Rattle.pay_tables.specs.FixingsFile.{IsInOrder, IsRead, fixings_in, is_past_header, past_cell, past_refusals, past_row_refusals, past_rows_refusals};
ghost use Rattle.pay_tables.specs.Reader.{Advances, current, left};
ghost use Rattle.pay_tables.specs.Tables.{IsCell, IsGoodPast, is_among};
ghost use Rattle.pay_tables.specs.Views.{IsFirst, Refuses, past};

use crate::fields::{is_word, read_cell, read_date};
use crate::past::{Past, PastRow};
use crate::records::Records;
use crate::refusal::TableRefusal;
use pay_dates::Day;
use pay_fixed::Fixed;
use pay_roll::What;
use std::alloc::{AllocError, Global};
use std::collections::BTreeMap;

/// The most rows.
const MOST_ROWS: u32 = 100_000;

/// The fixings of rows, by their dates.
type Fixings = BTreeMap<Day, Option<Fixed>>;

/// Whether the record is the two fields `date` and `value`, in whatever case.
fn is_header(records: &Records<'_>) -> bool
    ensures { result ≡ is_past_header (current records.now) }
{
    records.len() == 2 && is_word(records.field(0), b"date") && is_word(records.field(1), b"value")
}

/// Reads the header: the first record, if it is the two fields `date` and `value`.
fn read_header(records: &mut Records<'_>) -> Result<(), TableRefusal>
    ensures first { OnOk result (Advances records.old records.new true) }
    ensures header { OnOk result (IsTrue (is_past_header (current records.new))) }
    ensures refused { IfErr result (IsFirst (first_of (past_refusals (left records.old)))) }
{
    if records.advance()? && is_header(records) {
        Ok(())
    } else {
        Err(TableRefusal::BadHeader)
    }
}

/// The date of a field in this row, if it has one that no row before has.
fn new_date(field: &[u8], row: u32, before: &Fixings) -> Result<Day, TableRefusal>
    ensures read { IfOk result (λ date. day_in field.now ≡ Some date) }
    ensures new { IfOk result (λ date. is_among date (keys before.now) ≡ false) }
    ensures refused { IfErr result (IsFirst (date_refusal row (keys before.now) (day_in field.now))) }
{
    let date = read_date(field).ok_or(TableRefusal::BadDate { place: row })?;
    if before.contains_key(&date) {
        return Err(TableRefusal::SameDate { place: row });
    }
    Ok(date)
}

/// The date and the cell of the record that was read last, which is this row, after rows with these fixings.
fn read_row(
    records: &Records<'_>,
    row: u32,
    before: &Fixings,
) -> Result<(Day, Option<Fixed>), TableRefusal>
    ensures accepted { OnOk result (first_of (past_row_refusals row (keys before.now) (current records.now)) ≡ None) }
    ensures read { IfOk result (λ found. past_cell (current records.now) ≡ Some found) }
    ensures new { IfOk result (λ found. is_among found.0 (keys before.now) ≡ false) }
    ensures cell { IfOk result (λ found. IsCell found.1) }
    ensures few { OnOk result (row ≤ 100_000) }
    ensures refused { IfErr result (IsFirst (first_of (past_row_refusals row (keys before.now) (current records.now)))) }
{
    if row > MOST_ROWS {
        return Err(TableRefusal::TooMany {
            what: What::Rows,
            limit: MOST_ROWS,
        });
    }
    if records.len() != 2 {
        return Err(TableRefusal::BadRow { row });
    }
    let date = new_date(records.field(0), row, before)?;
    let value = read_cell(records.field(1)).ok_or(TableRefusal::BadCell { row, column: 2 })?;
    Ok((date, value))
}

/// The fixings of the records that are left, each of which is a row.
fn read_rows(alloc: Global, records: &mut Records<'_>) -> Result<Fixings, TableRefusal>
    ensures accepted { OnOk result (first_of (past_rows_refusals 1 [] (left records.old)) ≡ None) }
    ensures read { IfOk result (λ fixings. IsInOrder (filter_map past_cell (left records.old)) fixings.entries) }
    ensures good { IfOk result (λ fixings. IsGoodPast fixings.entries) }
    ensures refused { IfErr result (IsFirst (first_of (past_rows_refusals 1 [] (left records.old)))) }
{
    let mut fixings = BTreeMap::new(alloc);
    while records.advance()? {
        let row = fixings.len() as u32 + 1;
        let (date, value) = read_row(records, row, &fixings)?;
        fixings.insert(date, value)?;
    }
    Ok(fixings)
}

/// These fixings in order of date.
fn in_order(alloc: Global, fixings: Fixings) -> Result<Past, AllocError>
    ensures { IfOk result (λ found. past found ≡ fixings.entries) }
{
    let rows = fixings
        .into_iter()
        .map(|(date, value)| PastRow { date, value })
        .collect(alloc)?;
    Ok(Past { rows })
}

/// The past fixings of a fixings file, in order of date: a header of `date` and `value`, and under it a row for each date, of the date and a
/// fixing or an empty field.
///
/// The bytes are read as [`read_scenarios`](crate::read_scenarios) reads them, with the same dates and fixings. The dates may stand in any order.
///
/// # Errors
///
/// The first of these, in this order: `BadHeader` unless the first record is the two fields `date` and `value`, in whatever case. Of each
/// row in order: `TooMany` rows for the 100,001st; `BadRow` unless it has two fields; `BadDate` or `SameDate` with its row where its first
/// field is no date, or a date once more; `BadCell`, in column 2, where its second field is neither empty nor a decimal of a magnitude of at
/// most 10^15 raws. `NoMemory` at any time, where there was no memory.
pub fn read_fixings(alloc: Global, bytes: &[u8]) -> Result<Past, TableRefusal>
    ensures read { IfOk result (λ found. IsRead (fixings_in bytes.now) (past found)) }
    ensures good { IfOk result (λ found. IsGoodPast (past found)) }
    ensures refused { IfErr result (Refuses (fixings_in bytes.now)) }
{
    let mut records = Records::new(alloc, bytes);
    read_header(&mut records)?;
    let fixings = read_rows(alloc, &mut records)?;
    Ok(in_order(alloc, fixings)?)
}
