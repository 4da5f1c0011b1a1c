//! Where the fixings of events stand: among the past ones, or in the columns of a table.

ghost use Rattle.std.specs.Prelude.{◌≡◌, ℤ, IfOk, map};
ghost use Rattle.std.specs.Ordering.{int_cmp};
ghost use Rattle.std.specs.BTreeMap.{get};
ghost use Rattle.std.specs.FinMap as fixing;
ghost use Rattle.pay_dates.specs.Days.{day_number};
ghost use Rattle.pay_meaning.specs.Meaning as meant;
ghost use Rattle.pay_tables.specs.Views as tables;
ghost use Rattle.pay_scenarios.specs.Columns.{fixing_from, past_cells, place_of, source_by, source_of};
ghost use Rattle.pay_inputs.specs.PastViews.{lent_past};

use pay_dates::Day;
use pay_fixed::{Fixed, NoMemory};
use pay_inputs::PastFixings;
use pay_tables::PastRow;
use std::alloc::Global;
use std::collections::BTreeMap;

/// Where the fixing of an event stands.
#[derive(Clone, Copy)]
pub enum FixingSource {
    /// Among the past ones: it is this one, or there is none.
    Past(Option<Fixed>),
    /// In a row: it is in this column, or there is none.
    Column(Option<usize>),
}

impl FixingSource {
    /// The fixing, where a row has these cells.
    pub fn fixing(&self, cells: &[Option<Fixed>]) -> Option<Fixed>
        ensures { result ≡ fixing_from self.now cells.now }
    {
        match self {
            FixingSource::Past(fixing) => *fixing,
            FixingSource::Column(Some(place)) if *place < cells.len() => cells[*place],
            FixingSource::Column(_) => None,
        }
    }
}

/// The first place of each date's number among the dates.
fn places_of(alloc: Global, dates: &[Day]) -> Result<BTreeMap<i32, usize>, NoMemory>
    ensures { IfOk result (λ places. (number : ℤ) → get int_cmp places number ≡ place_of number dates.now) }
{
    let mut places = BTreeMap::new(alloc);
    for index in (0..dates.len()).rev() {
        places.insert(dates[index].number(), index)?;
    }
    Ok(places)
}

/// The fixings of these rows, by the numbers of their dates.
fn fixings_of(alloc: Global, rows: &[PastRow]) -> Result<BTreeMap<i32, Fixed>, NoMemory>
    ensures { IfOk result (λ fixings. (number : ℤ) →
        get int_cmp fixings number ≡ fixing.get (meant.fixings_in (map tables.past_cell rows.now)) number) }
{
    let mut fixings = BTreeMap::new(alloc);
    for index in (0..rows.len()).rev() {
        if let Some(value) = rows[index].value {
            fixings.insert(rows[index].date.number(), value)?;
        }
    }
    Ok(fixings)
}

/// The past fixings, if there are any.
fn past_rows(past: Option<&PastFixings>) -> &[PastRow]
    ensures { map tables.past_cell result.now ≡ past_cells (lent_past past.entry) }
{
    match past {
        Some(past) => past.fixings.rows.as_slice(),
        None => &[],
    }
}

/// What a map has for the number of a date.
fn at_date<T: Copy>(map: &BTreeMap<i32, T>, date: Day) -> Option<T>
    ensures { result ≡ get int_cmp map.now (day_number date) }
{
    map.get(&date.number()).copied()
}

/// Whether a date isn't after the as-of date.
fn is_past(asof: Day, date: Day) -> bool
    ensures { result ≡ meant.is_past asof date }
{
    date <= asof
}

/// Where the fixing at a date stands, of which the past has this fixing and a row this column.
fn source_by(
    past: Option<&PastFixings>,
    date: Day,
    fixing: Option<Fixed>,
    column: Option<usize>,
) -> FixingSource
    ensures { result ≡ source_by (lent_past past.entry) date fixing column }
{
    match past {
        Some(past) if is_past(past.asof, date) => FixingSource::Past(fixing),
        _ => FixingSource::Column(column),
    }
}

/// Where the fixing at each of these dates of events stands, with these past fixings, if there are any, and these dates of columns.
///
/// The time is that of one look-up in a map for each past fixing, each date and each event.
///
/// # Errors
///
/// [`NoMemory`] where there was no memory for the maps or for the answer.
pub fn sources_of_dates(
    alloc: Global,
    own: &[Day],
    past: Option<&PastFixings>,
    dates: &[Day],
) -> Result<Vec<FixingSource>, NoMemory>
    ensures { IfOk result (λ sources. sources.items ≡ map (λ date. source_of (lent_past past.entry) dates.now date) own.now) }
{
    let fixings = fixings_of(alloc, past_rows(past))?;
    let places = places_of(alloc, dates)?;
    let mut sources = Vec::new(alloc);
    for date in own {
        let fixing = at_date(&fixings, *date);
        let column = at_date(&places, *date);
        sources.push(source_by(past, *date, fixing, column))?;
    }
    Ok(sources)
}
