//! The inputs of a request, each fetched whole and then checked.

ghost use Rattle.std.specs.Prelude.{◌≡◌, ◌+◌, ◌≤◌, IfOk, IfErr, IfSome};
ghost use Rattle.pay_edge.specs.Edge.{OnlyRead, SameBut};
ghost use Rattle.pay_meaning.specs.Meaning.{Cells};
ghost use Rattle.pay_passes.specs.Trades as trades;
ghost use Rattle.pay_tables.specs.FixingsFile.{IsInOrder};
ghost use Rattle.pay_tables.specs.Tables.{IsGood, IsGoodPast};
ghost use Rattle.pay_tables.specs.Views.{past, table};
ghost use Rattle.pay_inputs.specs.Inputs.{script_of, script_limit, past_of, fixings_limit, table_of, table_limit, good};
ghost use Rattle.pay_inputs.specs.InputStops.{StopsAt, stop_of_file};
ghost use Rattle.pay_inputs.specs.OwnTerms.{input_at_terms};
ghost use Rattle.pay_inputs.specs.TradeViews.{trade};

use crate::refusal::Refusal;
use crate::script::{CheckStop, check_script};
use pay_edge::{Depot, WholeFault, read_whole};
use pay_passes::Trade;
use pay_tables::{Past, Scenarios, TableRefusal, read_fixings, read_scenarios};
use std::alloc::Global;

/// The greatest length of a script file, in bytes.
const SCRIPT_LIMIT: u32 = 1_048_576;

/// The greatest length of a fixings file, in bytes.
const FIXINGS_LIMIT: u32 = 16_777_216;

/// The greatest length of a scenario file, in bytes.
const TABLE_LIMIT: u32 = 67_108_864;

/// Why an input gave no value.
#[derive(Clone, Copy, PartialEq, Eq, Debug)]
pub enum InputStop {
    /// The input is refused.
    Refused(Refusal),
    /// A fetch failed, or the file is not there.
    Unread,
    /// There was no memory.
    NoMemory,
}

/// The stop of a file of at most so many bytes that was not read as a whole.
fn stop_of_file(limit: u32, fault: WholeFault) -> InputStop
    ensures { result ≡ stop_of_file limit fault }
{
    match fault {
        WholeFault::Absent => InputStop::Unread,
        WholeFault::Failed => InputStop::Unread,
        WholeFault::TooLong => InputStop::Refused(Refusal::TooLong { limit }),
        WholeFault::NoMemory => InputStop::NoMemory,
    }
}

impl From<CheckStop> for InputStop {
    ghost use Rattle.std.specs.Prelude.{◌≡◌};
    ghost use Rattle.pay_inputs.specs.InputStops.{stop_of_script};

    ghost from_gives = { λ fault stop. stop ≡ stop_of_script fault };

    fn from(fault: CheckStop) -> InputStop {
        match fault {
            CheckStop::Refused(refusal) => InputStop::Refused(refusal),
            CheckStop::NoMemory => InputStop::NoMemory,
        }
    }
}

impl From<TableRefusal> for InputStop {
    ghost use Rattle.std.specs.Prelude.{◌≡◌};
    ghost use Rattle.pay_inputs.specs.InputStops.{stop_of_table};

    ghost from_gives = { λ fault stop. stop ≡ stop_of_table fault };

    fn from(fault: TableRefusal) -> InputStop {
        match fault {
            TableRefusal::BadHeader => InputStop::Refused(Refusal::BadHeader),
            TableRefusal::BadDate { place } => InputStop::Refused(Refusal::BadDate { place }),
            TableRefusal::SameDate { place } => InputStop::Refused(Refusal::RepeatedDate { place }),
            TableRefusal::BadRow { row } => InputStop::Refused(Refusal::BadRow { row }),
            TableRefusal::BadName { row } => InputStop::Refused(Refusal::BadName { row }),
            TableRefusal::BadCell { row, column } => InputStop::Refused(Refusal::BadCell {
                row,
                column,
            }),
            TableRefusal::TooMany { what, limit } => InputStop::Refused(Refusal::TooMany {
                what,
                limit,
            }),
            TableRefusal::NoMemory => InputStop::NoMemory,
        }
    }
}

/// What the script file `name` has.
///
/// # Errors
///
/// `Refused` with the reason, `Unread` where a fetch failed or the depot tells its files and this one is not there,
/// `NoMemory` where there was no memory.
pub fn read_script<D: Depot>(alloc: Global, depot: &mut D, name: &str) -> Result<Trade, InputStop>
    ensures reads { OnlyRead D.files D.read_faults D.write_faults depot.old depot.new }
    ensures other_names { SameBut name.now (D.read_faults depot.old) (D.read_faults depot.new) }
    ensures fetches { D.fetches depot.new ≤ D.fetches depot.old + (script_limit + 1) }
    ensures accepted { IfOk result (λ found. IfSome (D.files depot.old) (λ files. input_at_terms (script_of files name.now) ≡ good (trade found))) }
    ensures good { IfOk result trades.IsGood }
    ensures stopped { IfErr result (StopsAt (D.files depot.old) (λ files. script_of files name.now)
        (D.read_faults depot.old name.now) (D.read_faults depot.new name.now)) }
{
    let bytes = match read_whole(alloc, depot, name, u64::from(SCRIPT_LIMIT)) {
        Ok(bytes) => bytes,
        Err(fault) => return Err(stop_of_file(SCRIPT_LIMIT, fault)),
    };
    let found = check_script(alloc, bytes.as_slice())?;
    Ok(found)
}

/// The past fixings of the fixings file `name`, in order of date.
///
/// # Errors
///
/// `Refused` with the reason, `Unread` where a fetch failed or the depot tells its files and this one is not there,
/// `NoMemory` where there was no memory.
#[tactic(auto, unfolding(crate::specs::Inputs::checked_fixings))]
pub fn read_past<D: Depot>(alloc: Global, depot: &mut D, name: &str) -> Result<Past, InputStop>
    ensures reads { OnlyRead D.files D.read_faults D.write_faults depot.old depot.new }
    ensures other_names { SameBut name.now (D.read_faults depot.old) (D.read_faults depot.new) }
    ensures fetches { D.fetches depot.new ≤ D.fetches depot.old + (fixings_limit + 1) }
    ensures accepted { IfOk result (λ found. IfSome (D.files depot.old) (λ files.
        (cells : Cells) × (past_of files name.now ≡ good cells) × IsInOrder cells (past found))) }
    ensures good { IfOk result (λ found. IsGoodPast (past found)) }
    ensures stopped { IfErr result (StopsAt (D.files depot.old) (λ files. past_of files name.now)
        (D.read_faults depot.old name.now) (D.read_faults depot.new name.now)) }
{
    let bytes = match read_whole(alloc, depot, name, u64::from(FIXINGS_LIMIT)) {
        Ok(bytes) => bytes,
        Err(fault) => return Err(stop_of_file(FIXINGS_LIMIT, fault)),
    };
    let found = read_fixings(alloc, bytes.as_slice())?;
    Ok(found)
}

/// The table of the scenario file `name`.
///
/// # Errors
///
/// `Refused` with the reason, `Unread` where a fetch failed or the depot tells its files and this one is not there,
/// `NoMemory` where there was no memory.
#[tactic(auto, unfolding(crate::specs::Inputs::checked_table))]
pub fn read_table<D: Depot>(
    alloc: Global,
    depot: &mut D,
    name: &str,
) -> Result<Scenarios, InputStop>
    ensures reads { OnlyRead D.files D.read_faults D.write_faults depot.old depot.new }
    ensures other_names { SameBut name.now (D.read_faults depot.old) (D.read_faults depot.new) }
    ensures fetches { D.fetches depot.new ≤ D.fetches depot.old + (table_limit + 1) }
    ensures accepted { IfOk result (λ scenarios. IfSome (D.files depot.old) (λ files. table_of files name.now ≡ good (table scenarios))) }
    ensures good { IfOk result (λ scenarios. IsGood (table scenarios)) }
    ensures stopped { IfErr result (StopsAt (D.files depot.old) (λ files. table_of files name.now)
        (D.read_faults depot.old name.now) (D.read_faults depot.new name.now)) }
{
    let bytes = match read_whole(alloc, depot, name, u64::from(TABLE_LIMIT)) {
        Ok(bytes) => bytes,
        Err(fault) => return Err(stop_of_file(TABLE_LIMIT, fault)),
    };
    let scenarios = read_scenarios(alloc, bytes.as_slice())?;
    Ok(scenarios)
}
