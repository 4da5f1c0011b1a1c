//! The report, put in pieces.

ghost use Rattle.std.specs.Prelude.{◌≡◌, ◌*◌, ◌≤◌, OnOk, IfErr, IfOk, IsErrOf, All, length, map};
ghost use Rattle.std.specs.List.{flat_map};
ghost use Rattle.pay_edge.specs.Edge.{Rose, appended, AppendsFront};
ghost use Rattle.pay_report.specs.Detail.{header_line, nodes_line};
ghost use Rattle.pay_passes.specs.Trades as trades;
ghost use Rattle.pay_tables.specs.Tables.{IsCell, IsGood};
ghost use Rattle.pay_tables.specs.Views.{row, table};
ghost use Rattle.pay_scenarios.specs.Aligned.{AreFor, AreGoodIfGiven, RunsMean};
ghost use Rattle.pay_inputs.specs.PastViews.{lent_past};
ghost use Rattle.pay_scenarios.specs.RowLines.{lines_of, nodes_of};
ghost use Rattle.pay_scenarios.specs.RunTexts.{run_text, sum_over};
ghost use Rattle.pay_inputs.specs.TradeViews.{trade};

use crate::aligned::{AlignedProgram, Runs};
use pay_edge::Sink;
use pay_fixed::NoMemory;
use pay_inputs::PastFixings;
use pay_passes::Trade;
use pay_report::{DetailWriter, detail_header, nodes_line};
use pay_tables::{ScenarioRow, Scenarios};
use std::alloc::Global;

/// Why a report was not put whole.
#[derive(Clone, Copy, PartialEq, Eq, Debug)]
pub enum PutStop {
    /// A put failed, and the count of the sink's faults rose.
    Failed,
    /// There was no memory.
    NoMemory,
}

impl From<NoMemory> for PutStop {
    ghost use Rattle.std.specs.Prelude.{◌≡◌};
    ghost use Rattle.pay_scenarios.specs.declared.put.PutStop.{PutStop};

    ghost from_gives = { λ _ stop. stop ≡ PutStop.NoMemory };

    fn from(_: NoMemory) -> PutStop {
        PutStop::NoMemory
    }
}

/// Puts the report of a checked script over past fixings, if there are any, and a table of scenarios: the header, the lines of each scenario
/// that has lines, in one piece each, and the last line, with how many nodes of the simplified script were evaluated in all scenarios.
///
/// # Errors
///
/// `Failed` where a put failed, `NoMemory` where there was no memory. A front of the report was then put.
pub fn put_report<O: Sink>(
    alloc: Global,
    found: &Trade,
    past: Option<&PastFixings>,
    scenarios: &Scenarios,
    out: &mut O,
) -> Result<(), PutStop>
    requires good_trade { trades.IsGood found.now }
    requires good_past { AreGoodIfGiven (lent_past past) }
    requires good { IsGood (table scenarios.now) }
    ensures ok { OnOk result (O.text out.new ≡ appended (O.text out.old) (run_text (trade found.now).events (lent_past past.entry) (table scenarios.now))) }
    ensures front { AppendsFront (O.text out.old) (O.text out.new) (run_text (trade found.now).events (lent_past past.entry) (table scenarios.now)) }
    ensures failed { IsErrOf result PutStop.Failed → Rose (O.faults out.old) (O.faults out.new) }
    ensures never_falls { O.faults out.old ≤ O.faults out.new }
{
    let aligned = AlignedProgram::new(alloc, found, past, scenarios.dates.as_slice())?;
    put_header(alloc, out)?;
    let nodes = put_rows(alloc, &aligned, scenarios.rows.as_slice(), out)?;
    put_last_line(alloc, nodes, out)
}

/// Puts one piece.
pub fn put_piece<O: Sink>(out: &mut O, piece: &[u8]) -> Result<(), PutStop>
    ensures ok { OnOk result (O.text out.new ≡ appended (O.text out.old) piece.now) }
    ensures front { AppendsFront (O.text out.old) (O.text out.new) piece.now }
    ensures failed { IsErrOf result PutStop.Failed → Rose (O.faults out.old) (O.faults out.new) }
    ensures never_falls { O.faults out.old ≤ O.faults out.new }
    ensures no_memory_needed { IfErr result (λ stop. stop ≡ PutStop.Failed) }
{
    match out.put(piece) {
        Ok(()) => Ok(()),
        Err(_) => Err(PutStop::Failed),
    }
}

/// Puts the first line.
fn put_header<O: Sink>(alloc: Global, out: &mut O) -> Result<(), PutStop>
    ensures ok { OnOk result (O.text out.new ≡ appended (O.text out.old) header_line) }
    ensures front { AppendsFront (O.text out.old) (O.text out.new) header_line }
    ensures failed { IsErrOf result PutStop.Failed → Rose (O.faults out.old) (O.faults out.new) }
    ensures never_falls { O.faults out.old ≤ O.faults out.new }
{
    let mut line = Vec::new(alloc);
    detail_header(alloc, &mut line)?;
    put_piece(out, line.as_slice())
}

/// Puts the last line, of so many nodes.
fn put_last_line<O: Sink>(alloc: Global, nodes: u64, out: &mut O) -> Result<(), PutStop>
    ensures ok { OnOk result (O.text out.new ≡ appended (O.text out.old) (nodes_line nodes)) }
    ensures front { AppendsFront (O.text out.old) (O.text out.new) (nodes_line nodes) }
    ensures failed { IsErrOf result PutStop.Failed → Rose (O.faults out.old) (O.faults out.new) }
    ensures never_falls { O.faults out.old ≤ O.faults out.new }
{
    let mut line = Vec::new(alloc);
    nodes_line(alloc, nodes, &mut line)?;
    put_piece(out, line.as_slice())
}

/// Puts the lines of one scenario, if it has any, and gives how many nodes were evaluated in it.
fn put_row<O: Sink>(
    aligned: &AlignedProgram<'_>,
    scenario: &ScenarioRow,
    runs: &mut Runs,
    detail: &mut DetailWriter,
    out: &mut O,
) -> Result<u64, PutStop>
    requires full { length scenario.now.cells.items ≡ length aligned.now.dates.now }
    requires good_past { AreGoodIfGiven (lent_past aligned.now.past) }
    requires fixings { All IsCell scenario.now.cells.items }
    requires means { RunsMean aligned.now.trade.now aligned.now.program }
    requires prepared { AreFor runs.old aligned.now.program }
    ensures prepared { AreFor runs.new aligned.now.program }
    ensures ok { OnOk result (O.text out.new ≡ appended (O.text out.old) (lines_of aligned.now (row scenario.now))) }
    ensures nodes { IfOk result (λ nodes. nodes ≡ nodes_of aligned.now (row scenario.now)) }
    ensures few_nodes { IfOk result (λ nodes. nodes ≤ 262_144) }
    ensures front { AppendsFront (O.text out.old) (O.text out.new) (lines_of aligned.now (row scenario.now)) }
    ensures failed { IsErrOf result PutStop.Failed → Rose (O.faults out.old) (O.faults out.new) }
    ensures never_falls { O.faults out.old ≤ O.faults out.new }
{
    aligned.run(scenario.cells.as_slice(), runs)?;
    let lines = detail.rows(&scenario.label, &runs.outcome, aligned.legs())?;
    if !lines.is_empty() {
        put_piece(out, lines)?;
    }
    Ok(runs.outcome.nodes())
}

/// Puts the lines of scenarios in their order, and gives how many nodes were evaluated in all of them.
fn put_rows<O: Sink>(
    alloc: Global,
    aligned: &AlignedProgram<'_>,
    rows: &[ScenarioRow],
    out: &mut O,
) -> Result<u64, PutStop>
    requires means { RunsMean aligned.now.trade.now aligned.now.program }
    requires good_past { AreGoodIfGiven (lent_past aligned.now.past) }
    requires few { length rows.now ≤ 100_000 }
    requires fixings { All (λ scenario. All IsCell scenario.cells) (map row rows.now) }
    requires full { All (λ scenario. length scenario.cells ≡ length aligned.now.dates.now) (map row rows.now) }
    ensures ok { OnOk result (O.text out.new ≡ appended (O.text out.old) (flat_map (lines_of aligned.now) (map row rows.now))) }
    ensures nodes { IfOk result (λ nodes. nodes ≡ sum_over (nodes_of aligned.now) (map row rows.now)) }
    ensures front { AppendsFront (O.text out.old) (O.text out.new) (flat_map (lines_of aligned.now) (map row rows.now)) }
    ensures failed { IsErrOf result PutStop.Failed → Rose (O.faults out.old) (O.faults out.new) }
    ensures never_falls { O.faults out.old ≤ O.faults out.new }
{
    let mut runs = aligned.runs(alloc)?;
    let mut detail = DetailWriter::new(alloc);
    let mut nodes = 0;
    for scenario in rows {
        let more = put_row(aligned, scenario, &mut runs, &mut detail, out)?;
        nodes += more;
    }
    Ok(nodes)
}
