//! A program over past fixings and the columns of a table, and its runs, one scenario after the other.

ghost use Rattle.std.specs.Prelude.{◌≡◌, ◌≤◌, false, All, IfOk, IsTrue, OnOk, length, map};
ghost use Rattle.std.specs.List.{zip};
ghost use Rattle.pay_compile.specs.Compiling.{HasOwnLegs};
ghost use Rattle.pay_facts.specs.Facts.{no_facts};
ghost use Rattle.pay_machine.specs.Outcomes.{IsOutcome};
ghost use Rattle.pay_machine.specs.Rows.{AreCells};
ghost use Rattle.pay_meaning.specs.Meaning.{fixings_of, meaning, no_variables};
ghost use Rattle.pay_passes.specs.Trades.{IsGood, spelled_trade};
ghost use Rattle.pay_runs.specs.Counting.{node_count};
ghost use Rattle.pay_simplified.specs.Simplified.{simplified};
ghost use Rattle.pay_tables.specs.Tables.{are_distinct, IsCell};
ghost use Rattle.pay_scenarios.specs.Aligned.{AreFor, AreGoodIfGiven, cells_from, RunsMean};
ghost use Rattle.pay_scenarios.specs.Columns.{source_of};
ghost use Rattle.pay_inputs.specs.PastViews.{lent_past};

use crate::columns::{FixingSource, sources_of_dates};
use pay_code::Program;
use pay_compile::{Mode, Start, compile};
use pay_dates::Day;
use pay_fixed::{Fixed, NoMemory};
use pay_inputs::PastFixings;
use pay_machine::{Machine, Outcome, Row};
use pay_passes::Trade;
use pay_tree::Name;
use std::alloc::Global;

/// The program of a trade, and for each of its events the source of its fixing: the past ones, or a column of a table.
#[derive(Drop)]
pub struct AlignedProgram<'a> {
    trade: &'a Trade,
    past: Option<&'a PastFixings>,
    dates: &'a [Day],
    program: Program,
    sources: Vec<FixingSource>,
    ghost distinct: { IsTrue (are_distinct dates.now) },
    ghost own_legs: { HasOwnLegs (length trade.now.legs.items) program },
    ghost aligned: { sources.items ≡ map (λ date. source_of (lent_past past) dates.now date) program.dates },
}

/// What the runs of a program work on, one after the other.
#[derive(Drop)]
pub struct Runs {
    machine: Machine,
    row: Row,
    /// The outcome of the last run.
    pub outcome: Outcome,
}

impl<'a> AlignedProgram<'a> {
    /// The program of a trade over these past fixings, if there are any, and over the columns of these dates, no two of which are one.
    ///
    /// The time is that of the compiler, and of one look-up in a map for each past fixing, each date and each event.
    ///
    /// # Errors
    ///
    /// [`NoMemory`] where there was no memory for the program or for the sources.
    pub fn new(
        alloc: Global,
        trade: &'a Trade,
        past: Option<&'a PastFixings>,
        dates: &'a [Day],
    ) -> Result<AlignedProgram<'a>, NoMemory>
        requires good { IsGood trade.now }
        requires distinct { IsTrue (are_distinct dates.now) }
        ensures trade { IfOk result (λ aligned. aligned.trade.now ≡ trade.now) }
        ensures past { IfOk result (λ aligned. lent_past aligned.past ≡ lent_past past.entry) }
        ensures dates { IfOk result (λ aligned. aligned.dates.now ≡ dates.now) }
        ensures means { IfOk result (λ aligned. RunsMean aligned.trade.now aligned.program) }
    {
        let program = compile(alloc, trade, &Start::Fresh, None, Mode::Crisp)?;
        let sources = sources_of_dates(alloc, program.dates(), past, dates)?;
        Ok(AlignedProgram {
            trade,
            past,
            dates,
            program,
            sources,
        })
    }

    /// The legs of the trade, by their numbers.
    pub fn legs(&self) -> &'a [Name]
        ensures { result.now ≡ self.now.trade.now.legs.items }
    {
        self.trade.legs.as_slice()
    }

    /// What its runs work on: all the memory that they need, but for the cells of a row, which is taken in the first run.
    ///
    /// # Errors
    ///
    /// [`NoMemory`] where there was no memory for it.
    pub fn runs(&self, alloc: Global) -> Result<Runs, NoMemory>
        ensures { IfOk result (λ runs. AreFor runs self.now.program) }
    {
        Ok(Runs {
            machine: Machine::prepare(alloc, &self.program)?,
            row: Row::new(alloc),
            outcome: Outcome::prepare(alloc, &self.program)?,
        })
    }

    /// Runs the program on a row with these cells, one for each date: `runs` then has the outcome, with the count of evaluated nodes.
    ///
    /// # Errors
    ///
    /// [`NoMemory`] where there was no memory for the cells of the program.
    // Never inlined: in a larger function the machine's loop keeps less in registers, and a run takes longer.
    #[inline(never)]
    pub fn run(&self, cells: &[Option<Fixed>], runs: &mut Runs) -> Result<(), NoMemory>
        requires full { length cells.now ≡ length self.now.dates.now }
        requires good_past { AreGoodIfGiven (lent_past self.now.past) }
        requires fixings { All IsCell cells.now }
        requires means { RunsMean self.now.trade.now self.now.program }
        requires prepared { AreFor runs.old self.now.program }
        ensures prepared { AreFor runs.new self.now.program }
        ensures outcome { OnOk result (IsOutcome self.now.trade.now.names.items self.now.trade.now.legs.items
            (meaning (spelled_trade self.now.trade.now) no_variables (fixings_of (lent_past self.now.past) (zip self.now.dates.now cells.now)))
            runs.new.outcome) }
        ensures nodes { OnOk result (runs.new.outcome.nodes ≡ node_count false (simplified (spelled_trade self.now.trade.now) no_facts) no_variables
            (fixings_of (lent_past self.now.past) (zip self.now.dates.now cells.now))) }
        ensures few_nodes { OnOk result (runs.new.outcome.nodes ≤ 262_144) }
    {
        fill_row(self.sources.as_slice(), cells, &mut runs.row)?;
        runs.machine
            .run(&self.program, &runs.row, &mut runs.outcome);
        Ok(())
    }
}

/// Puts the cells that these sources have in a row with these cells into a row of a program, in place of those before.
fn fill_row(
    sources: &[FixingSource],
    cells: &[Option<Fixed>],
    row: &mut Row,
) -> Result<(), NoMemory>
    requires { AreCells (cells_from sources.now cells.now) }
    ensures { OnOk result (row.new ≡ cells_from sources.now cells.now) }
{
    row.clear();
    for source in sources {
        row.push(source.fixing(cells))?;
    }
    Ok(())
}
