//! The command `run`.

ghost use Rattle.std.specs.Prelude.{◌≡◌, ◌+◌, ◌≤◌, Some, IfOk, IfErr, IfSome};
ghost use Rattle.std.specs.Option.{option_map};
ghost use Rattle.pay_edge.specs.Edge.{OnlyRead};
ghost use Rattle.pay_passes.specs.Trades as trades;
ghost use Rattle.pay_tables.specs.Tables.{IsGood};
ghost use Rattle.pay_tables.specs.Views.{table};
ghost use Rattle.pay_scenarios.specs.Aligned.{AreGoodIfGiven};
ghost use Rattle.pay_tool.specs.Answers.{answer_to, report};
ghost use Rattle.pay_tool.specs.Causes.{Caused, ends_of, IsEarly, SameBeyond, names_fetched, past_inputs};
ghost use Rattle.pay_tool.specs.Fetches.{most_fetches};
ghost use Rattle.pay_inputs.specs.PastViews.{known_past};
ghost use Rattle.pay_scenarios.specs.RunTexts.{run_text};
ghost use Rattle.pay_tool.specs.Reading.{seen_of, HaveRead, HasRead, ArePastAsked, StopsAtPast, IsCausedEarly};
ghost use Rattle.pay_words.specs.Requests as asked;
ghost use Rattle.pay_words.specs.RequestViews.{past_words, run_words};
ghost use Rattle.pay_inputs.specs.TradeViews.{trade};

use crate::exit::{Exit, exit_at};
use pay_edge::{Depot, Sink};
use pay_inputs::{PastFixings, read_past, read_script, read_table};
use pay_passes::Trade;
use pay_scenarios::put_report;
use pay_tables::Scenarios;
use pay_words::{PastWords, RunWords};
use std::alloc::Global;

/// Puts the report of a run: the script is fetched and checked, then the past fixings, if they are given, then the scenarios, and then the
/// report is put.
pub fn run<D: Depot, O: Sink>(alloc: Global, words: RunWords, depot: &mut D, out: &mut O) -> Exit
    ensures reads { OnlyRead D.files D.read_faults D.write_faults depot.old depot.new }
    ensures other_names { SameBeyond (names_fetched (Some (asked.run (run_words words))) (D.files depot.old))
        (D.read_faults depot.old) (D.read_faults depot.new) }
    ensures fetches { D.fetches depot.new ≤ D.fetches depot.old + most_fetches (Some (asked.run (run_words words))) (D.files depot.old) }
    ensures untouched { IsEarly result → out.new ≡ out.old }
    ensures caused { Caused (Some (asked.run (run_words words)))
        (ends_of D.files D.read_faults O.text O.faults depot.old depot.new out.old out.new) result }
{
    let inputs = match read_inputs(alloc, words, depot) {
        Ok(inputs) => inputs,
        Err(exit) => return exit,
    };
    match put_report(
        alloc,
        &inputs.found,
        inputs.past.as_ref(),
        &inputs.table,
        out,
    ) {
        Ok(()) => Exit::Done,
        Err(stop) => Exit::from(stop),
    }
}

/// The inputs of a run.
#[derive(Drop)]
struct Inputs {
    /// What the script has.
    found: Trade,
    /// The past fixings, where they are given.
    past: Option<PastFixings>,
    /// The scenarios.
    table: Scenarios,
}

/// The inputs of a run, each fetched and checked before the next; or how the run ended at the first that isn't accepted.
fn read_inputs<D: Depot>(alloc: Global, words: RunWords, depot: &mut D) -> Result<Inputs, Exit>
    ensures reads { OnlyRead D.files D.read_faults D.write_faults depot.old depot.new }
    ensures inputs { HasRead (asked.run (run_words words)) (seen_of D.files D.read_faults D.fetches depot.old)
        (seen_of D.files D.read_faults D.fetches depot.new) }
    ensures accepted { IfOk result (λ inputs. IfSome (D.files depot.old) (λ files.
        answer_to (asked.run (run_words words)) files ≡ report (run_text (trade inputs.found).events (known_past inputs.past) (table inputs.table)))) }
    ensures good_trade { IfOk result (λ inputs. trades.IsGood inputs.found) }
    ensures good_past { IfOk result (λ inputs. AreGoodIfGiven (known_past inputs.past)) }
    ensures good { IfOk result (λ inputs. IsGood (table inputs.table)) }
    ensures stopped { IfErr result (IsCausedEarly (asked.run (run_words words)) (seen_of D.files D.read_faults D.fetches depot.old)
        (seen_of D.files D.read_faults D.fetches depot.new)) }
{
    let RunWords {
        script,
        scenarios,
        past,
    } = words;
    let found = match read_script(alloc, depot, script.as_str()) {
        Ok(found) => found,
        Err(stop) => return Err(exit_at(script, stop)),
    };
    let past = read_given_past(alloc, past, depot)?;
    let table = match read_table(alloc, depot, scenarios.as_str()) {
        Ok(table) => table,
        Err(stop) => return Err(exit_at(scenarios, stop)),
    };
    Ok(Inputs { found, past, table })
}

/// The past fixings that are asked for, or none; or how the run ended at their file.
fn read_given_past<D: Depot>(
    alloc: Global,
    past: Option<PastWords>,
    depot: &mut D,
) -> Result<Option<PastFixings>, Exit>
    ensures reads { OnlyRead D.files D.read_faults D.write_faults depot.old depot.new }
    ensures inputs { HaveRead (past_inputs (option_map past_words past)) (seen_of D.files D.read_faults D.fetches depot.old)
        (seen_of D.files D.read_faults D.fetches depot.new) }
    ensures accepted { IfOk result (λ found. IfSome (D.files depot.old) (λ files. ArePastAsked files (option_map past_words past) (known_past found))) }
    ensures good { IfOk result (λ found. AreGoodIfGiven (known_past found)) }
    ensures stopped { IfErr result (StopsAtPast (option_map past_words past) (seen_of D.files D.read_faults D.fetches depot.old)
        (seen_of D.files D.read_faults D.fetches depot.new)) }
{
    match past {
        Some(PastWords { file, asof }) => match read_past(alloc, depot, file.as_str()) {
            Ok(fixings) => Ok(Some(PastFixings { asof, fixings })),
            Err(stop) => Err(exit_at(file, stop)),
        },
        None => Ok(None),
    }
}
