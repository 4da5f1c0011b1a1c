//! The command `explain`, which answers what is left of a script, and what every variable can hold.

ghost use Rattle.std.specs.Prelude.{◌≡◌, ◌+◌, ◌≤◌, Some, OnOk, IsErrOf, length};
ghost use Rattle.pay_edge.specs.Edge.{AppendsFront, OnlyRead, Rose, appended};
ghost use Rattle.pay_explain.specs.Explaining.{explain_trees};
ghost use Rattle.pay_explain.specs.Known.{AreKnown};
ghost use Rattle.pay_inputs.specs.TradeViews.{trade};
ghost use Rattle.pay_passes.specs.Trades.{IsGood, trees_of};
ghost use Rattle.pay_tool.specs.Causes.{Caused, ends_of, IsEarly, SameBeyond, names_fetched};
ghost use Rattle.pay_tool.specs.Fetches.{most_fetches};
ghost use Rattle.pay_tool.specs.ScriptTexts.{explained_text};
ghost use Rattle.pay_words.specs.Requests as asked;

use crate::exit::{Exit, exit_at};
use pay_analysis::Facts;
use pay_edge::{Depot, Sink};
use pay_explain::laws::explained_by_name;
use pay_explain::{explain_event, fresh_facts};
use pay_inputs::read_script;
use pay_passes::Trade;
use pay_scenarios::{PutStop, put_piece};
use pay_words::FileName;
use std::alloc::Global;

/// Puts what is left of each event of the script file `script`, and what the variables can hold after it: the file is fetched and checked, and then
/// the text is put, one piece an event.
pub fn explain<D: Depot, O: Sink>(
    alloc: Global,
    script: FileName,
    depot: &mut D,
    out: &mut O,
) -> Exit
    ensures reads { OnlyRead D.files D.read_faults D.write_faults depot.old depot.new }
    ensures other_names { SameBeyond (names_fetched (Some (asked.explain_of script)) (D.files depot.old)) (D.read_faults depot.old) (D.read_faults depot.new) }
    ensures fetches { D.fetches depot.new ≤ D.fetches depot.old + most_fetches (Some (asked.explain_of script)) (D.files depot.old) }
    ensures untouched { IsEarly result → out.new ≡ out.old }
    ensures caused { Caused (Some (asked.explain_of script))
        (ends_of D.files D.read_faults O.text O.faults depot.old depot.new out.old out.new) result }
{
    let found = match read_script(alloc, depot, script.as_str()) {
        Ok(found) => found,
        Err(stop) => return exit_at(script, stop),
    };
    match put_explained(alloc, &found, out) {
        Ok(()) => Exit::Done,
        Err(stop) => Exit::from(stop),
    }
}

/// Puts the text of `explain`.
#[tactic(auto, using(crate::proofs::Explained::explained_trees, crate::proofs::Explained::explained_front, crate::proofs::Explained::few_events))]
fn put_explained<O: Sink>(alloc: Global, found: &Trade, out: &mut O) -> Result<(), PutStop>
    requires good { IsGood found.now }
    ensures ok { OnOk result (O.text out.new ≡ appended (O.text out.old) (explained_text (trade found.now))) }
    ensures front { AppendsFront (O.text out.old) (O.text out.new) (explained_text (trade found.now)) }
    ensures failed { IsErrOf result PutStop.Failed → Rose (O.faults out.old) (O.faults out.new) }
{
    explained_by_name();
    let mut facts = fresh_facts(alloc, found)?;
    put_events(alloc, found, &mut facts, out)
}

/// Puts what is said of each event of a trade, in their order, one piece an event. `facts`, those before the first event, become those after the last.
fn put_events<O: Sink>(
    alloc: Global,
    found: &Trade,
    facts: &mut Facts,
    out: &mut O,
) -> Result<(), PutStop>
    requires few { length found.now.events.items ≤ 4096 }
    requires known { AreKnown found.now.names.items facts.now.domains.items }
    ensures ok { OnOk result (O.text out.new
        ≡ appended (O.text out.old) (explain_trees found.now.names.items found.now.legs.items (trees_of found.now) facts.old.domains.items)) }
    ensures front { AppendsFront (O.text out.old) (O.text out.new)
        (explain_trees found.now.names.items found.now.legs.items (trees_of found.now) facts.old.domains.items) }
    ensures failed { IsErrOf result PutStop.Failed → Rose (O.faults out.old) (O.faults out.new) }
    ensures never_falls { O.faults out.old ≤ O.faults out.new }
{
    for at in 0..found.events.len() {
        let text = explain_event(alloc, found, at as u32, facts)?;
        put_piece(out, text.as_slice())?;
    }
    Ok(())
}
