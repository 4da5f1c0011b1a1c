//! The commands `check` and `events`, which answer about a script alone.

ghost use Rattle.std.specs.Prelude.{◌≡◌, ◌+◌, ◌≤◌, ◌++◌, [], Some, IfOk, OnOk, IsErrOf, length};
ghost use Rattle.std.specs.List.{flat_map};
ghost use Rattle.pay_edge.specs.Edge.{AppendsFront, OnlyRead, Rose, appended};
ghost use Rattle.pay_tree.specs.Owned.{spelled_event};
ghost use Rattle.pay_tree.specs.OwnedViews.{event_tree};
ghost use Rattle.pay_tool.specs.Causes.{Caused, ends_of, IsEarly, SameBeyond, names_fetched};
ghost use Rattle.pay_tool.specs.Fetches.{most_fetches};
ghost use Rattle.pay_words.specs.Requests as asked;
ghost use Rattle.pay_tool.specs.ScriptTexts as meant;
ghost use Rattle.pay_inputs.specs.TradeViews.{trade};

use crate::exit::{Exit, exit_at};
use crate::text::{write_count, write_date, write_text};
use pay_edge::{Depot, Sink};
use pay_fixed::NoMemory;
use pay_inputs::read_script;
use pay_passes::Trade;
use pay_scenarios::{PutStop, put_piece};
use pay_tree::Event;
use pay_words::FileName;
use std::alloc::Global;

/// Puts how many events, variables and legs the script file `script` has: it is fetched and checked, and then the text is put.
#[tactic(auto, using(crate::proofs::OwnTermLemmas::check_answer))]
pub fn check<D: Depot, O: Sink>(alloc: Global, script: FileName, depot: &mut D, out: &mut O) -> Exit
    ensures reads { OnlyRead D.files D.read_faults D.write_faults depot.old depot.new }
    ensures other_names { SameBeyond (names_fetched (Some (asked.check_of script)) (D.files depot.old)) (D.read_faults depot.old) (D.read_faults depot.new) }
    ensures fetches { D.fetches depot.new ≤ D.fetches depot.old + most_fetches (Some (asked.check_of script)) (D.files depot.old) }
    ensures untouched { IsEarly result → out.new ≡ out.old }
    ensures caused { Caused (Some (asked.check_of script))
        (ends_of D.files D.read_faults O.text O.faults depot.old depot.new out.old out.new) result }
{
    let found = match read_script(alloc, depot, script.as_str()) {
        Ok(found) => found,
        Err(stop) => return exit_at(script, stop),
    };
    match put_counts(alloc, &found, out) {
        Ok(()) => Exit::Done,
        Err(stop) => Exit::from(stop),
    }
}

/// Puts the events of the script file `script` in order of date: it is fetched and checked, and then the text is put.
#[tactic(auto, using(crate::proofs::OwnTermLemmas::events_answer))]
pub fn events<D: Depot, O: Sink>(
    alloc: Global,
    script: FileName,
    depot: &mut D,
    out: &mut O,
) -> Exit
    ensures reads { OnlyRead D.files D.read_faults D.write_faults depot.old depot.new }
    ensures other_names { SameBeyond (names_fetched (Some (asked.list_of script)) (D.files depot.old)) (D.read_faults depot.old) (D.read_faults depot.new) }
    ensures fetches { D.fetches depot.new ≤ D.fetches depot.old + most_fetches (Some (asked.list_of script)) (D.files depot.old) }
    ensures untouched { IsEarly result → out.new ≡ out.old }
    ensures caused { Caused (Some (asked.list_of script))
        (ends_of D.files D.read_faults O.text O.faults depot.old depot.new out.old out.new) result }
{
    let found = match read_script(alloc, depot, script.as_str()) {
        Ok(found) => found,
        Err(stop) => return exit_at(script, stop),
    };
    match put_events(alloc, &found, out) {
        Ok(()) => Exit::Done,
        Err(stop) => Exit::from(stop),
    }
}

/// Puts the text of `check`.
fn put_counts<O: Sink>(alloc: Global, found: &Trade, out: &mut O) -> Result<(), PutStop>
    ensures ok { OnOk result (O.text out.new ≡ appended (O.text out.old) (meant.check_text (trade found.now))) }
    ensures front { AppendsFront (O.text out.old) (O.text out.new) (meant.check_text (trade found.now)) }
    ensures failed { IsErrOf result PutStop.Failed → Rose (O.faults out.old) (O.faults out.new) }
{
    let text = counts_text(alloc, found)?;
    put_piece(out, text.as_slice())
}

/// Puts the text of `events`.
fn put_events<O: Sink>(alloc: Global, found: &Trade, out: &mut O) -> Result<(), PutStop>
    ensures ok { OnOk result (O.text out.new ≡ appended (O.text out.old) (meant.events_text (trade found.now))) }
    ensures front { AppendsFront (O.text out.old) (O.text out.new) (meant.events_text (trade found.now)) }
    ensures failed { IsErrOf result PutStop.Failed → Rose (O.faults out.old) (O.faults out.new) }
{
    let text = events_text(alloc, found)?;
    put_piece(out, text.as_slice())
}

/// How many events, variables and legs there are, a line each.
#[tactic(auto, using(std::proofs::Common::append_assoc))]
fn counts_text(alloc: Global, found: &Trade) -> Result<Vec<u8>, NoMemory>
    ensures { IfOk result (λ text. text.items ≡ meant.check_text (trade found.now)) }
{
    let mut text = Vec::new(alloc);
    write_count_line(alloc, b"events", found.events.len(), &mut text)?;
    write_count_line(alloc, b"variables", found.names.len(), &mut text)?;
    write_count_line(alloc, b"legs", found.legs.len(), &mut text)?;
    Ok(text)
}

/// Appends a line of a word and a count.
#[tactic(auto, using(std::proofs::Common::append_assoc))]
fn write_count_line(
    alloc: Global,
    word: &[u8],
    count: usize,
    text: &mut Vec<u8>,
) -> Result<(), NoMemory>
    ensures { OnOk result (text.new.items ≡ text.old.items ++ meant.count_line word.now count) }
{
    write_text(word, text)?;
    write_text(b" ", text)?;
    write_count(alloc, count, text)?;
    write_text(b"\n", text)
}

/// The events in order of date, a line each, below a line that names the columns.
#[tactic(auto, using(std::proofs::Common::append_assoc, crate::proofs::OwnTermLemmas::lines_unnamed))]
fn events_text(alloc: Global, found: &Trade) -> Result<Vec<u8>, NoMemory>
    ensures { IfOk result (λ text. text.items ≡ meant.events_text (trade found.now)) }
{
    let mut text = Vec::from_slice(alloc, b"date,period,days\n")?;
    write_events(alloc, found.events.as_slice(), &mut text)?;
    Ok(text)
}

/// Appends the lines of events, which say nothing of names.
#[tactic(auto, using(std::proofs::Common::append_assoc))]
fn write_events(alloc: Global, events: &[Event], text: &mut Vec<u8>) -> Result<(), NoMemory>
    ensures { OnOk result (text.new.items ≡ text.old.items ++ flat_map (λ event. meant.event_line (spelled_event [] [] (event_tree event))) events.now) }
{
    for one in events {
        write_event(alloc, one, text)?;
    }
    Ok(())
}

/// Appends the line of an event, which says nothing of names.
#[tactic(auto, using(std::proofs::Common::append_assoc))]
fn write_event(alloc: Global, one: &Event, text: &mut Vec<u8>) -> Result<(), NoMemory>
    ensures { OnOk result (text.new.items ≡ text.old.items ++ meant.event_line (spelled_event [] [] (event_tree one.now))) }
{
    write_date(one.date, text)?;
    write_text(b",", text)?;
    write_count(alloc, one.period as usize, text)?;
    write_text(b",", text)?;
    write_count(alloc, one.days as usize, text)?;
    write_text(b"\n", text)
}
