//! The tool as a whole.

ghost use Rattle.std.specs.Prelude.{◌≡◌, ◌+◌, ◌≤◌, ◌⊎◌, None, IfSome, IsSomeAnd, map, string_bytes};
ghost use Rattle.pay_edge.specs.Edge.{OnlyRead, Rose, appended};
ghost use Rattle.pay_tool.specs.Answers.{answer_of};
ghost use Rattle.pay_tool.specs.Causes.{Caused, ends_of, ReadFault, SameBeyond, names_fetched, IsEarly};
ghost use Rattle.pay_tool.specs.Causes.{IsGiven, IsRefused, IsAbsentInput, IsReport, IsTextBegun};
ghost use Rattle.pay_tool.specs.Fetches.{most_fetches};
ghost use Rattle.pay_tool.specs.Headline.{AsksRun, PaysAsMeant, IsPayable};
ghost use Rattle.pay_tool.specs.Lines.{TellsLine, NamesInput, line_of};
ghost use Rattle.pay_words.specs.Requests.{asked_in};

use crate::about::{check, events};
use crate::exit::{Exit, status_of};
use crate::explain::explain;
use crate::line::{MEMORY_LINE, file_line, put_line, short_line};
use crate::run::run;
use pay_edge::{Depot, Sink};
use pay_fixed::NoMemory;
use pay_words::{Request, WordsFault, request_of_words};
use std::alloc::Global;

/// Does what the words after a program's name ask for, over the files of a depot: puts an answer to `out`, and gives
/// the exit status.
///
/// `run SCRIPT SCENARIOS`, perhaps with `--fixings FILE --asof DATE` after it, fetches and checks the script file (at most 1,048,576
/// bytes), then the fixings file, if one is given (16,777,216), and then the scenario file (67,108,864). Then it puts a header, for each
/// scenario the payments that the script makes in it, and a last line with how many nodes of the simplified script were evaluated. At a
/// date that isn't after DATE the fixing is that of the fixings file, and there is none where that file has none; at each date after it
/// the scenario's. Nothing is put before all files are accepted.
///
/// `check SCRIPT` fetches and checks the script file, and then puts three lines in one piece: how many events, variables and
/// legs it has, as `events 5`, `variables 2` and `legs 1`. `events SCRIPT` does the same, and puts the script's events in order
/// of date in one piece: a line `date,period,days`, and for each event a line as `2024-02-29,1,29`. `explain SCRIPT` fetches and checks
/// the script file, and then puts one piece for each event in order of date: a line as `event 2024-02-29 period 1 days 29`, the steps that
/// are left of it in the simplified script, and for each variable, by its first appearance, a line as `  domain x: 0 | 1 to 2` with raws
/// among which are all that it can have after the event in any run.
///
/// The status is 0 where the answer was put whole, 2 exactly where the words are no request, 3 where a file is refused, 4
/// where a file is not there or a fetch failed, 5 where a put failed, and 6 where there was no memory. No file is
/// ever changed. At 2 to 6 one line is put to `err`, which says why; at 0 nothing is. A put to `err` that fails changes
/// no status.
pub fn run_tool<D: Depot, O: Sink, E: Sink>(
    alloc: Global,
    words: &Vec<String>,
    depot: &mut D,
    out: &mut O,
    err: &mut E,
) -> u8
    ensures statuses { (result ≡ 0) ⊎ ((2 ≤ result) × (result ≤ 6)) }

    // 0: the whole answer was given.
    ensures given { result ≡ 0 → IfSome (D.files depot.old) (λ files. IsGiven (answer_of (asked_in words.now) files) (O.text out.old) (O.text out.new)) }

    // 2: exactly where the words are no request.
    ensures not_request_only { result ≡ 2 → asked_in words.now ≡ None }
    ensures not_request { asked_in words.now ≡ None → result ≡ 2 }

    // 3: an input is refused.
    ensures refused_only { result ≡ 3 → IfSome (D.files depot.old) (λ files. IsRefused (answer_of (asked_in words.now) files)) }
    ensures refused { IfSome (D.files depot.old) (λ files. IsRefused (answer_of (asked_in words.now) files) →
        (result ≡ 3) ⊎ (result ≡ 4) ⊎ (result ≡ 6)) }

    // 4: an input could not be read.
    ensures unread_only { result ≡ 4 → ReadFault (asked_in words.now) (D.files depot.old) (D.read_faults depot.old) (D.read_faults depot.new)
        ⊎ IsSomeAnd (D.files depot.old) (λ files. IsAbsentInput (answer_of (asked_in words.now) files)) }
    ensures absent { IfSome (D.files depot.old) (λ files. IsAbsentInput (answer_of (asked_in words.now) files) → (result ≡ 4) ⊎ (result ≡ 6)) }

    // 5: the answer could not be put.
    ensures unwritten_only { result ≡ 5 → Rose (O.faults out.old) (O.faults out.new) }
    ensures unwritten_answer { result ≡ 5 → IfSome (D.files depot.old) (λ files. IsReport (answer_of (asked_in words.now) files)) }

    // What was put: nothing before all inputs are accepted, and then a front of the report.
    ensures untouched { 2 ≤ result → result ≤ 4 → out.new ≡ out.old }
    ensures begun { 5 ≤ result → IfSome (D.files depot.old) (λ files. IsTextBegun (answer_of (asked_in words.now) files) (O.text out.old) (O.text out.new)) }

    // The depot was only read, and no count rose but those of the inputs up to the first that isn't accepted.
    ensures reads { OnlyRead D.files D.read_faults D.write_faults depot.old depot.new }
    ensures other_names { SameBeyond (names_fetched (asked_in words.now) (D.files depot.old)) (D.read_faults depot.old) (D.read_faults depot.new) }

    // The line to `err`: nothing is put at 0; else one line, of which a fault of `err` may leave less.
    ensures silent { result ≡ 0 → err.new ≡ err.old }
    ensures line { ¬ Rose (E.faults err.old) (E.faults err.new) →
        TellsLine (asked_in words.now) (D.files depot.old) (D.read_faults depot.old) (D.read_faults depot.new) result (E.text err.old) (E.text err.new) }

    // No more is fetched than the inputs up to the first that isn't accepted may take.
    ensures fetches { D.fetches depot.new ≤ D.fetches depot.old + most_fetches (asked_in words.now) (D.files depot.old) }

    // Where nothing stands in the way, the answer is given.
    ensures complete { IsSomeAnd (D.files depot.old) (λ files. IsReport (answer_of (asked_in words.now) files)) →
        ¬ ReadFault (asked_in words.now) (D.files depot.old) (D.read_faults depot.old) (D.read_faults depot.new) →
        ¬ Rose (O.faults out.old) (O.faults out.new) → (result ≡ 0) ⊎ (result ≡ 6) }

    // The headline: what a run has written is what the script means in each scenario.
    ensures pays_as_meant { result ≡ 0 → AsksRun (asked_in words.now) → IfSome (D.files depot.old) (λ files. IfSome (O.text out.old) (λ before.
        IfSome (O.text out.new) (λ after. PaysAsMeant (map string_bytes words.now.items) files before after))) }

    // And where nothing stands in the way, that is so for each script of the grammar and each table.
    ensures pays_each_script { IsSomeAnd (D.files depot.old) (λ files. IsPayable (map string_bytes words.now.items) files) →
        ¬ ReadFault (asked_in words.now) (D.files depot.old) (D.read_faults depot.old) (D.read_faults depot.new) →
        ¬ Rose (O.faults out.old) (O.faults out.new) → (result ≡ 0) ⊎ (result ≡ 6) }
{
    let exit = serve_and_tell(alloc, words, depot, out, err);
    status_of(&exit)
}

/// Does what the words ask for, and puts the line of how that ended to `err`, if it has one.
fn serve_and_tell<D: Depot, O: Sink, E: Sink>(
    alloc: Global,
    words: &Vec<String>,
    depot: &mut D,
    out: &mut O,
    err: &mut E,
) -> Exit
    ensures reads { OnlyRead D.files D.read_faults D.write_faults depot.old depot.new }
    ensures other_names { SameBeyond (names_fetched (asked_in words.now) (D.files depot.old)) (D.read_faults depot.old) (D.read_faults depot.new) }
    ensures fetches { D.fetches depot.new ≤ D.fetches depot.old + most_fetches (asked_in words.now) (D.files depot.old) }
    ensures untouched { IsEarly result → out.new ≡ out.old }
    ensures caused { Caused (asked_in words.now) (ends_of D.files D.read_faults O.text O.faults depot.old depot.new out.old out.new) result }
    ensures silent { result ≡ Exit.Done → err.new ≡ err.old }
    ensures line { ¬ Rose (E.faults err.old) (E.faults err.new) → E.text err.new ≡ appended (E.text err.old) (line_of result) }
{
    let exit = serve(alloc, words, depot, out);
    tell(alloc, exit, err)
}

/// Puts the line of an exit, if it has one; where there is no memory for that line, the exit is want of memory, with its own.
fn tell<E: Sink>(alloc: Global, exit: Exit, err: &mut E) -> Exit
    ensures kept { (result ≡ exit) ⊎ ((result ≡ Exit.NoMemory) × NamesInput exit) }
    ensures silent { result ≡ Exit.Done → err.new ≡ err.old }
    ensures line { ¬ Rose (E.faults err.old) (E.faults err.new) → E.text err.new ≡ appended (E.text err.old) (line_of result) }
{
    match short_line(&exit) {
        Some(line) => {
            put_line(err, line);
            exit
        }
        None => tell_file(alloc, exit, err),
    }
}

/// Puts the line of an exit that names a file; where there is no memory for it, that of want of memory.
fn tell_file<E: Sink>(alloc: Global, exit: Exit, err: &mut E) -> Exit
    requires { NamesInput exit }
    ensures kept { (result ≡ exit) ⊎ (result ≡ Exit.NoMemory) }
    ensures line { ¬ Rose (E.faults err.old) (E.faults err.new) → E.text err.new ≡ appended (E.text err.old) (line_of result) }
{
    match file_line(alloc, &exit) {
        Ok(line) => {
            put_line(err, line.as_slice());
            exit
        }
        Err(NoMemory) => {
            put_line(err, MEMORY_LINE);
            Exit::NoMemory
        }
    }
}

/// Does what the words ask for.
fn serve<D: Depot, O: Sink>(alloc: Global, words: &Vec<String>, depot: &mut D, out: &mut O) -> Exit
    ensures reads { OnlyRead D.files D.read_faults D.write_faults depot.old depot.new }
    ensures other_names { SameBeyond (names_fetched (asked_in words.now) (D.files depot.old)) (D.read_faults depot.old) (D.read_faults depot.new) }
    ensures fetches { D.fetches depot.new ≤ D.fetches depot.old + most_fetches (asked_in words.now) (D.files depot.old) }
    ensures untouched { IsEarly result → out.new ≡ out.old }
    ensures caused { Caused (asked_in words.now) (ends_of D.files D.read_faults O.text O.faults depot.old depot.new out.old out.new) result }
{
    match request_of_words(alloc, words) {
        Ok(Request::Run(words)) => run(alloc, words, depot, out),
        Ok(Request::Check { script }) => check(alloc, script, depot, out),
        Ok(Request::Events { script }) => events(alloc, script, depot, out),
        Ok(Request::Explain { script }) => explain(alloc, script, depot, out),
        Err(WordsFault::NotRequest) => Exit::NotRequest,
        Err(WordsFault::NoMemory) => Exit::NoMemory,
    }
}
