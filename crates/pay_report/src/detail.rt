//! The detail report: what each scenario pays, line by line.

ghost use Rattle.std.specs.Prelude.{◌≡◌, ◌<◌, ◌++◌, All, OnOk, OnErr, length};
ghost use Rattle.pay_report.specs.Detail.{header_line, line, nodes_line, outcome_lines};
ghost use Rattle.pay_report.specs.Lines.{IsPlain};

use crate::detail_writer::DetailWriter;
use crate::lines::Lines;
use pay_fixed::NoMemory;
use pay_machine::Outcome;
use pay_tables::Label;
use pay_tree::Name;
use std::alloc::Global;

/// Appends one line of fields that need no quotes; where there is no memory, nothing.
fn append_line(
    alloc: Global,
    scenario: &[u8],
    date: &[u8],
    leg: &[u8],
    amount: &[u8],
    into: &mut Vec<u8>,
) -> Result<(), NoMemory>
    requires scenario { IsPlain scenario.now }
    requires date { IsPlain date.now }
    requires leg { IsPlain leg.now }
    requires amount { IsPlain amount.now }
    ensures ok { OnOk result (into.new.items ≡ into.old.items ++ line scenario.now date.now leg.now amount.now) }
    ensures err { OnErr result (into.new.items ≡ into.old.items) }
{
    let mut lines = Lines::new(alloc);
    lines.write(scenario, date, leg, amount)?;
    lines.flush()?;
    into.extend_from_slice(lines.text())?;
    Ok(())
}

/// Appends the first line, `scenario,date,leg,amount`.
///
/// # Errors
///
/// [`NoMemory`] where there was no memory for it; then `into` is as before.
pub fn detail_header(alloc: Global, into: &mut Vec<u8>) -> Result<(), NoMemory>
    ensures ok { OnOk result (into.new.items ≡ into.old.items ++ header_line) }
    ensures err { OnErr result (into.new.items ≡ into.old.items) }
{
    append_line(
        alloc,
        b"scenario".as_slice(),
        b"date".as_slice(),
        b"leg".as_slice(),
        b"amount".as_slice(),
        into,
    )
}

/// Appends the lines of a scenario: for each payment in order its label, date, leg and amount, and where an event faulted a line of the label,
/// the date of the event, `!overflow`, `!zero divisor` or `!missing fixing`, and an empty field. An outcome without payments and fault has no
/// lines.
///
/// `legs` are the names of the legs by their numbers; the leg of each payment is one of them.
///
/// # Errors
///
/// [`NoMemory`] where there was no memory for the lines; then `into` is as before.
pub fn detail_rows(
    alloc: Global,
    label: &Label,
    outcome: &Outcome,
    legs: &[Name],
    into: &mut Vec<u8>,
) -> Result<(), NoMemory>
    requires legs { All (λ payment. payment.leg < length legs.now) outcome.now.payments }
    ensures ok { OnOk result (into.new.items ≡ into.old.items ++ outcome_lines label.now legs.now outcome.now) }
    ensures err { OnErr result (into.new.items ≡ into.old.items) }
{
    let mut detail = DetailWriter::new(alloc);
    let lines = detail.rows(label, outcome, legs)?;
    into.extend_from_slice(lines)?;
    Ok(())
}

/// Appends the last line, such as `#nodes,42,,`: how many nodes were evaluated in all scenarios.
///
/// # Errors
///
/// [`NoMemory`] where there was no memory for it; then `into` is as before.
#[tactic(auto, using(crate::proofs::Plain::count_is_plain))]
pub fn nodes_line(alloc: Global, nodes: u64, into: &mut Vec<u8>) -> Result<(), NoMemory>
    ensures ok { OnOk result (into.new.items ≡ into.old.items ++ nodes_line nodes) }
    ensures err { OnErr result (into.new.items ≡ into.old.items) }
{
    let digits = nodes.to_string(alloc)?;
    let nothing = b"".as_slice();
    append_line(
        alloc,
        b"#nodes".as_slice(),
        digits.as_bytes(),
        nothing,
        nothing,
        into,
    )
}
