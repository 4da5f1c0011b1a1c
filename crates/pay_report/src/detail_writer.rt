//! The lines of scenarios, one after the other, by one writer.

ghost use Rattle.std.specs.Prelude.{◌≡◌, ◌<◌, ◌++◌, All, IfOk, OnOk, length, map};
ghost use Rattle.pay_machine.specs.Outcomes as outcome;
ghost use Rattle.pay_report.specs.Detail.{outcome_lines, payment_lines, ended_lines};
ghost use Rattle.pay_report.specs.Lines.{IsPlain, IsReady, IsWhole, written, text_under};

use crate::lines::Lines;
use pay_fixed::NoMemory;
use pay_machine::{End, Outcome, Payment};
use pay_tables::Label;
use pay_tree::Name;
use std::alloc::Global;
use std::marker::Model;

/// The most bytes of lines that are kept when those of a scenario are written; where there are more, they are let go first.
const MOST_KEPT: usize = 65_536;

/// Writes the lines of scenarios, one after the other, with the same buffers.
#[derive(Drop)]
pub struct DetailWriter {
    lines: Lines,
}

impl Model for DetailWriter {
    ghost use Rattle.pay_report.specs.Lines.{IsWhole};

    ghost Value = { Unit {0} };

    ghost view = { λ _. tt };

    ghost invariant = { λ detail. IsWhole detail.lines.writer };
}

/// Writes the lines of payments in order; where there is no memory, perhaps a part of them.
fn write_payments(
    label: &[u8],
    payments: &[Payment],
    legs: &[Name],
    lines: &mut Lines,
) -> Result<(), NoMemory>
    requires ready { IsReady lines.old.writer }
    requires label { IsPlain label.now }
    requires legs { All (λ payment. payment.leg < length legs.now) payments.now }
    ensures ready { OnOk result (IsReady lines.new.writer) }
    ensures lines { OnOk result (written lines.new.writer ≡ written lines.old.writer
        ++ payment_lines label.now (map (outcome.payment legs.now) payments.now)) }
{
    for payment in payments {
        let leg = legs[payment.leg as usize].bytes();
        lines.write_payment(label, payment.date, leg, payment.amount)?;
    }
    Ok(())
}

/// Writes the line of the fault, if an event faulted; where there is no memory, perhaps a part of it.
fn write_end(label: &[u8], end: End, lines: &mut Lines) -> Result<(), NoMemory>
    requires ready { IsReady lines.old.writer }
    requires label { IsPlain label.now }
    ensures ready { OnOk result (IsReady lines.new.writer) }
    ensures lines { OnOk result (written lines.new.writer ≡ written lines.old.writer ++ ended_lines label.now end) }
{
    match end {
        End::Done => Ok(()),
        End::Fault { date, kind } => lines.write_fault(label, date, kind),
    }
}

/// Writes the lines of a scenario; where there is no memory, perhaps a part of them.
fn write_scenario(
    label: &[u8],
    outcome: &Outcome,
    legs: &[Name],
    lines: &mut Lines,
) -> Result<(), NoMemory>
    requires whole { IsWhole lines.old.writer }
    requires label { IsPlain label.now }
    requires legs { All (λ payment. payment.leg < length legs.now) outcome.now.payments }
    ensures whole { OnOk result (IsWhole lines.new.writer) }
    ensures lines { OnOk result (text_under lines.new.writer ≡ text_under lines.old.writer ++ outcome_lines label.now legs.now outcome.now) }
{
    write_payments(label, outcome.payments(), legs, lines)?;
    write_end(label, outcome.end(), lines)?;
    lines.flush()
}

impl DetailWriter {
    /// A writer that has written nothing.
    pub fn new(alloc: Global) -> DetailWriter {
        DetailWriter {
            lines: Lines::new(alloc),
        }
    }

    /// The lines of a scenario: for each payment in order its label, date, leg and amount, and where an event faulted a line of the label,
    /// the date of the event, `!overflow`, `!zero divisor` or `!missing fixing`, and an empty field. An outcome without payments and fault has
    /// no lines.
    ///
    /// `legs` are the names of the legs by their numbers; the leg of each payment is one of them.
    ///
    /// # Errors
    ///
    /// [`NoMemory`] where there was no memory for the lines; the lines of the next scenario are then begun anew.
    pub fn rows(
        &mut self,
        label: &Label,
        outcome: &Outcome,
        legs: &[Name],
    ) -> Result<&[u8], NoMemory>
        requires legs { All (λ payment. payment.leg < length legs.now) outcome.now.payments }
        ensures { IfOk result (λ lines. lines.now ≡ outcome_lines label.now legs.now outcome.now) }
    {
        if self.lines.text().len() > MOST_KEPT {
            self.lines.begin_anew();
        }
        let start = self.lines.text().len();
        match write_scenario(label.bytes(), outcome, legs, &mut self.lines) {
            Ok(()) => Ok(&self.lines.text()[start..]),
            Err(NoMemory) => {
                self.lines.begin_anew();
                Err(NoMemory)
            }
        }
    }
}
