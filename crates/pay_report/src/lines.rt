//! Lines of the report, written by `csv`.

ghost use Rattle.std.specs.Prelude.{◌≡◌, ◌++◌, [], OnOk, OnErr};
ghost use Rattle.pay_dates.specs.Days.{day_text};
ghost use Rattle.pay_fixed.specs.Decimal.{decimal_text};
ghost use Rattle.pay_report.specs.Detail.{line, fault_name, fault_line};
ghost use Rattle.pay_report.specs.Lines.{IsPlain, IsReady, IsWhole, written, text_under};

use crate::date_text::DateText;
use csv::{Writer, WriterBuilder};
use pay_dates::Day;
use pay_fixed::{Fixed, NoMemory};
use pay_meaning::FaultKind;
use std::alloc::Global;

/// Lines of four fields in memory. The writer has a buffer of 8 KB, so one `Lines` serves the lines of many scenarios.
#[derive(Drop)]
pub(crate) struct Lines {
    alloc: Global,
    writer: Writer<Vec<u8>>,
    /// The text of the last line's date.
    date: DateText,
    /// The text of the last line's amount.
    amount: Vec<u8>,
}

/// A writer that has written nothing.
fn new_writer(alloc: Global) -> Writer<Vec<u8>>
    ensures whole { IsWhole result }
    ensures none { text_under result ≡ [] }
{
    WriterBuilder::new().from_writer(Vec::new(alloc))
}

/// Writes a line of fields that need no quotes; where there is no memory, perhaps a part of it.
fn write_line(
    writer: &mut Writer<Vec<u8>>,
    scenario: &[u8],
    date: &[u8],
    leg: &[u8],
    amount: &[u8],
) -> Result<(), NoMemory>
    requires ready { IsReady writer.old }
    requires scenario { IsPlain scenario.now }
    requires date { IsPlain date.now }
    requires leg { IsPlain leg.now }
    requires amount { IsPlain amount.now }
    ensures ready { OnOk result (IsReady writer.new) }
    ensures lines { OnOk result (written writer.new ≡ written writer.old ++ line scenario.now date.now leg.now amount.now) }
{
    writer
        .write_fields(&[scenario, date, leg, amount])
        .map_err(|_| NoMemory)
}

/// The name of a fault in the report.
fn fault_name(kind: FaultKind) -> &'static [u8]
    ensures { result.now ≡ fault_name kind }
{
    match kind {
        FaultKind::Overflow => b"!overflow".as_slice(),
        FaultKind::ZeroDivisor => b"!zero divisor".as_slice(),
        FaultKind::MissingFixing => b"!missing fixing".as_slice(),
    }
}

impl Lines {
    /// No lines.
    pub(crate) fn new(alloc: Global) -> Lines
        ensures whole { IsWhole result.writer }
        ensures none { text_under result.writer ≡ [] }
    {
        Lines {
            alloc,
            writer: new_writer(alloc),
            date: DateText::new(alloc),
            amount: Vec::new(alloc),
        }
    }

    /// Begins with no lines again, whatever was written.
    #[inline(never)]
    pub(crate) fn begin_anew(&mut self)
        ensures whole { IsWhole self.new.writer }
        ensures none { text_under self.new.writer ≡ [] }
    {
        self.writer = new_writer(self.alloc);
    }

    /// Writes a line of fields that need no quotes; where there is no memory, perhaps a part of it.
    pub(crate) fn write(
        &mut self,
        scenario: &[u8],
        date: &[u8],
        leg: &[u8],
        amount: &[u8],
    ) -> Result<(), NoMemory>
        requires ready { IsReady self.old.writer }
        requires scenario { IsPlain scenario.now }
        requires date { IsPlain date.now }
        requires leg { IsPlain leg.now }
        requires amount { IsPlain amount.now }
        ensures ready { OnOk result (IsReady self.new.writer) }
        ensures lines { OnOk result (written self.new.writer ≡ written self.old.writer ++ line scenario.now date.now leg.now amount.now) }
    {
        write_line(&mut self.writer, scenario, date, leg, amount)
    }

    /// Writes the line of a payment; where there is no memory, perhaps a part of it.
    pub(crate) fn write_payment(
        &mut self,
        label: &[u8],
        date: Day,
        leg: &[u8],
        amount: Fixed,
    ) -> Result<(), NoMemory>
        requires ready { IsReady self.old.writer }
        requires label { IsPlain label.now }
        requires leg { IsPlain leg.now }
        ensures ready { OnOk result (IsReady self.new.writer) }
        ensures lines { OnOk result (written self.new.writer ≡ written self.old.writer ++ line label.now (day_text date) leg.now (decimal_text amount)) }
    {
        self.date.set(date)?;
        self.amount.clear();
        amount.write_decimal(&mut self.amount)?;
        write_line(
            &mut self.writer,
            label,
            self.date.bytes(),
            leg,
            self.amount.as_slice(),
        )
    }

    /// Writes the line of a fault; where there is no memory, perhaps a part of it.
    pub(crate) fn write_fault(
        &mut self,
        label: &[u8],
        date: Day,
        kind: FaultKind,
    ) -> Result<(), NoMemory>
        requires ready { IsReady self.old.writer }
        requires label { IsPlain label.now }
        ensures ready { OnOk result (IsReady self.new.writer) }
        ensures lines { OnOk result (written self.new.writer ≡ written self.old.writer ++ fault_line label.now date kind) }
    {
        self.date.set(date)?;
        write_line(
            &mut self.writer,
            label,
            self.date.bytes(),
            fault_name(kind),
            b"".as_slice(),
        )
    }

    /// Hands every line on to the memory under the writer; where there is no memory, perhaps not all.
    pub(crate) fn flush(&mut self) -> Result<(), NoMemory>
        requires ready { IsReady self.old.writer }
        ensures whole { OnOk result (IsWhole self.new.writer) }
        ensures lines { OnOk result (text_under self.new.writer ≡ written self.old.writer) }
    {
        self.writer.flush().map_err(|_| NoMemory)
    }

    /// The lines that were handed on.
    pub(crate) fn text(&self) -> &[u8]
        ensures { result.now ≡ text_under self.now.writer }
    {
        self.writer.get_ref().as_slice()
    }
}
