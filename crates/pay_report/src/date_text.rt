//! The text of a date, written once for successive lines of that date.

ghost use Rattle.std.specs.Prelude.{◌≡◌, Some, None, OnOk, OnErr, IsTrue, IfSome};
ghost use Rattle.pay_dates.specs.Days.{day_text};

use pay_dates::{Day, write_day};
use pay_fixed::NoMemory;
use std::alloc::Global;
use std::marker::Model;

/// A date, if there is one yet, and its text.
#[derive(Drop)]
pub(crate) struct DateText {
    date: Option<Day>,
    text: Vec<u8>,
}

impl Model for DateText {
    ghost use Rattle.std.specs.Prelude.{◌≡◌, Option, IfSome};
    ghost use Rattle.pay_dates.specs.Days.{Date as Plain, day_text};

    ghost Value = { Option Plain };

    ghost view = { λ kept. kept.date };

    ghost invariant = { λ kept. IfSome kept.date (λ date. kept.text.items ≡ day_text date) };
}

impl DateText {
    /// The text of no date.
    pub(crate) fn new(alloc: Global) -> DateText
        ensures { result ≡ None }
    {
        DateText {
            date: None,
            text: Vec::new(alloc),
        }
    }

    /// Whether the text is that of this date.
    fn is_of(&self, date: Day) -> bool
        ensures { IsTrue result → self.now ≡ Some date }
    {
        match self.date {
            Some(kept) => kept == date,
            None => false,
        }
    }

    /// Makes it the text of this date, which is written only where it isn't there already; where there is no memory, the text of no date.
    pub(crate) fn set(&mut self, date: Day) -> Result<(), NoMemory>
        ensures ok { OnOk result (self.new ≡ Some date) }
        ensures err { OnErr result (self.new ≡ None) }
    {
        if self.is_of(date) {
            return Ok(());
        }
        self.date = None;
        self.text.clear();
        write_day(date, &mut self.text).map_err(|_| NoMemory)?;
        self.date = Some(date);
        Ok(())
    }

    /// The bytes of the text.
    pub(crate) fn bytes(&self) -> &[u8]
        ensures { IfSome self.now (λ date. result.now ≡ day_text date) }
    {
        self.text.as_slice()
    }
}
