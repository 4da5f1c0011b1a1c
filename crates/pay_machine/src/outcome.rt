//! What the run of a scenario gives.

use crate::payments::Payments;
use pay_code::Program;
use pay_dates::Day;
use pay_fixed::{Fixed, NoMemory};
use pay_meaning::FaultKind;
use std::alloc::Global;
use std::marker::Model;

/// An amount that a leg is paid at a date.
#[derive(Clone, Copy, PartialEq, Eq, Debug)]
pub struct Payment {
    /// The date of the event that pays it.
    pub date: Day,
    /// The number of the leg, from 0: its place among the legs of the script by their first appearance.
    pub leg: u32,
    /// The amount, in raws of 1/10,000.
    pub amount: Fixed,
}

/// How the events of a scenario ended.
#[derive(Clone, Copy, PartialEq, Eq, Debug)]
pub enum End {
    /// All of them ran.
    Done,
    /// The event of this date faulted.
    Fault {
        /// The date of the event.
        date: Day,
        /// Why it faulted.
        kind: FaultKind,
    },
}

/// What the run of a scenario gives: its payments, how its events ended, the last values of its variables, and how many nodes were evaluated. It has
/// room for what the runs of one program give.
#[derive(Drop)]
pub struct Outcome {
    pub(crate) payments: Payments,
    pub(crate) end: End,
    pub(crate) values: Vec<Fixed>,
    pub(crate) nodes: u64,
}

impl Model for Outcome {
    ghost use Rattle.std.specs.Prelude.{◌++◌};
    ghost use Rattle.pay_machine.specs.Outcomes.{Given};

    ghost Value = { Given };

    ghost view = { λ outcome. record {
      payments = outcome.payments.kept ++ outcome.payments.fresh;
      end = outcome.end;
      values = outcome.values.items;
      nodes = outcome.nodes;
      room = outcome.payments.room;
    } };
}

impl Outcome {
    ghost use Rattle.std.specs.Prelude.{◌≡◌, IfOk};
    ghost use Rattle.pay_machine.specs.Runs.{HasRoom};

    /// An outcome with room for what the runs of a program give. What it has before the first run says nothing.
    ///
    /// # Errors
    ///
    /// [`NoMemory`] where there was no memory for the payments or for the values.
    pub fn prepare(alloc: Global, program: &Program) -> Result<Outcome, NoMemory>
        ensures { IfOk result (λ outcome. HasRoom outcome program.now) }
    {
        let payments = Payments::prepare(alloc, program.pays() as usize)?;
        let mut values = Vec::new(alloc);
        values.extend_from_slice(program.start())?;
        Ok(Outcome {
            payments,
            end: End::Done,
            values,
            nodes: 0,
        })
    }

    /// The payments in order.
    pub fn payments(&self) -> &[Payment]
        ensures { result.now ≡ self.now.payments }
    {
        self.payments.as_slice()
    }

    /// How the events ended.
    pub fn end(&self) -> End
        ensures { result ≡ self.now.end }
    {
        self.end
    }

    /// The last value of each variable, by its number: its place among the variables of the script by their first appearance. Where an event
    /// faulted the values say nothing.
    pub fn values(&self) -> &[Fixed]
        ensures { result.now ≡ self.now.values }
    {
        self.values.as_slice()
    }

    /// How many nodes were evaluated.
    pub fn nodes(&self) -> u64
        ensures { result ≡ self.now.nodes }
    {
        self.nodes
    }
}
