//! A program: flat code, ready to run.

ghost use Rattle.std.specs.Prelude.{◌≡◌, ◌*◌, ◌<◌, ◌≤◌, get_or, length};
ghost use Rattle.pay_code.specs.Bounds.{pays_in};
ghost use Rattle.pay_code.specs.Programs.{AreGoodOps, IsValid};
ghost use Rattle.pay_code.specs.States.{HasEntries, HasSaved, InEachRun};

use crate::op::Op;
use pay_dates::Day;
use pay_fixed::Fixed;
use std::marker::Model;

/// Flat code with the dates of its events, the values that its variables start from, and how much a run of it needs. It holds no tree, but there
/// are events that it stands for.
#[derive(Drop)]
pub struct Program {
    /// The operations.
    pub(crate) ops: Vec<Op>,
    /// The table of the variables that choices change, which each `EndIf` names a part of.
    pub(crate) changed: Vec<u32>,
    /// The dates of the events, in order.
    pub(crate) dates: Vec<Day>,
    /// The values that the variables start from, by their numbers.
    pub(crate) start: Vec<Fixed>,
    /// Whether its runs read the smoothings of comparisons.
    pub(crate) fuzzy: bool,
    /// How many of the operations are payments.
    pub(crate) pays: u32,
}

impl Model for Program {
    ghost use Rattle.std.specs.Prelude.{◌≡◌, ◌^◌, ◌*◌, ◌<◌, length};
    ghost use Rattle.pay_code.specs.Bounds.{pays_in};
    ghost use Rattle.pay_code.specs.Programs.{AreGoodOps, Compiled, IsValid};

    ghost Value = { Compiled };

    ghost view = { λ program. record {
      code = program.ops.items;
      table = program.changed.items;
      dates = program.dates.items;
      start = program.start.items;
      fuzzy = program.fuzzy;
    } };

    ghost invariant = { λ program. (program.pays ≡ pays_in program.ops.items) × (length program.ops.items < 2 ^ 32)
        × (2 * length program.changed.items < 2 ^ 32) × AreGoodOps program.ops.items × IsValid (record {
          code = program.ops.items;
          table = program.changed.items;
          dates = program.dates.items;
          start = program.start.items;
          fuzzy = program.fuzzy;
        }) };
}

impl Program {
    /// The operations, in order.
    pub fn ops(&self) -> &[Op]
        ensures ops { result.now ≡ self.now.code }
        ensures good { AreGoodOps self.now.code }
    {
        self.ops.as_slice()
    }

    /// The table of the variables that choices change, by their numbers: each `EndIf` names the part of it that is its own.
    pub fn changed(&self) -> &[u32]
        ensures { result.now ≡ self.now.table }
    {
        self.changed.as_slice()
    }

    /// How many events there are: at most 4,096.
    pub fn events(&self) -> u32
        ensures events { result ≡ length self.now.dates }
        ensures few { result ≤ 4096 }
    {
        self.dates.len() as u32
    }

    /// The dates of the events, in order.
    pub fn dates(&self) -> &[Day]
        ensures { result.now ≡ self.now.dates }
    {
        self.dates.as_slice()
    }

    /// The date of an event, which is one of them, from 0.
    pub fn date_of(&self, event: u32) -> Day
        requires { event < length self.now.dates }
        ensures { result ≡ get_or self.now.dates event result }
    {
        self.dates[event as usize]
    }

    /// How many variables there are: at most 1,024.
    pub fn slots(&self) -> u32
        ensures slots { result ≡ length self.now.start }
        ensures few { result ≤ 1024 }
    {
        self.start.len() as u32
    }

    /// How many payments a run makes at most: one for each `Pay`.
    pub fn pays(&self) -> u32
        ensures { result ≡ pays_in self.now.code }
    {
        self.pays
    }

    /// How many entries each stack has at most in a run: one for each operation.
    #[tactic(auto, using(crate::proofs::StatesLaw::stacks_are_low))]
    pub fn stack(&self) -> u32
        ensures operations { result ≡ length self.now.code }
        ensures enough { InEachRun (HasEntries (length self.now.code)) self.now }
    {
        self.ops.len() as u32
    }

    /// How many values the open splits of a run hold at most: two for each entry of the table.
    #[tactic(auto, using(crate::proofs::StatesLaw::splits_are_few))]
    pub fn splits(&self) -> u32
        ensures entries { result ≡ 2 * length self.now.table }
        ensures enough { InEachRun (HasSaved (2 * length self.now.table)) self.now }
    {
        2 * self.changed.len() as u32
    }

    /// The values that the variables start from, by their numbers.
    pub fn start(&self) -> &[Fixed]
        ensures { result.now ≡ self.now.start }
    {
        self.start.as_slice()
    }

    /// Whether its runs read the smoothings of comparisons.
    pub fn is_fuzzy(&self) -> bool
        ensures { result ≡ self.now.fuzzy }
    {
        self.fuzzy
    }

    /// There are events that it stands for.
    pub fn stands_for_events(&self)
        ensures { IsValid self.now }
    {
        let _ = &self.ops;
    }
}
