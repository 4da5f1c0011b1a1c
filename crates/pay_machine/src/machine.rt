//! The machine that runs a program.

ghost use Rattle.std.specs.Prelude.{◌≡◌, IfOk, length};
ghost use Rattle.pay_code.specs.Programs.{run};
ghost use Rattle.pay_machine.specs.NamedRuns.{GivesMeaningByName};
ghost use Rattle.pay_machine.specs.Runs.{GivesMeaning, HasRoom, IsBounded, IsGiven, Serves};

use crate::outcome::Outcome;
use crate::row::Row;
use crate::saved::Saved;
use crate::slots::Slots;
use crate::stack::Stack;
use crate::work::Work;
use pay_code::Program;
use pay_code::laws::{code_means, flat_code_is_bounded, parts_are_counted, runs_are_bounded};
use pay_fixed::{Fixed, NoMemory};
use std::alloc::Global;
use std::marker::Model;

/// What the runs of one program work on: the values of its variables, the stacks, and the values that open splits save.
#[derive(Drop)]
pub struct Machine {
    work: Work,
}

impl Model for Machine {
    ghost use Rattle.std.specs.Prelude.{◌≡◌, length};
    ghost use Rattle.pay_machine.specs.Runs.{Rooms};

    ghost Value = { Rooms };

    ghost view = { λ machine. record {
      variables = length machine.work.slots;
      entries = machine.work.numbers.room;
      saved = machine.work.saved.room;
    } };

    ghost invariant = { λ machine. (machine.work.weights.room ≡ machine.work.numbers.room)
        × (machine.work.frames.room ≡ machine.work.numbers.room) };
}

impl Machine {
    /// A machine with room for the runs of a program.
    ///
    /// # Errors
    ///
    /// [`NoMemory`] where there was no memory for that.
    pub fn prepare(alloc: Global, program: &Program) -> Result<Machine, NoMemory>
        ensures { IfOk result (λ machine. Serves machine program.now) }
    {
        let entries = program.stack() as usize;
        Ok(Machine {
            work: Work {
                slots: Slots::prepare(alloc, program.start())?,
                numbers: Stack::prepare(alloc, entries)?,
                weights: Stack::prepare(alloc, entries)?,
                frames: Stack::prepare(alloc, entries)?,
                saved: Saved::prepare(alloc, program.splits() as usize)?,
                event: 0,
                nodes: 0,
            },
        })
    }

    /// Runs the events of a program from its start values over a row with one cell for each of them, until one faults; the outcome becomes that of
    /// the run. It takes no memory.
    ///
    /// The machine and the outcome have to be prepared for this program.
    pub fn run(&mut self, program: &Program, row: &Row, into: &mut Outcome)
        requires serves { Serves self.now program.now }
        requires room { HasRoom into.now program.now }
        requires row { length row.now ≡ length program.now.dates }
        ensures ran { IsGiven (run program.now row.now) into.new }
        ensures meant { GivesMeaning program.now row.now into.new }
        ensures named { GivesMeaningByName program.now row.now into.new }
        ensures bounded { IsBounded program.now into.new }
        ensures serves { Serves self.new program.now }
        ensures room { HasRoom into.new program.now }
    {
        code_means();
        runs_are_bounded();
        parts_are_counted();
        program.stands_for_events();
        self.give(program, row.cells(), into);
    }

    /// Runs the events of a program over these cells; the outcome becomes that of the run.
    fn give(&mut self, program: &Program, cells: &[Option<Fixed>], into: &mut Outcome)
        requires serves { Serves self.now program.now }
        requires room { HasRoom into.now program.now }
        ensures ran { IsGiven (run program.now cells.now) into.new }
        ensures serves { Serves self.new program.now }
        ensures room { HasRoom into.new program.now }
    {
        flat_code_is_bounded();
        program.stands_for_events();
        let ran = self.work.execute(program, cells, &mut into.payments);
        into.end = self.work.ending(program, ran, &mut into.payments);
        into.values.copy_from_slice(self.work.slots.as_slice());
        into.nodes = self.work.nodes;
    }
}
