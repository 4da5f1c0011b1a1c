//! The loop over the operations of a program.

ghost use Rattle.std.specs.Prelude.{◌≡◌, length};
ghost use Rattle.pay_code.specs.Programs.{run};
ghost use Rattle.pay_machine.specs.Runs.{IsGiven};
ghost use Rattle.pay_machine.specs.Work.{HasRooms, HasSameRooms, fresh_work, gave, given, state};
ghost use Rattle.pay_runs.specs.Slots.{Row};

use crate::outcome::End;
use crate::payments::Payments;
use crate::work::Work;
use pay_code::Program;
use pay_code::laws::steps_add_at_most;
use pay_fixed::Fixed;
use pay_meaning::FaultKind;

impl Work {
    /// Begins a run from these values.
    fn begin(&mut self, start: &[Fixed])
        requires { length self.old.slots ≡ length start.now }
        ensures { self.new ≡ fresh_work start.now self.old }
    {
        self.slots.start(start);
        self.numbers.clear();
        self.weights.clear();
        self.frames.clear();
        self.saved.clear();
        self.event = 0;
        self.nodes = 0;
    }

    /// Runs the operations of a program over these cells from its start values, until one faults.
    ///
    /// # Errors
    ///
    /// The fault that ends the run.
    pub(crate) fn execute(
        &mut self,
        program: &Program,
        cells: &[Option<Fixed>],
        payments: &mut Payments,
    ) -> Result<(), FaultKind>
        requires { HasRooms self.old payments.old.room program.now }
        ensures outcome { gave result (state self.new payments.new program.now.dates cells.now) ≡ run program.now cells.now }
        ensures rooms { HasSameRooms self.old self.new payments.old payments.new }
    {
        steps_add_at_most();
        self.begin(program.start());
        payments.clear();
        let ops = program.ops();
        // There are as many operations as a stack may have entries.
        let last = program.stack() as usize;
        let mut at = 0;
        while at < last {
            let past = self.step(&ops[at], at, program, cells, payments)?;
            at += 1 + past;
        }
        Ok(())
    }

    /// How a run ended that came to its end, or to a fault, which drops the payments of its event.
    pub(crate) fn ending(
        &self,
        program: &Program,
        ran: Result<(), FaultKind>,
        payments: &mut Payments,
    ) -> End
        ensures gives { (row : Row) → IsGiven (gave ran (state self.now payments.old program.now.dates row))
            (given self.now payments.new result) }
        ensures room { payments.new.room ≡ payments.old.room }
    {
        let Err(kind) = ran else {
            return End::Done;
        };
        payments.forget();
        if self.event >= program.events() {
            return End::Done;
        }
        End::Fault {
            date: program.date_of(self.event),
            kind,
        }
    }
}
