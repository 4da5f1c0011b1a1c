//! What one operation does.

ghost use Rattle.std.specs.Prelude.{◌≡◌, ◌+◌, ◌-◌, ◌^◌, ◌<◌, [], ◌++◌, length, drop, map, nat_eq, set, IfOk, Ok};
ghost use Rattle.pay_code.specs.Bounds.{pays_of, saved_of};
ghost use Rattle.pay_code.specs.Execution.{below_top, paid_on, put_number, skip_if, step, top_number, top_weight};
ghost use Rattle.pay_code.specs.Programs.{IsGoodIfAny, IsGoodOp};
ghost use Rattle.pay_fixed.specs.Weights.{whole as full};
ghost use Rattle.pay_machine.specs.Paid.{paid};
ghost use Rattle.pay_machine.specs.Stacks.{popped, pushed};
ghost use Rattle.pay_machine.specs.Work.{Does, HasSpace, Keeps, Stays, state, stepped};
ghost use Rattle.pay_meaning.specs.Meaning as meant;
ghost use Rattle.pay_runs.specs.Slots.{first_cell, signed_value, slot_value};
ghost use Rattle.pay_runs.specs.Weighing.{certain, compared_weight, either, joint};
ghost use Rattle.pay_tree.specs.Owned.{note_of};
ghost use Rattle.pay_tree.specs.Views.{comparison, operator};

use crate::number::{calculated, known, signed};
use crate::outcome::Payment;
use crate::payments::Payments;
use crate::values::zero;
use crate::weight::Weight;
use crate::work::Work;
use pay_code::{Op, Program};
use pay_fixed::{Fixed, Smooth};
use pay_meaning::FaultKind;
use pay_tree::{Binary, Compare, Unary};

/// How many operations a jump from one place to another passes over.
#[inline(always)]
pub(crate) fn passed(at: usize, to: u32) -> usize
    requires { at < 2 ^ 32 }
    ensures past { result ≡ to - (at + 1) }
    ensures few { result < 2 ^ 32 }
{
    (to as usize).saturating_sub(at + 1)
}

impl Work {
    /// The number on top of its stack.
    #[inline(always)]
    fn top_number(&self) -> Fixed
        ensures { result ≡ top_number self.now.numbers.entries }
    {
        self.numbers.top(zero())
    }

    /// The number below the top.
    #[inline(always)]
    fn second_number(&self) -> Fixed
        ensures { result ≡ top_number (below_top self.now.numbers.entries) }
    {
        self.numbers.second(zero())
    }

    /// The weight on top of its stack.
    #[inline(always)]
    pub(crate) fn top_weight(&self) -> Weight
        ensures { result ≡ top_weight self.now.weights.entries }
    {
        self.weights.top(Weight::nothing())
    }

    /// The weight below the top.
    #[inline(always)]
    fn second_weight(&self) -> Weight
        ensures { result ≡ top_weight (below_top self.now.weights.entries) }
    {
        self.weights.second(Weight::nothing())
    }

    /// Puts a number on its stack.
    #[inline(always)]
    fn put_number(&mut self, number: Fixed) -> usize
        requires room { length self.old.numbers.entries < self.old.numbers.room }
        requires nodes { self.old.nodes < 2 ^ 32 }
        ensures past { result ≡ 0 }
        ensures new { self.new ≡ record self.old { numbers = pushed number self.old.numbers; nodes = self.old.nodes + 1 } }
    {
        self.numbers.push(number);
        self.nodes += 1;
        0
    }

    /// Puts the value of a variable on the stack of numbers.
    #[inline(always)]
    fn put_slot(&mut self, slot: u32) -> usize
        requires room { length self.old.numbers.entries < self.old.numbers.room }
        requires nodes { self.old.nodes < 2 ^ 32 }
        ensures past { result ≡ 0 }
        ensures new { self.new ≡ record self.old {
          numbers = pushed (slot_value self.old.slots slot) self.old.numbers;
          nodes = self.old.nodes + 1;
        } }
    {
        let number = self.slots.value_of(slot);
        self.put_number(number)
    }

    /// Puts the fixing of the event on the stack of numbers.
    #[inline(always)]
    fn put_spot(&mut self, cells: &[Option<Fixed>]) -> Result<usize, FaultKind>
        requires room { length self.old.numbers.entries < self.old.numbers.room }
        requires nodes { self.old.nodes < 2 ^ 32 }
        ensures does { Does self.old self.new result (λ s. put_number s.numbers (meant.known (first_cell (drop self.old.event cells.now))) s) }
        ensures stays { Stays self.old self.new }
        ensures few { IfOk result (λ past. past < 2 ^ 32) }
    {
        self.nodes += 1;
        let number = known(fixing(cells, self.event as usize))?;
        self.numbers.push(number);
        Ok(0)
    }

    /// Puts what an operator makes of the number on top in its place.
    #[inline(always)]
    fn unary(&mut self, op: Unary) -> usize
        requires room { length self.old.numbers.entries < self.old.numbers.room }
        requires nodes { self.old.nodes < 2 ^ 32 }
        ensures past { result ≡ 0 }
        ensures new { self.new ≡ record self.old {
          numbers = pushed (signed_value op (top_number self.old.numbers.entries)) (popped self.old.numbers);
          nodes = self.old.nodes + 1;
        } }
    {
        let number = signed(op, self.top_number());
        self.numbers.lower();
        self.put_number(number)
    }

    /// Puts what an operator makes of the two numbers on top in their place.
    #[inline(always)]
    fn binary(&mut self, op: Binary) -> Result<usize, FaultKind>
        requires room { length self.old.numbers.entries < self.old.numbers.room }
        requires nodes { self.old.nodes < 2 ^ 32 }
        ensures does { Does self.old self.new result (λ s. put_number (below_top (below_top s.numbers))
            (meant.calculated (operator op) (top_number (below_top s.numbers)) (top_number s.numbers)) s) }
        ensures stays { Stays self.old self.new }
        ensures few { IfOk result (λ past. past < 2 ^ 32) }
    {
        self.nodes += 1;
        let number = calculated(op, self.second_number(), self.top_number())?;
        self.numbers.lower();
        self.numbers.lower();
        self.numbers.push(number);
        Ok(0)
    }

    /// Puts a weight on its stack.
    #[inline(always)]
    fn put_weight(&mut self, weight: Weight) -> usize
        requires room { length self.old.weights.entries < self.old.weights.room }
        requires nodes { self.old.nodes < 2 ^ 32 }
        ensures past { result ≡ 0 }
        ensures new { self.new ≡ record self.old { weights = pushed weight self.old.weights; nodes = self.old.nodes + 1 } }
    {
        self.weights.push(weight);
        self.nodes += 1;
        0
    }

    /// Puts the weight of the comparison of the two numbers on top on its stack, and takes them.
    #[inline(always)]
    fn compare(&mut self, fuzzy: bool, op: Compare, smooth: Option<Smooth>) -> usize
        requires good { IsGoodIfAny smooth }
        requires room { length self.old.weights.entries < self.old.weights.room }
        requires nodes { self.old.nodes < 2 ^ 32 }
        ensures past { result ≡ 0 }
        ensures new { self.new ≡ record self.old {
          numbers = popped (popped self.old.numbers);
          weights = pushed (compared_weight fuzzy (comparison op) (note_of smooth)
              (top_number (below_top self.old.numbers.entries)) (top_number self.old.numbers.entries)) self.old.weights;
          nodes = self.old.nodes + 1;
        } }
    {
        let weight = Weight::of_comparison(
            fuzzy,
            op,
            smooth,
            self.second_number(),
            self.top_number(),
        );
        self.numbers.lower();
        self.numbers.lower();
        self.put_weight(weight)
    }

    /// Puts a weight in the place of the one on top.
    #[inline(always)]
    fn replace(&mut self, weight: Weight) -> usize
        requires room { length self.old.weights.entries < self.old.weights.room }
        requires nodes { self.old.nodes < 2 ^ 32 }
        ensures past { result ≡ 0 }
        ensures new { self.new ≡ record self.old { weights = pushed weight (popped self.old.weights); nodes = self.old.nodes + 1 } }
    {
        self.weights.lower();
        self.put_weight(weight)
    }

    /// Puts a weight in the place of the two on top.
    #[inline(always)]
    fn join(&mut self, weight: Weight) -> usize
        requires room { length self.old.weights.entries < self.old.weights.room }
        requires nodes { self.old.nodes < 2 ^ 32 }
        ensures past { result ≡ 0 }
        ensures new { self.new ≡ record self.old {
          weights = pushed weight (popped (popped self.old.weights));
          nodes = self.old.nodes + 1;
        } }
    {
        self.weights.lower();
        self.replace(weight)
    }

    /// Puts what the weight on top leaves of the whole in its place.
    #[inline(always)]
    fn not(&mut self) -> usize
        requires room { length self.old.weights.entries < self.old.weights.room }
        requires nodes { self.old.nodes < 2 ^ 32 }
        ensures past { result ≡ 0 }
        ensures new { self.new ≡ record self.old {
          weights = pushed (full - top_weight self.old.weights.entries) (popped self.old.weights);
          nodes = self.old.nodes + 1;
        } }
    {
        let weight = self.top_weight().rest();
        self.replace(weight)
    }

    /// Puts the weight of the two on top together in their place.
    #[inline(always)]
    fn join_and(&mut self) -> usize
        requires room { length self.old.weights.entries < self.old.weights.room }
        requires nodes { self.old.nodes < 2 ^ 32 }
        ensures past { result ≡ 0 }
        ensures new { self.new ≡ record self.old {
          weights = pushed (joint (top_weight (below_top self.old.weights.entries)) (top_weight self.old.weights.entries))
              (popped (popped self.old.weights));
          nodes = self.old.nodes + 1;
        } }
    {
        let weight = self.second_weight().joint(self.top_weight());
        self.join(weight)
    }

    /// Puts the weight of either of the two on top in their place.
    #[inline(always)]
    fn join_or(&mut self) -> usize
        requires room { length self.old.weights.entries < self.old.weights.room }
        requires nodes { self.old.nodes < 2 ^ 32 }
        ensures past { result ≡ 0 }
        ensures new { self.new ≡ record self.old {
          weights = pushed (either (top_weight (below_top self.old.weights.entries)) (top_weight self.old.weights.entries))
              (popped (popped self.old.weights));
          nodes = self.old.nodes + 1;
        } }
    {
        let weight = self.second_weight().either(self.top_weight());
        self.join(weight)
    }

    /// Puts the weight of an answer in the place of the one on top; that is no node of its own.
    #[inline(always)]
    fn settle(&mut self, answer: bool) -> usize
        requires room { length self.old.weights.entries < self.old.weights.room }
        ensures past { result ≡ 0 }
        ensures new { self.new ≡ record self.old { weights = pushed (certain answer) (popped self.old.weights) } }
    {
        self.weights.lower();
        self.weights.push(Weight::certain(answer));
        0
    }

    /// Goes on past the right side of `and` where the left one weighs nothing; the `and` counts then.
    #[inline(always)]
    fn skip_and(&mut self, at: usize, to: u32) -> usize
        requires small { at < 2 ^ 32 }
        requires nodes { self.old.nodes < 2 ^ 32 }
        ensures does { Does self.old self.new (Ok result) (λ s. skip_if (nat_eq (top_weight s.weights) 0) (to - (at + 1)) s) }
        ensures stays { Stays self.old self.new }
        ensures few { result < 2 ^ 32 }
    {
        if !self.top_weight().is_nothing() {
            return 0;
        }
        self.nodes += 1;
        passed(at, to)
    }

    /// Goes on past the right side of `or` where the left one has the whole weight; the `or` counts then.
    #[inline(always)]
    fn skip_or(&mut self, at: usize, to: u32) -> usize
        requires small { at < 2 ^ 32 }
        requires nodes { self.old.nodes < 2 ^ 32 }
        ensures does { Does self.old self.new (Ok result) (λ s. skip_if (nat_eq (top_weight s.weights) full) (to - (at + 1)) s) }
        ensures stays { Stays self.old self.new }
        ensures few { result < 2 ^ 32 }
    {
        if !self.top_weight().is_whole() {
            return 0;
        }
        self.nodes += 1;
        passed(at, to)
    }

    /// Takes a number, and gives it to a variable.
    #[inline(always)]
    fn assign(&mut self, slot: u32) -> usize
        requires { self.old.nodes < 2 ^ 32 }
        ensures past { result ≡ 0 }
        ensures new { self.new ≡ record self.old {
          slots = set self.old.slots slot (top_number self.old.numbers.entries);
          numbers = popped self.old.numbers;
          nodes = self.old.nodes + 1;
        } }
    {
        let number = self.top_number();
        self.slots.set(slot, number);
        self.numbers.lower();
        self.nodes += 1;
        0
    }

    /// Takes a number, and pays it to a leg at the date of the event.
    #[inline(always)]
    fn pay(&mut self, leg: u32, program: &Program, payments: &mut Payments) -> usize
        requires nodes { self.old.nodes < 2 ^ 32 }
        requires room { length payments.old.kept + length payments.old.fresh < payments.old.room }
        ensures past { result ≡ 0 }
        ensures new { self.new ≡ record self.old { numbers = popped self.old.numbers; nodes = self.old.nodes + 1 } }
        ensures kept { payments.new.kept ≡ payments.old.kept }
        ensures fresh { map paid payments.new.fresh ≡ map paid payments.old.fresh
            ++ paid_on (drop self.old.event program.now.dates) leg (top_number self.old.numbers.entries) }
        ensures room { payments.new.room ≡ payments.old.room }
    {
        let amount = self.top_number();
        if self.event < program.events() {
            let date = program.date_of(self.event);
            payments.push(Payment { date, leg, amount });
        }
        self.numbers.lower();
        self.nodes += 1;
        0
    }

    /// Ends an event.
    fn end_event(&mut self, payments: &mut Payments) -> usize
        requires { self.old.event + 1 < 2 ^ 32 }
        ensures past { result ≡ 0 }
        ensures new { self.new ≡ record self.old { event = self.old.event + 1 } }
        ensures payments { payments.new ≡ record { kept = payments.old.kept ++ payments.old.fresh; fresh = []; room = payments.old.room } }
    {
        payments.keep();
        self.event += 1;
        0
    }
}

impl Work {
    /// What an operation does at its place: how many of the next ones it passes over.
    ///
    /// # Errors
    ///
    /// The fault of the operation.
    #[inline(always)]
    pub(crate) fn step(
        &mut self,
        op: &Op,
        at: usize,
        program: &Program,
        cells: &[Option<Fixed>],
        payments: &mut Payments,
    ) -> Result<usize, FaultKind>
        requires small { at < 2 ^ 32 }
        requires at { at < length program.now.code }
        requires good { IsGoodOp op.now }
        requires space { HasSpace self.old payments.old (pays_of op.now)
            (saved_of program.now.table op.now at (drop (at + 1) program.now.code)) }
        ensures stepped { stepped result (state self.new payments.new program.now.dates cells.now)
            ≡ step program.now.fuzzy program.now.table op.now at (drop (at + 1) program.now.code)
            (state self.old payments.old program.now.dates cells.now) }
        ensures keeps { Keeps self.old self.new payments.old payments.new }
        ensures few { IfOk result (λ past. past < 2 ^ 32) }
    {
        match op {
            Op::Number(number) => Ok(self.put_number(*number)),
            Op::Slot(slot) => Ok(self.put_slot(*slot)),
            Op::Spot => self.put_spot(cells),
            Op::Unary(op) => Ok(self.unary(*op)),
            Op::Binary(op) => self.binary(*op),
            Op::Truth(answer) => Ok(self.put_weight(Weight::certain(*answer))),
            Op::Compare { op, smooth } => Ok(self.compare(program.is_fuzzy(), *op, *smooth)),
            Op::Not => Ok(self.not()),
            Op::AndSkip { to } => Ok(self.skip_and(at, *to)),
            Op::AndJoin => Ok(self.join_and()),
            Op::OrSkip { to } => Ok(self.skip_or(at, *to)),
            Op::OrJoin => Ok(self.join_or()),
            Op::Sure(answer) => Ok(self.settle(*answer)),
            Op::Assign(slot) => Ok(self.assign(*slot)),
            Op::Pay(leg) => Ok(self.pay(*leg, program, payments)),
            Op::If { other } => Ok(self.enter(program, at, *other, payments.count())),
            Op::Else { after } => Ok(self.turn(program, at, *after, payments.count())),
            Op::EndIf { .. } => Ok(self.close(op, program, payments)),
            Op::EndEvent => Ok(self.end_event(payments)),
        }
    }
}

/// The cell of an event, if there is one and it has a fixing.
#[inline(always)]
fn fixing(cells: &[Option<Fixed>], event: usize) -> Option<Fixed>
    ensures { result ≡ first_cell (drop event cells.now) }
{
    if event < cells.len() {
        return cells[event];
    }
    None
}
