//! What the operations of a choice do.

ghost use Rattle.std.specs.Prelude.{◌≡◌, ◌+◌, ◌-◌, ◌^◌, ◌<◌, ◌≤◌, ◌++◌, length, drop, take, map, nat_eq, List};
ghost use Rattle.pay_code.specs.Execution.{below_top, blended_with, changes_from_if, changes_of, close, counted, enter, goes, op_ahead, restored};
ghost use Rattle.pay_code.specs.Execution.{top_weight, turn, values_of};
ghost use Rattle.pay_dates.specs.declared.day.Day.{Day};
ghost use Rattle.pay_fixed.specs.Weights.{whole as full};
ghost use Rattle.pay_machine.specs.Frames.{begun};
ghost use Rattle.pay_machine.specs.Work.{DoesAfter, Stays, state};
ghost use Rattle.pay_runs.specs.Slots.{Row};

use crate::changes::{changes_at_else, changes_at_if, changes_of};
use crate::frame::Frame;
use crate::payments::Payments;
use crate::saved::after;
use crate::step::passed;
use crate::weight::Weight;
use crate::work::Work;
use pay_code::{Op, Program};

impl Work {
    /// Begins a choice by the weight on top: one branch alone, or both.
    pub(crate) fn enter(&mut self, program: &Program, at: usize, to: u32, made: usize) -> usize
        requires small { at < 2 ^ 32 }
        requires at { at < length program.now.code }
        requires nodes { self.old.nodes < 2 ^ 32 }
        requires room { length self.old.frames.entries < self.old.frames.room }
        requires saved { length self.old.saved.entries + length (changes_from_if program.now.table at (drop (at + 1) program.now.code) to)
            ≤ self.old.saved.room }
        ensures does { DoesAfter made self.old self.new result (λ s.
            enter (nat_eq (top_weight s.weights) 0) (nat_eq (top_weight s.weights) full) (top_weight s.weights) (to - (at + 1))
            (changes_from_if program.now.table at (drop (at + 1) program.now.code) to) (counted (record s { weights = below_top s.weights }))) }
        ensures stays { Stays self.old self.new }
        ensures few { result < 2 ^ 32 }
    {
        let weight = self.top_weight();
        self.weights.lower();
        self.nodes += 1;
        if weight.is_nothing() {
            self.frames.push(Frame::Alone);
            return passed(at, to);
        }
        if weight.is_whole() {
            self.frames.push(Frame::Alone);
            return 0;
        }
        let from = self.saved.count();
        let changes = changes_at_if(program.changed(), program.ops(), at, to);
        self.saved.save(changes, self.slots.as_slice());
        self.frames.push(Frame::TrueBranch {
            weight,
            before: made,
            from,
        });
        0
    }

    /// Goes past the false branch of a choice, or into it with the variables as they were before the true one.
    pub(crate) fn turn(&mut self, program: &Program, at: usize, to: u32, made: usize) -> usize
        requires small { at < 2 ^ 32 }
        requires at { at < length program.now.code }
        requires room { length self.old.frames.entries < self.old.frames.room }
        requires saved { length self.old.saved.entries + length (changes_of program.now.table (op_ahead (drop (at + 1) program.now.code) (to - (at + 1))))
            ≤ self.old.saved.room }
        ensures does { DoesAfter made self.old self.new result (λ s.
            turn s.frames (to - (at + 1)) (changes_of program.now.table (op_ahead (drop (at + 1) program.now.code) (to - (at + 1)))) s) }
        ensures stays { Stays self.old self.new }
        ensures few { result < 2 ^ 32 }
    {
        let Some(frame) = self.frames.last() else {
            return 0;
        };
        match frame {
            Frame::FalseBranch { .. } => 0,
            Frame::Alone => passed(at, to),
            Frame::TrueBranch {
                weight,
                before,
                from,
            } => {
                let changes = changes_at_else(program.changed(), program.ops(), at, to);
                self.swap(changes, from);
                self.frames.lower();
                self.frames.push(Frame::FalseBranch {
                    weight,
                    before,
                    between: made,
                    from,
                });
                0
            }
        }
    }

    /// Saves the values of these variables, and gives them those that were saved from a place on.
    fn swap(&mut self, changes: &[u32], from: usize)
        requires { length self.old.saved.entries + length changes.now ≤ self.old.saved.room }
        ensures { self.new ≡ record self.old {
          slots = restored changes.now (drop from self.old.saved.entries) self.old.slots;
          saved = record { entries = self.old.saved.entries ++ values_of changes.now self.old.slots; room = self.old.saved.room };
        } }
    {
        let count = self.saved.count();
        self.saved.save(changes, self.slots.as_slice());
        self.slots.restore(changes, self.saved.among(count, from));
    }

    /// Ends a choice: where both branches ran, blends their values and scales their payments.
    pub(crate) fn close(&mut self, op: &Op, program: &Program, payments: &mut Payments) -> usize
        ensures does { (dates : List Day) (row : Row) → goes result (state self.new payments.new dates row)
            ≡ close (map begun self.old.frames.entries) (changes_of program.now.table op.now) (state self.old payments.old dates row) }
        ensures stays { Stays self.old self.new }
        ensures room { payments.new.room ≡ payments.old.room }
        ensures past { result ≡ 0 }
    {
        let Some(frame) = self.frames.last() else {
            return 0;
        };
        self.frames.lower();
        if let Frame::FalseBranch {
            weight,
            before,
            between,
            from,
        } = frame
        {
            let changes = changes_of(program.changed(), op);
            self.blend(weight, changes, from);
            payments.scale(weight, before, between);
        }
        0
    }

    /// Blends the values of these variables with those that were saved from a place on, of which the first ones are those before the true branch and
    /// the next ones those after it; and forgets these.
    fn blend(&mut self, weight: Weight, changes: &[u32], from: usize)
        ensures { self.new ≡ record self.old {
          slots = blended_with weight changes.now (drop (from + length changes.now) self.old.saved.entries) self.old.slots;
          saved = record { entries = take from self.old.saved.entries; room = self.old.saved.room };
        } }
    {
        let yes = after(self.saved.from(from), changes.len());
        self.slots.blend(weight, changes, yes);
        self.saved.cut(from);
    }
}
