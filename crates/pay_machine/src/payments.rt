//! The payments of a run.

ghost use Rattle.std.specs.Prelude.{◌≡◌, ◌+◌, ◌<◌, [], ◌∷◌, ◌++◌, length, map, IfOk};
ghost use Rattle.pay_code.specs.Execution.{scaled_from};
ghost use Rattle.pay_machine.specs.Paid.{paid};
ghost use Rattle.pay_runs.specs.Slots.{scaled_slot_payment};

use crate::outcome::Payment;
use crate::weight::Weight;
use pay_fixed::NoMemory;
use std::alloc::Global;
use std::marker::Model;

/// The payments of a run: those of the events before are kept whatever comes, those of the event that runs are not yet. It has room for so many.
#[derive(Drop)]
pub(crate) struct Payments {
    items: Vec<Payment>,
    kept: usize,
    room: usize,
}

impl Model for Payments {
    ghost use Rattle.std.specs.Prelude.{◌≤◌, length, take, drop};
    ghost use Rattle.std.specs.Vec.{vec_capacity};
    ghost use Rattle.pay_machine.specs.Paid.{RunPayments};

    ghost Value = { RunPayments };

    ghost view = { λ payments. record {
      kept = take payments.kept payments.items.items;
      fresh = drop payments.kept payments.items.items;
      room = payments.room;
    } };

    ghost invariant = { λ payments. (payments.kept ≤ length payments.items.items) × (payments.room ≤ vec_capacity payments.items) };
}

impl Payments {
    /// No payments, with room for so many.
    pub(crate) fn prepare(alloc: Global, room: usize) -> Result<Payments, NoMemory>
        ensures { IfOk result (λ payments. payments ≡ record { kept = []; fresh = []; room = room }) }
    {
        let items = Vec::with_capacity(alloc, room)?;
        Ok(Payments {
            items,
            kept: 0,
            room,
        })
    }

    /// Takes all payments, and keeps the room.
    pub(crate) fn clear(&mut self)
        ensures { self.new ≡ record { kept = []; fresh = []; room = self.old.room } }
    {
        self.items.clear();
        self.kept = 0;
    }

    /// How many payments the event that runs has made.
    #[inline(always)]
    pub(crate) fn count(&self) -> usize
        ensures { result ≡ length self.now.fresh }
    {
        self.items.len() - self.kept
    }

    /// Adds a payment of the event that runs.
    #[inline(always)]
    pub(crate) fn push(&mut self, payment: Payment)
        requires { length self.old.kept + length self.old.fresh < self.old.room }
        ensures { self.new ≡ record { kept = self.old.kept; fresh = self.old.fresh ++ payment ∷ []; room = self.old.room } }
    {
        self.items.push_reserved(payment);
    }

    /// Scales payments of the event that runs: those from the first place up to the second by the weight, those from the second on by what it leaves
    /// of the whole.
    pub(crate) fn scale(&mut self, weight: Weight, first: usize, second: usize)
        ensures fresh { map paid self.new.fresh ≡ scaled_from weight first second (map paid self.old.fresh) }
        ensures kept { self.new.kept ≡ self.old.kept }
        ensures room { self.new.room ≡ self.old.room }
    {
        let kept = self.kept;
        scale_payments(weight, &mut self.items[kept..], first, second);
    }

    /// The event is over: its payments are kept.
    pub(crate) fn keep(&mut self)
        ensures { self.new ≡ record { kept = self.old.kept ++ self.old.fresh; fresh = []; room = self.old.room } }
    {
        self.kept = self.items.len();
    }

    /// The event faulted: its payments are dropped.
    pub(crate) fn forget(&mut self)
        ensures { self.new ≡ record { kept = self.old.kept; fresh = []; room = self.old.room } }
    {
        self.items.truncate(self.kept);
    }

    /// All of them, in order.
    pub(crate) fn as_slice(&self) -> &[Payment]
        ensures { result.now ≡ self.now.kept ++ self.now.fresh }
    {
        self.items.as_slice()
    }
}

/// Scales the payments from the first place up to the second by a weight, and those from the second on by what is left of the whole.
#[tactic(auto, using(crate::proofs::PaymentLemmas::scaled_halves))]
fn scale_payments(weight: Weight, payments: &mut [Payment], first: usize, second: usize)
    ensures { map paid payments.new ≡ scaled_from weight first second (map paid payments.old) }
{
    let (earlier, later) = payments.split_at_mut(second.min(payments.len()));
    let (_, between) = earlier.split_at_mut(first.min(earlier.len()));
    scale_all(weight, between);
    scale_all(weight.rest(), later);
}

/// Scales payments by a weight.
fn scale_all(weight: Weight, payments: &mut [Payment])
    ensures { map paid payments.new ≡ map (scaled_slot_payment weight) (map paid payments.old) }
{
    for payment in payments.iter_mut() {
        payment.amount = weight.scale(payment.amount);
    }
}
