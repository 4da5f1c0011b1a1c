//! The values that open splits save.

ghost use Rattle.std.specs.Prelude.{◌≡◌, ◌+◌, ◌≤◌, [], ◌++◌, length, take, drop, IfOk};
ghost use Rattle.pay_code.specs.Execution.{values_of};

use crate::values::value_of;
use pay_fixed::{Fixed, NoMemory};
use std::alloc::Global;
use std::marker::Model;

/// Values that were saved, in order, at most so many as it has room for.
#[derive(Drop)]
pub(crate) struct Saved {
    values: Vec<Fixed>,
    room: usize,
}

impl Model for Saved {
    ghost use Rattle.std.specs.Prelude.{◌≤◌, ℤ};
    ghost use Rattle.std.specs.Vec.{vec_capacity};
    ghost use Rattle.pay_machine.specs.Stacks.{Entries};

    ghost Value = { Entries ℤ };

    ghost view = { λ saved. record { entries = saved.values.items; room = saved.room } };

    ghost invariant = { λ saved. saved.room ≤ vec_capacity saved.values };
}

impl Saved {
    /// No values, with room for so many.
    pub(crate) fn prepare(alloc: Global, room: usize) -> Result<Saved, NoMemory>
        ensures { IfOk result (λ saved. saved ≡ record { entries = []; room = room }) }
    {
        let values = Vec::with_capacity(alloc, room)?;
        Ok(Saved { values, room })
    }

    /// Takes all values, and keeps the room.
    pub(crate) fn clear(&mut self)
        ensures { self.new ≡ record { entries = []; room = self.old.room } }
    {
        self.values.clear();
    }

    /// How many values there are.
    pub(crate) fn count(&self) -> usize
        ensures { result ≡ length self.now.entries }
    {
        self.values.len()
    }

    /// The values from a place on.
    pub(crate) fn from(&self, first: usize) -> &[Fixed]
        ensures { result.now ≡ drop first self.now.entries }
    {
        after(self.values.as_slice(), first)
    }

    /// The values from a place on, among so many of them.
    pub(crate) fn among(&self, count: usize, first: usize) -> &[Fixed]
        ensures { result.now ≡ drop first (take count self.now.entries) }
    {
        let few = &self.values.as_slice()[..count.min(self.values.len())];
        after(few, first)
    }

    /// Saves the values of these variables.
    pub(crate) fn save(&mut self, changes: &[u32], slots: &[Fixed])
        requires { length self.old.entries + length changes.now ≤ self.old.room }
        ensures { self.new ≡ record { entries = self.old.entries ++ values_of changes.now slots.now; room = self.old.room } }
    {
        for slot in changes {
            self.values.push_reserved(value_of(slots, *slot));
        }
    }

    /// Keeps so many of the values, the first ones.
    pub(crate) fn cut(&mut self, count: usize)
        ensures { self.new ≡ record { entries = take count self.old.entries; room = self.old.room } }
    {
        self.values.truncate(count);
    }
}

/// What follows so many values.
pub(crate) fn after(values: &[Fixed], count: usize) -> &[Fixed]
    ensures { result.now ≡ drop count values.now }
{
    &values[count.min(values.len())..]
}
