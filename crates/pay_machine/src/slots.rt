//! The variables of a run.

ghost use Rattle.std.specs.Prelude.{◌≡◌, length, set, IfOk};
ghost use Rattle.pay_code.specs.Execution.{blended_with, restored};
ghost use Rattle.pay_runs.specs.Slots.{slot_value};

use crate::values::{blend_values, restore_values, set_value, value_of};
use crate::weight::Weight;
use pay_fixed::{Fixed, NoMemory};
use std::alloc::Global;
use std::marker::Model;

/// The value of each variable, by its number.
#[derive(Drop)]
pub(crate) struct Slots {
    values: Vec<Fixed>,
}

impl Model for Slots {
    ghost use Rattle.std.specs.Prelude.{List, ℤ};

    ghost Value = { List ℤ };

    ghost view = { λ slots. slots.values.items };
}

impl Slots {
    /// Variables with these values.
    pub(crate) fn prepare(alloc: Global, start: &[Fixed]) -> Result<Slots, NoMemory>
        ensures { IfOk result (λ slots. slots ≡ start.now) }
    {
        let mut values = Vec::new(alloc);
        values.extend_from_slice(start)?;
        Ok(Slots { values })
    }

    /// Gives all variables these values.
    pub(crate) fn start(&mut self, start: &[Fixed])
        requires { length self.old ≡ length start.now }
        ensures { self.new ≡ start.now }
    {
        self.values.copy_from_slice(start);
    }

    /// The values, by the numbers of the variables.
    #[inline(always)]
    pub(crate) fn as_slice(&self) -> &[Fixed]
        ensures { result.now ≡ self.now }
    {
        self.values.as_slice()
    }

    /// The value of a variable; past the end it is 0.
    #[inline(always)]
    pub(crate) fn value_of(&self, slot: u32) -> Fixed
        ensures { result ≡ slot_value self.now slot }
    {
        value_of(self.values.as_slice(), slot)
    }

    /// Gives a variable this value.
    #[inline(always)]
    pub(crate) fn set(&mut self, slot: u32, value: Fixed)
        ensures { self.new ≡ set self.old slot value }
    {
        set_value(&mut self.values, slot, value);
    }

    /// Gives these variables these values.
    pub(crate) fn restore(&mut self, changes: &[u32], values: &[Fixed])
        ensures { self.new ≡ restored changes.now values.now self.old }
    {
        restore_values(&mut self.values, changes, values);
    }

    /// Gives these variables the blends of these values, those of the true branch, with their own.
    pub(crate) fn blend(&mut self, weight: Weight, changes: &[u32], values: &[Fixed])
        ensures { self.new ≡ blended_with weight changes.now values.now self.old }
    {
        blend_values(weight, &mut self.values, changes, values);
    }
}
