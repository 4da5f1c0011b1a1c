//! The values of variables, each at its number: read, set, restored and blended.

ghost use Rattle.std.specs.Prelude.{◌≡◌, get_or, pos, set};
ghost use Rattle.pay_code.specs.Execution.{blended_with, restored};
ghost use Rattle.pay_runs.specs.Slots.{slot_value};

use crate::weight::Weight;
use pay_fixed::Fixed;

/// The value of a variable; past the end it is 0.
pub(crate) fn value_of(slots: &[Fixed], slot: u32) -> Fixed
    ensures { result ≡ slot_value slots.now slot }
{
    value_at(slots, slot as usize)
}

/// Gives a variable a value; past the end there is none.
pub(crate) fn set_value(slots: &mut [Fixed], slot: u32, value: Fixed)
    ensures { slots.new ≡ set slots.old slot value }
{
    let at = slot as usize;
    if at < slots.len() {
        slots[at] = value;
    }
}

/// Gives these variables these values, in order; a value that is missing is 0.
#[tactic(auto, using(crate::proofs::ValueLemmas::restored_step))]
pub(crate) fn restore_values(slots: &mut [Fixed], changes: &[u32], values: &[Fixed])
    ensures { slots.new ≡ restored changes.now values.now slots.old }
{
    for (i, slot) in changes.iter().enumerate() {
        set_value(slots, *slot, value_at(values, i));
    }
}

/// Gives these variables the blends of these values, in order, with their own; a value that is missing is 0.
#[tactic(auto, using(crate::proofs::ValueLemmas::blended_step))]
pub(crate) fn blend_values(weight: Weight, slots: &mut [Fixed], changes: &[u32], values: &[Fixed])
    ensures { slots.new ≡ blended_with weight changes.now values.now slots.old }
{
    for (i, slot) in changes.iter().enumerate() {
        let blend = weight.blend(value_at(values, i), value_of(slots, *slot));
        set_value(slots, *slot, blend);
    }
}

/// The value at a place; past the end it is 0.
fn value_at(values: &[Fixed], at: usize) -> Fixed
    ensures { result ≡ get_or values.now at (pos 0) }
{
    match values.get(at) {
        Some(value) => *value,
        None => zero(),
    }
}

/// The number 0.
#[inline(always)]
pub(crate) fn zero() -> Fixed
    ensures { result ≡ pos 0 }
{
    Fixed::from_raw(0).unwrap()
}
