//! What a run works on.

use crate::frame::Frame;
use crate::saved::Saved;
use crate::slots::Slots;
use crate::stack::Stack;
use crate::weight::Weight;
use pay_fixed::Fixed;

/// What a run works on: the values of the variables, the stacks, the choices that have begun with the values that they saved, how many events are
/// over, and how many nodes were evaluated.
#[derive(Drop)]
pub(crate) struct Work {
    pub(crate) slots: Slots,
    pub(crate) numbers: Stack<Fixed>,
    pub(crate) weights: Stack<Weight>,
    pub(crate) frames: Stack<Frame>,
    pub(crate) saved: Saved,
    pub(crate) event: u32,
    pub(crate) nodes: u64,
}
