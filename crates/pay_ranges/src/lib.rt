//! What numbers and tests can give, where it is known what their sides can give.
//!
//! - [`Range`]: the raws that a number can have, its faults, and whether the fixing is known to be there once it was evaluated. [`literal_range`],
//!   [`fixing_range`], [`range_of_one`] and [`range_of_both`] give the range of each kind of number but a variable.
//! - [`Decision`]: the truth of a test where it is decided, its faults, and the same of the fixing. [`compare`], [`turned`], [`both`], [`either`] and
//!   [`surely`] give the decision of each kind of test.
//!
//! What they are is said by the definitions of `pay_facts`; `specs/Views.antt` leads from the types of the code to these.
#![tactic(auto)]

mod comparison;
mod decision;
mod range;

pub use comparison::compare;
pub use decision::{Decision, both, either, surely, turned};
pub use range::{
    Range, fixing_range, literal_range, no_flags, range_of_both, range_of_one, with_flags,
};
