//! The faults that a part of a script can have.

/// The faults that a part of a script can have: each flag is set where it can't be ruled out.
#[derive(Clone, Copy, PartialEq, Eq, Debug)]
pub struct Flags {
    /// A result can lie beyond the limit of a number.
    pub overflow: bool,
    /// A divisor can be zero.
    pub zero: bool,
    /// `spot()` can be asked for where there is no fixing.
    pub missing: bool,
}
