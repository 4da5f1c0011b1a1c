//! Why an event faults.

/// Why an event faults, and with it its scenario.
#[derive(Clone, Copy, PartialEq, Eq, Debug)]
pub enum FaultKind {
    /// A result lies beyond the limit of a number.
    Overflow,
    /// A divisor is zero.
    ZeroDivisor,
    /// `spot()` is asked for at a date that has no fixing.
    MissingFixing,
}
