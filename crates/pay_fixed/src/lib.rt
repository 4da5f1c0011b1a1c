//! Numbers of the language: exact decimals with four places.
//!
//! A [`Fixed`] is a whole count (its *raw*) of 1/10,000 within -10^18 to 10^18. Sums are exact, products and quotients
//! are rounded, and each answers [`Arith::Overflow`] exactly where it lies beyond the limit; a quotient answers
//! [`Arith::ZeroDivisor`] before that where its divisor is zero. Text is read by [`read_decimal`] and written by
//! [`Fixed::write_decimal`]. Whatever has to be rounded is rounded once, to the nearest raw, a half away from zero.
//! A comparison that is smoothed has a [`weight`] from 0, false, to [`WHOLE`], true, by which [`blend`] blends two
//! numbers and [`scale`] scales one; these cannot fail, and take no memory.
//!
//! Proved: each call is its definition in `specs/`; the module [`laws`] proves of these definitions that they are
//! the ones meant, and of numbers that they compare as their raws do.
#![tactic(auto)]

mod fixed;
pub mod laws;
mod read;
mod round;
mod smooth;
mod weights;
mod write;

pub use fixed::{Fixed, LIMIT};
pub use read::read_decimal;
pub use smooth::Smooth;
use std::alloc::{AllocError, AllocFailed};
pub use weights::{WHOLE, blend, scale, weight};

/// There was no memory left; nothing was changed.
#[derive(Clone, Copy, PartialEq, Eq, Debug)]
pub struct NoMemory;

impl From<AllocError> for NoMemory {
    fn from(_: AllocError) -> NoMemory {
        NoMemory
    }
}

impl<T: Drop> From<AllocFailed<T>> for NoMemory {
    fn from(_: AllocFailed<T>) -> NoMemory {
        NoMemory
    }
}

/// Why an arithmetic call has no answer.
#[derive(Clone, Copy, PartialEq, Eq, Debug)]
pub enum Arith {
    /// The answer lies beyond the limit of a [`Fixed`].
    Overflow,
    /// The divisor is zero.
    ZeroDivisor,
}

/// Why a text is no number.
#[derive(Clone, Copy, PartialEq, Eq, Debug)]
pub enum NumberFault {
    /// The text does not spell a decimal.
    NotNumber,
    /// The decimal, rounded to four places, lies beyond the limit of a [`Fixed`].
    TooLarge,
}
