//! Domains: the numbers that a part of a script can have, as sets of raws.
//!
//! A raw is a whole count of 1/10,000. A [`Domain`] is at most [`MOST_PIECES`] closed pieces of raws that rise, with at least one raw between
//! neighbours, so the pieces of a set are always the same ones. Where a set would need more, all its pieces from the sixteenth on become one, and the
//! domain holds more raws than the set.
//!
//! An operator of two domains answers a [`Ranged`]: the raws that it can give, within the limit of a number, and [`Flags`] for the faults that it
//! can have. For example, where `unit` is `Domain::interval(alloc, 0, 10_000)?`, the numbers from 0 to 1, `unit.add(&unit)?` has the raws from 0
//! to 20,000 and no flag, and `unit.div(&unit)?` those from 0 to 100,000,000, since the least divisor over 0 is 1/10,000, and the flag of a zero
//! divisor. Calls that make a domain take memory, and fail with `NoMemory` where there is none; those that ask something of one take none.
//!
//! Proved: each call is its definition in `specs/`; a domain is the one list of pieces for the raws that it holds; whatever an operator gives for raws
//! of two domains is in the domain of its results, or its fault is flagged; and each question is answered as the raws of the domain show.
#![tactic(auto)]

mod domain;
mod exact;
mod flags;
pub mod laws;
mod normal;
mod operator;
mod pairs;
mod piece;
mod queries;
mod ranged;
mod sets;

pub use domain::{Domain, MOST_PIECES};
pub use flags::Flags;
pub use piece::Piece;
pub use ranged::Ranged;
