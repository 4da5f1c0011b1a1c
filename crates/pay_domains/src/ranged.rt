//! What an operator makes of two domains.

use crate::domain::Domain;
use crate::flags::Flags;

/// The raws that an operator can give, and the faults that it can have.
#[derive(Drop)]
pub struct Ranged {
    /// The raws, within the limit of a number.
    pub domain: Domain,
    /// The faults.
    pub flags: Flags,
}
