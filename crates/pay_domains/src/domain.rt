//! Domains: sets of raws, at most sixteen pieces each.

ghost use Rattle.std.specs.Prelude.{◌≡◌, ◌≤ℤ◌, [], ◌∷◌, IfOk};
ghost use Rattle.pay_meaning.specs.Language as language;
ghost use Rattle.pay_domains.specs.Queries.{is_held, is_none, is_discrete, point_of, last_below, first_above};
ghost use Rattle.pay_domains.specs.Operators.{reach, negated, magnitudes, united, met};
ghost use Rattle.pay_domains.specs.Pairs.{meant};
ghost use Rattle.pay_domains.specs.Pieces.{from_to, point, normal, AreBounded, AreProper, AreRaws, IsDomain};

use crate::flags::Flags;
use crate::normal::normal;
use crate::operator::Operator;
use crate::piece::Piece;
use crate::ranged::Ranged;
use crate::{pairs, queries, sets};
use pay_fixed::NoMemory;
use std::alloc::Global;
use std::marker::Model;

/// The greatest number of pieces of a [`Domain`].
pub const MOST_PIECES: usize = 16;

/// A set of raws: at most [`MOST_PIECES`] pieces, in order, with at least one raw between neighbours. Its raws lie at most twice as far from 0 as
/// the limit of a number.
#[derive(Drop)]
pub struct Domain {
    pieces: Vec<Piece>,
}

impl Model for Domain {
    ghost use Rattle.std.specs.Prelude.{List};
    ghost use Rattle.pay_domains.specs.declared.piece.Piece.{Piece};
    ghost use Rattle.pay_domains.specs.Pieces.{AreBounded, IsDomain};

    ghost Value = { List Piece };

    ghost view = { λ domain. domain.pieces.items };

    ghost invariant = { λ domain. IsDomain domain.pieces.items × AreBounded domain.pieces.items };
}

impl Domain {
    /// The domain of one raw, which lies within twice the limit of a number. [`NoMemory`] where there was no memory for it.
    pub fn point(alloc: Global, raw: i64) -> Result<Domain, NoMemory>
        requires { AreBounded (point raw) }
        ensures { IfOk result (λ domain. domain ≡ point raw) }
    {
        Domain::interval(alloc, raw, raw)
    }

    /// The domain of the raws from `low` to `high`, which is not less; both lie within twice the limit of a number. [`NoMemory`] where there was no
    /// memory for it.
    pub fn interval(alloc: Global, low: i64, high: i64) -> Result<Domain, NoMemory>
        requires order { low ≤ℤ high }
        requires bounded { AreBounded (from_to low high ∷ []) }
        ensures { IfOk result (λ domain. domain ≡ from_to low high ∷ []) }
    {
        let mut pieces = Vec::with_capacity(alloc, 1)?;
        pieces.push(Piece { low, high })?;
        Ok(Domain { pieces })
    }

    /// The same domain once more, in memory of its own. [`NoMemory`] where there was none.
    pub fn copy(&self) -> Result<Domain, NoMemory>
        ensures { IfOk result (λ domain. domain ≡ self.now) }
    {
        let mut pieces = Vec::with_capacity(self.allocator(), self.pieces.len())?;
        pieces.extend_from_slice(&self.pieces)?;
        Ok(Domain { pieces })
    }

    /// The pieces, in order.
    pub fn pieces(&self) -> &[Piece]
        ensures same { result.now ≡ self.now }
        ensures domain { IsDomain self.now }
        ensures bounded { AreBounded self.now }
    {
        self.pieces.as_slice()
    }

    /// Whether a raw is in it.
    pub fn holds(&self, raw: i64) -> bool
        ensures { result ≡ is_held raw self.now }
    {
        queries::holds(&self.pieces, raw)
    }

    /// Whether no raw is in it.
    pub fn is_empty(&self) -> bool
        ensures { result ≡ is_none self.now }
    {
        queries::is_empty(&self.pieces)
    }

    /// The raw in it, if there is one alone.
    pub fn single(&self) -> Option<i64>
        ensures { result ≡ point_of self.now }
    {
        queries::single(&self.pieces)
    }

    /// Whether there are raws in it, and no two of them are neighbours.
    pub fn is_discrete(&self) -> bool
        ensures { result ≡ is_discrete self.now }
    {
        queries::is_discrete(&self.pieces)
    }

    /// The greatest raw in it under a limit, if there is one; the limit itself is not under it.
    pub fn below(&self, limit: i64) -> Option<i64>
        ensures { result ≡ last_below limit self.now }
    {
        queries::below(&self.pieces, limit)
    }

    /// The least raw in it over a limit, if there is one; the limit itself is not over it.
    pub fn above(&self, limit: i64) -> Option<i64>
        ensures { result ≡ first_above limit self.now }
    {
        queries::above(&self.pieces, limit)
    }

    /// The raws of either of the two, and others where they need more than sixteen pieces. [`NoMemory`] where there was no memory for the domain.
    pub fn union(&self, other: &Domain) -> Result<Domain, NoMemory>
        ensures same { IfOk result (λ domain. domain ≡ united self.now other.now) }
        ensures within { AreRaws self.now → AreRaws other.now → IfOk result AreRaws }
    {
        let pieces = sets::both(self.allocator(), self.pieces(), other.pieces())?;
        let domain = Domain::of(pieces)?;
        Ok(domain)
    }

    /// The raws of both, and others where they need more than sixteen pieces. [`NoMemory`] where there was no memory for the domain.
    pub fn meet(&self, other: &Domain) -> Result<Domain, NoMemory>
        ensures same { IfOk result (λ domain. domain ≡ met self.now other.now) }
        ensures within { AreRaws self.now → IfOk result AreRaws }
    {
        let pieces = sets::commons(self.allocator(), self.pieces(), other.pieces())?;
        let domain = Domain::of(pieces)?;
        Ok(domain)
    }

    /// The raws with the other sign; the domain lies within the limit of a number. [`NoMemory`] where there was no memory for the domain.
    pub fn neg(&self) -> Result<Domain, NoMemory>
        requires { AreRaws self.now }
        ensures same { IfOk result (λ domain. domain ≡ negated self.now) }
        ensures within { IfOk result AreRaws }
    {
        let pieces = sets::all_turned(self.allocator(), self.pieces())?;
        let domain = Domain::of(pieces)?;
        Ok(domain)
    }

    /// The raws without their sign; the domain lies within the limit of a number. [`NoMemory`] where there was no memory for the domain.
    pub fn abs(&self) -> Result<Domain, NoMemory>
        requires { AreRaws self.now }
        ensures same { IfOk result (λ domain. domain ≡ magnitudes self.now) }
        ensures within { IfOk result AreRaws }
    {
        let pieces = sets::magnitudes(self.allocator(), self.pieces())?;
        let domain = Domain::of(pieces)?;
        Ok(domain)
    }

    /// The sums of a raw of this one and one of the other, within the limit of a number; an overflow is flagged where one can lie beyond it.
    /// [`NoMemory`] where there was no memory for the domain.
    pub fn add(&self, other: &Domain) -> Result<Ranged, NoMemory>
        requires left { AreRaws self.now }
        requires right { AreRaws other.now }
        ensures same { IfOk result (λ ranged. ranged ≡ reach language.add self.now other.now) }
        ensures within { IfOk result (λ ranged. AreRaws ranged.domain) }
    {
        self.combined(Operator::Add, other)
    }

    /// What is left of a raw of this one without one of the other, within the limit of a number; an overflow is flagged where it can lie beyond that.
    /// [`NoMemory`] where there was no memory for the domain.
    pub fn sub(&self, other: &Domain) -> Result<Ranged, NoMemory>
        requires left { AreRaws self.now }
        requires right { AreRaws other.now }
        ensures same { IfOk result (λ ranged. ranged ≡ reach language.subtract self.now other.now) }
        ensures within { IfOk result (λ ranged. AreRaws ranged.domain) }
    {
        self.combined(Operator::Subtract, other)
    }

    /// The products, each rounded once to a raw, of a raw of this one and one of the other, within the limit of a number; an overflow is flagged
    /// where one can lie beyond it. [`NoMemory`] where there was no memory for the domain.
    pub fn mul(&self, other: &Domain) -> Result<Ranged, NoMemory>
        requires left { AreRaws self.now }
        requires right { AreRaws other.now }
        ensures same { IfOk result (λ ranged. ranged ≡ reach language.multiply self.now other.now) }
        ensures within { IfOk result (λ ranged. AreRaws ranged.domain) }
    {
        self.combined(Operator::Multiply, other)
    }

    /// The quotients, each rounded once to a raw, of a raw of this one and one of the other that is not 0, within the limit of a number; an overflow
    /// is flagged where one can lie beyond it, and a zero divisor where 0 is in the other and a raw in this one. [`NoMemory`] where there was no
    /// memory for the domain.
    pub fn div(&self, other: &Domain) -> Result<Ranged, NoMemory>
        requires left { AreRaws self.now }
        requires right { AreRaws other.now }
        ensures same { IfOk result (λ ranged. ranged ≡ reach language.divide self.now other.now) }
        ensures within { IfOk result (λ ranged. AreRaws ranged.domain) }
    {
        self.combined(Operator::Divide, other)
    }

    /// The lesser of a raw of this one and one of the other. [`NoMemory`] where there was no memory for the domain.
    pub fn min(&self, other: &Domain) -> Result<Ranged, NoMemory>
        requires left { AreRaws self.now }
        requires right { AreRaws other.now }
        ensures same { IfOk result (λ ranged. ranged ≡ reach language.least self.now other.now) }
        ensures within { IfOk result (λ ranged. AreRaws ranged.domain) }
    {
        self.combined(Operator::Least, other)
    }

    /// The greater of a raw of this one and one of the other. [`NoMemory`] where there was no memory for the domain.
    pub fn max(&self, other: &Domain) -> Result<Ranged, NoMemory>
        requires left { AreRaws self.now }
        requires right { AreRaws other.now }
        ensures same { IfOk result (λ ranged. ranged ≡ reach language.greatest self.now other.now) }
        ensures within { IfOk result (λ ranged. AreRaws ranged.domain) }
    {
        self.combined(Operator::Greatest, other)
    }

    /// What an operator makes of a raw of this one and one of the other. [`NoMemory`] where there was no memory for the domain.
    fn combined(&self, operator: Operator, other: &Domain) -> Result<Ranged, NoMemory>
        ensures same { IfOk result (λ ranged. ranged ≡ reach (meant operator) self.now other.now) }
        ensures within { IfOk result (λ ranged. AreRaws ranged.domain) }
    {
        let left = self.pieces();
        let right = other.pieces();
        let mut pieces = Vec::with_capacity(self.allocator(), 2 * left.len() * right.len())?;
        let overflow = pairs::add_results(operator, left, right, &mut pieces)?;
        let zero = pairs::can_divide_by_zero(operator, left, right);
        let domain = Domain::of(pieces)?;
        let flags = Flags {
            overflow,
            zero,
            missing: false,
        };
        Ok(Ranged { domain, flags })
    }

    /// The domain of the raws of pieces, and of others where they need more than sixteen. [`NoMemory`] where there was no memory for it.
    fn of(mut pieces: Vec<Piece>) -> Result<Domain, NoMemory>
        requires proper { AreProper pieces.items }
        requires bounded { AreBounded (normal pieces.items) }
        ensures { IfOk result (λ domain. domain ≡ normal pieces.items) }
    {
        let alloc = *pieces.allocator();
        let pieces = normal(alloc, &mut pieces)?;
        Ok(Domain { pieces })
    }

    /// The allocator of the pieces.
    fn allocator(&self) -> Global {
        *self.pieces.allocator()
    }
}
