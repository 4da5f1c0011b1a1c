//! What numbers can give.

ghost use Rattle.std.specs.Prelude.{◌≡◌, IfOk};
ghost use Rattle.pay_domains.specs.Operators.{reach, no_flags, with_flags};
ghost use Rattle.pay_domains.specs.Pieces.{AreRaws, IsDomain};
ghost use Rattle.pay_facts.specs.Ranges.{exactly, fixing_range, range_of_one, range_of_both, result_of};
ghost use Rattle.pay_facts.specs.SlotFacts.{signed_domain};
ghost use Rattle.pay_tree.specs.Views.{operator};
ghost use Rattle.pay_ranges.specs.Views.{range_of};

use pay_domains::{Domain, Flags, Ranged};
use pay_fixed::{Fixed, NoMemory};
use pay_tree::{Binary, Unary};
use std::alloc::Global;

/// What a number can give.
#[derive(Drop)]
pub struct Range {
    /// Its raws.
    pub domain: Domain,
    /// Its faults.
    pub flags: Flags,
    /// Whether the fixing is known to be there once it was evaluated.
    pub known: bool,
}

/// The greatest raw of a fixing: ten to the power of 11, in raws of 1/10,000.
const FIXING_LIMIT: i64 = 1_000_000_000_000_000;

/// No fault.
pub fn no_flags() -> Flags
    ensures { result ≡ no_flags }
{
    Flags {
        overflow: false,
        zero: false,
        missing: false,
    }
}

/// The faults of two parts together.
pub fn with_flags(left: Flags, right: Flags) -> Flags
    ensures { result ≡ with_flags left right }
{
    Flags {
        overflow: left.overflow || right.overflow,
        zero: left.zero || right.zero,
        missing: left.missing || right.missing,
    }
}

/// The range of a literal: its raw alone. It can't fault, and the fixing is known as before.
///
/// # Errors
///
/// [`NoMemory`] where there was no memory for the domain.
pub fn literal_range(alloc: Global, literal: Fixed, known: bool) -> Result<Range, NoMemory>
    ensures same { IfOk result (λ range. range_of range ≡ exactly literal known) }
    ensures within { IfOk result (λ range. AreRaws range.domain) }
{
    Ok(Range {
        domain: Domain::point(alloc, literal.raw())?,
        flags: no_flags(),
        known,
    })
}

/// The range of the fixing: all raws within the limit of a fixing, of 10^15. Where it isn't `known` to be there, it can be missing; it is there
/// after it was read.
///
/// # Errors
///
/// [`NoMemory`] where there was no memory for the domain.
pub fn fixing_range(alloc: Global, known: bool) -> Result<Range, NoMemory>
    ensures same { IfOk result (λ range. range_of range ≡ fixing_range known) }
    ensures within { IfOk result (λ range. AreRaws range.domain) }
{
    Ok(Range {
        domain: Domain::interval(alloc, -FIXING_LIMIT, FIXING_LIMIT)?,
        flags: Flags {
            overflow: false,
            zero: false,
            missing: !known,
        },
        known: true,
    })
}

/// The range of a number whose sign is changed or left out. The raws of `side` lie within the limit of a number.
///
/// # Errors
///
/// [`NoMemory`] where there was no memory for the domain.
pub fn range_of_one(op: Unary, side: Range) -> Result<Range, NoMemory>
    requires { AreRaws side.domain }
    ensures same { IfOk result (λ range. range_of range ≡ range_of_one (signed_domain op) (range_of side)) }
    ensures within { IfOk result (λ range. AreRaws range.domain) }
{
    Ok(Range {
        domain: signed_domain(op, &side.domain)?,
        flags: side.flags,
        known: side.known,
    })
}

/// The raws with another sign, or without one.
fn signed_domain(op: Unary, side: &Domain) -> Result<Domain, NoMemory>
    requires { AreRaws side.now }
    ensures same { IfOk result (λ domain. domain ≡ signed_domain op side.now) }
    ensures within { IfOk result AreRaws }
{
    match op {
        Unary::Neg => side.neg(),
        Unary::Abs => side.abs(),
    }
}

/// The range of two numbers under an operator, whose raws lie within the limit of a number: the raws that it can give, and the faults of either side
/// and its own.
///
/// # Errors
///
/// [`NoMemory`] where there was no memory for the domain.
pub fn range_of_both(op: Binary, left: Range, right: Range) -> Result<Range, NoMemory>
    requires left { AreRaws left.domain }
    requires right { AreRaws right.domain }
    ensures same { IfOk result (λ range. range_of range ≡ range_of_both (operator op) (range_of left) (range_of right)) }
    ensures within { IfOk result (λ range. AreRaws range.domain) }
{
    let reached = result_of(op, &left.domain, &right.domain)?;
    Ok(Range {
        domain: reached.domain,
        flags: with_flags(with_flags(left.flags, right.flags), reached.flags),
        known: right.known,
    })
}

/// What an operator gives for two domains.
fn result_of(op: Binary, left: &Domain, right: &Domain) -> Result<Ranged, NoMemory>
    requires left { AreRaws left.now }
    requires right { AreRaws right.now }
    ensures same { IfOk result (λ ranged. ranged ≡ result_of (operator op) left.now right.now) }
    ensures within { IfOk result (λ ranged. AreRaws ranged.domain) }
{
    are_in_order(left);
    are_in_order(right);
    let ranged = combined(op, left, right)?;
    Ok(ranged)
}

/// The pieces of a domain are in order: its type keeps it so, and here it is said.
fn are_in_order(domain: &Domain)
    ensures { IsDomain domain.now }
{
    let _pieces = domain.pieces();
}

/// What an operator makes of two domains.
fn combined(op: Binary, left: &Domain, right: &Domain) -> Result<Ranged, NoMemory>
    requires left { AreRaws left.now }
    requires right { AreRaws right.now }
    ensures same { IfOk result (λ ranged. ranged ≡ reach (operator op) left.now right.now) }
    ensures within { IfOk result (λ ranged. AreRaws ranged.domain) }
{
    match op {
        Binary::Add => left.add(right),
        Binary::Sub => left.sub(right),
        Binary::Mul => left.mul(right),
        Binary::Div => left.div(right),
        Binary::Min => left.min(right),
        Binary::Max => left.max(right),
    }
}
