//! Operators over pairs of pieces.

ghost use Rattle.std.specs.Prelude.{◌≡◌, ◌≢◌, ◌≤◌, ◌++◌, ◌&&◌, length, pos, true, map, OnOk, IfOk};
ghost use Rattle.std.specs.List.{All, flat_map, list_any};
ghost use Rattle.pay_domains.specs.Pairs.{meant, Suits, HasNoZero};
ghost use Rattle.pay_domains.specs.Operators.{exact, span, least_of_four, greatest_of_four, clipped, is_beyond, unless_empty, holds_zero};
ghost use Rattle.pay_domains.specs.Operators.{is_quotient, has_pieces, parts_beside_zero, right_pieces, spans};
ghost use Rattle.pay_domains.specs.Pieces.{from_to, AreProper};

use crate::exact::{SCALE, product, rounded};
use crate::operator::Operator;
use crate::piece::Piece;
use pay_fixed::{LIMIT, NoMemory};
use std::alloc::Global;

/// The greatest raw of a number.
const HIGHEST: i128 = LIMIT as i128;

/// The result of an operator at two raws, with no limit; a product or a quotient is rounded once.
fn exact(operator: Operator, left: i64, right: i64) -> i128
    requires divides { is_quotient (meant operator) ≡ true → right ≢ pos 0 }
    ensures { result ≡ exact (meant operator) left right }
{
    match operator {
        Operator::Add => i128::from(left) + i128::from(right),
        Operator::Subtract => i128::from(left) - i128::from(right),
        Operator::Multiply => rounded(product(left, right), SCALE),
        Operator::Divide => rounded(product(left, SCALE), right),
        Operator::Least => i128::from(left.min(right)),
        Operator::Greatest => i128::from(left.max(right)),
    }
}

/// The least of four numbers.
fn least(a: i128, b: i128, c: i128, d: i128) -> i128
    ensures { result ≡ least_of_four a b c d }
{
    a.min(b).min(c.min(d))
}

/// The greatest of four numbers.
fn greatest(a: i128, b: i128, c: i128, d: i128) -> i128
    ensures { result ≡ greatest_of_four a b c d }
{
    a.max(b).max(c.max(d))
}

/// Whether a part of the raws from `low` to `high` lies beyond the limit of a number.
fn is_beyond(low: i128, high: i128) -> bool
    ensures { result ≡ is_beyond (from_to low high) }
{
    low < -HIGHEST || HIGHEST < high
}

/// Adds the part of the raws from `low` to `high` that lies within the limit of a number, if there is one.
fn add_clipped(low: i128, high: i128, into: &mut Vec<Piece>) -> Result<(), NoMemory>
    ensures { OnOk result (into.new.items ≡ into.old.items ++ clipped (from_to low high)) }
{
    let low = low.max(-HIGHEST);
    let high = high.min(HIGHEST);
    if low <= high {
        into.push(Piece {
            low: low as i64,
            high: high as i64,
        })?;
    }
    Ok(())
}

/// Adds what an operator makes of two pieces, within the limit of a number; the answer is whether a part of it lies beyond.
fn add_pair(
    operator: Operator,
    left: Piece,
    right: Piece,
    into: &mut Vec<Piece>,
) -> Result<bool, NoMemory>
    requires { Suits operator right }
    ensures pieces { OnOk result (into.new.items ≡ into.old.items ++ clipped (span (meant operator) left right)) }
    ensures beyond { IfOk result (λ beyond. beyond ≡ is_beyond (span (meant operator) left right)) }
{
    let a = exact(operator, left.low, right.low);
    let b = exact(operator, left.low, right.high);
    let c = exact(operator, left.high, right.low);
    let d = exact(operator, left.high, right.high);
    let low = least(a, b, c, d);
    let high = greatest(a, b, c, d);
    add_clipped(low, high, into)?;
    Ok(is_beyond(low, high))
}

/// Adds what an operator makes of a piece and each of others, within the limit of a number; the answer is whether a part of it lies beyond.
fn add_row(
    operator: Operator,
    left: Piece,
    right: &[Piece],
    into: &mut Vec<Piece>,
) -> Result<bool, NoMemory>
    requires { All (Suits operator) right.now }
    ensures pieces { OnOk result (into.new.items ≡ into.old.items ++ flat_map clipped (map (span (meant operator) left) right.now)) }
    ensures beyond { IfOk result (λ beyond. beyond ≡ list_any is_beyond (map (span (meant operator) left) right.now)) }
{
    let mut beyond = false;
    for piece in right {
        let over = add_pair(operator, left, *piece, into)?;
        beyond = beyond || over;
    }
    Ok(beyond)
}

/// Adds what an operator makes of each pair of pieces, within the limit of a number; the answer is whether a part of it lies beyond.
fn add_rows(
    operator: Operator,
    left: &[Piece],
    right: &[Piece],
    into: &mut Vec<Piece>,
) -> Result<bool, NoMemory>
    requires { All (Suits operator) right.now }
    ensures pieces { OnOk result (into.new.items ≡ into.old.items ++ flat_map clipped (spans (meant operator) left.now right.now)) }
    ensures beyond { IfOk result (λ beyond. beyond ≡ list_any is_beyond (spans (meant operator) left.now right.now)) }
{
    let mut beyond = false;
    for piece in left {
        let over = add_row(operator, *piece, right, into)?;
        beyond = beyond || over;
    }
    Ok(beyond)
}

/// Adds the raws from `low` to `high`, if there are any.
fn add_unless_empty(low: i64, high: i64, into: &mut Vec<Piece>) -> Result<(), NoMemory>
    ensures { OnOk result (into.new.items ≡ into.old.items ++ unless_empty (from_to low high)) }
{
    if low <= high {
        into.push(Piece { low, high })?;
    }
    Ok(())
}

/// Adds the parts of a piece below 0 and above 0.
fn add_parts(piece: Piece, into: &mut Vec<Piece>) -> Result<(), NoMemory>
    ensures { OnOk result (into.new.items ≡ into.old.items ++ parts_beside_zero piece) }
{
    if !piece.holds(0) {
        into.push(piece)?;
        return Ok(());
    }
    add_unless_empty(piece.low, -1, into)?;
    add_unless_empty(1, piece.high, into)?;
    Ok(())
}

/// The parts of pieces below 0 and above 0.
fn divisors(alloc: Global, pieces: &[Piece]) -> Result<Vec<Piece>, NoMemory>
    requires { length pieces.now ≤ 16 }
    ensures { IfOk result (λ parts. parts.items ≡ flat_map parts_beside_zero pieces.now) }
{
    let mut parts = Vec::with_capacity(alloc, pieces.len() * 2)?;
    for piece in pieces {
        add_parts(*piece, &mut parts)?;
    }
    Ok(parts)
}

/// Adds what an operator makes of two lists of pieces, within the limit of a number; the answer is whether a part of it lies beyond. What is added
/// to has the allocator for a quotient's parts of divisors.
pub fn add_results(
    operator: Operator,
    left: &[Piece],
    right: &[Piece],
    into: &mut Vec<Piece>,
) -> Result<bool, NoMemory>
    requires few { length right.now ≤ 16 }
    requires proper { AreProper right.now }
    ensures pieces { OnOk result (into.new.items
        ≡ into.old.items ++ flat_map clipped (spans (meant operator) left.now (right_pieces (meant operator) right.now))) }
    ensures beyond { IfOk result (λ beyond. beyond ≡ list_any is_beyond (spans (meant operator) left.now (right_pieces (meant operator) right.now))) }
{
    if operator.is_quotient() {
        let parts = divisors(*into.allocator(), right)?;
        let beyond = add_rows(operator, left, &parts, into)?;
        Ok(beyond)
    } else {
        let beyond = add_rows(operator, left, right, into)?;
        Ok(beyond)
    }
}

/// Whether 0 lies in one of the pieces.
fn holds_zero(pieces: &[Piece]) -> bool
    ensures { result ≡ list_any holds_zero pieces.now }
{
    pieces.iter().any(|piece| piece.holds(0))
}

/// Whether a divisor can be 0: the operator is a quotient, there is a dividend, and 0 lies in a piece of the divisors.
pub fn can_divide_by_zero(operator: Operator, left: &[Piece], right: &[Piece]) -> bool
    ensures { result ≡ (is_quotient (meant operator) && has_pieces left.now && list_any holds_zero right.now) }
{
    operator.is_quotient() && !left.is_empty() && holds_zero(right)
}
