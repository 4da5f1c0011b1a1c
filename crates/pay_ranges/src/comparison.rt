//! Comparisons of numbers by their ranges.

ghost use Rattle.std.specs.Prelude.{◌≡◌, IfOk};
ghost use Rattle.pay_domains.specs.Pieces.{IsDomain};
ghost use Rattle.pay_domains.specs.Queries.{point_of};
ghost use Rattle.pay_facts.specs.Decisions.{are_apart, compared_ends, comparison_answer, comparison_decision, decided, is_same_point};
ghost use Rattle.pay_tree.specs.Views.{comparison};
ghost use Rattle.pay_ranges.specs.Views.{decision_of, ends_of, range_of};

use crate::decision::Decision;
use crate::range::{Range, with_flags};
use pay_domains::{Domain, Piece};
use pay_fixed::NoMemory;
use pay_tree::Compare;

/// The decision of a comparison of two numbers: decided where all raws of one side, each beside each of the other, agree on it.
///
/// # Errors
///
/// [`NoMemory`] where there was no memory to find the raws that both sides have.
pub fn compare(op: Compare, left: Range, right: Range) -> Result<Decision, NoMemory>
    ensures { IfOk result (λ decision. decision_of decision ≡ comparison_decision (comparison op) (range_of left) (range_of right)) }
{
    Ok(Decision {
        answer: answer(op, &left.domain, &right.domain)?,
        flags: with_flags(left.flags, right.flags),
        known: right.known,
    })
}

/// The truth of a comparison, where all raws agree on it.
fn answer(op: Compare, left: &Domain, right: &Domain) -> Result<Option<bool>, NoMemory>
    ensures { IfOk result (λ truth. truth ≡ comparison_answer (comparison op) left.now right.now) }
{
    match (ends(left.pieces()), ends(right.pieces())) {
        (Some(first), Some(second)) => compared(op, left, right, first, second),
        _ => Ok(None),
    }
}

/// The truth of a comparison of raws, those of each side from its least to its greatest.
fn compared(
    op: Compare,
    left: &Domain,
    right: &Domain,
    first: Piece,
    second: Piece,
) -> Result<Option<bool>, NoMemory>
    ensures { IfOk result (λ truth. truth ≡ compared_ends (comparison op) first.low first.high second.low second.high
        (is_same_point (point_of left.now) (point_of right.now)) (are_apart left.now right.now)) }
{
    Ok(match op {
        Compare::Less => decided(first.high < second.low, second.high <= first.low),
        Compare::LessEq => decided(first.high <= second.low, second.high < first.low),
        Compare::More => decided(second.high < first.low, first.high <= second.low),
        Compare::MoreEq => decided(second.high <= first.low, first.high < second.low),
        Compare::Same => decided(is_same_point(left, right), are_apart(left, right)?),
        Compare::Differs => decided(are_apart(left, right)?, is_same_point(left, right)),
    })
}

/// The truth, where one of two tests shows it.
fn decided(is_true: bool, is_false: bool) -> Option<bool>
    ensures { result ≡ decided is_true is_false }
{
    if is_true {
        Some(true)
    } else if is_false {
        Some(false)
    } else {
        None
    }
}

/// Whether both have one raw, the same.
fn is_same_point(left: &Domain, right: &Domain) -> bool
    ensures { result ≡ is_same_point (point_of left.now) (point_of right.now) }
{
    match (left.single(), right.single()) {
        (Some(first), Some(second)) => first == second,
        _ => false,
    }
}

/// Whether they have no raw in common.
fn are_apart(left: &Domain, right: &Domain) -> Result<bool, NoMemory>
    ensures { IfOk result (λ apart. apart ≡ are_apart left.now right.now) }
{
    Ok(left.meet(right)?.is_empty())
}

/// The piece from the least to the greatest raw of pieces that rise, if there are any.
fn ends(pieces: &[Piece]) -> Option<Piece>
    requires { IsDomain pieces.now }
    ensures { result ≡ ends_of pieces.now }
{
    let first = pieces.first()?;
    let last = pieces.last()?;
    Some(Piece {
        low: first.low,
        high: last.high,
    })
}
