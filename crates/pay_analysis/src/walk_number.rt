//! The walk over numbers.

ghost use Rattle.std.specs.Prelude.{◌≡◌, IfOk, OnOk};
ghost use Rattle.pay_domains.specs.Pieces.{AreRaws};
ghost use Rattle.pay_facts.specs.Reached.{number_found, number_parts};
ghost use Rattle.pay_facts.specs.SlotFacts.{range_by_slots};
ghost use Rattle.pay_tree.specs.OwnedViews.{number_tree};
ghost use Rattle.pay_analysis.specs.Marks.{mark_of, marked, marks_at, point_unless, put_mark};
ghost use Rattle.pay_analysis.specs.Walking.{AreAllRaws};
ghost use Rattle.pay_ranges.specs.Views.{range_of};

use crate::marks::{Mark, is_flagged, set_mark};
use crate::slots::slot_range;
use pay_domains::Domain;
use pay_fixed::{Fixed, NoMemory};
use pay_ranges::{Range, fixing_range, literal_range, range_of_both, range_of_one};
use pay_tree::{Node, NodeKind};
use std::alloc::Global;

/// The range of a number under facts; its parts are marked.
pub fn walk_number(
    alloc: Global,
    node: &Node,
    domains: &[Domain],
    known: bool,
    marks: &mut Vec<Mark>,
) -> Result<Range, NoMemory>
    requires { AreAllRaws domains.now }
    ensures same { IfOk result (λ range. range_of range ≡ range_by_slots (number_tree node.now) domains.now known) }
    ensures within { IfOk result (λ range. AreRaws range.domain) }
    ensures marks { OnOk result (marks_at marks.new.items ≡ marked (marks_at marks.old.items) (number_parts (number_tree node.now) domains.now known)) }
{
    match &node.kind {
        NodeKind::Number(literal) => noted(marks, node.id, literal_range(alloc, *literal, known)?),
        NodeKind::Slot(slot) => noted(marks, node.id, slot_range(alloc, domains, *slot, known)?),
        NodeKind::Spot => noted(marks, node.id, fixing_range(alloc, known)?),
        NodeKind::Unary(op, side) => {
            let side = walk_number(alloc, side, domains, known, marks)?;
            noted(marks, node.id, range_of_one(*op, side)?)
        }
        NodeKind::Binary(op, left, right) => {
            let left = walk_number(alloc, left, domains, known, marks)?;
            let right = walk_number(alloc, right, domains, left.known, marks)?;
            noted(marks, node.id, range_of_both(*op, left, right)?)
        }
    }
}

/// The same range; the number with this id has its mark.
fn noted(marks: &mut Vec<Mark>, id: u32, range: Range) -> Result<Range, NoMemory>
    requires { AreRaws range.domain }
    ensures same { IfOk result (λ same. same ≡ range) }
    ensures marks { OnOk result (marks_at marks.new.items ≡ put_mark (marks_at marks.old.items) id (mark_of (number_found (range_of range)))) }
{
    let point = point_unless(is_flagged(range.flags), &range.domain);
    set_mark(marks, id, Mark::Number { point })?;
    Ok(range)
}

/// The one raw of a domain, unless a fault is flagged.
fn point_unless(flagged: bool, domain: &Domain) -> Option<Fixed>
    requires { AreRaws domain.now }
    ensures { result ≡ point_unless flagged domain.now }
{
    if flagged {
        return None;
    }
    Fixed::from_raw(domain.single()?)
}
