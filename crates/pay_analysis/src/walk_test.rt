//! The walk over tests.

ghost use Rattle.std.specs.Prelude.{◌≡◌, Some, IfOk, OnOk};
ghost use Rattle.pay_domains.specs.Operators.{no_flags};
ghost use Rattle.pay_facts.specs.Reached.{test_found, test_parts};
ghost use Rattle.pay_facts.specs.SlotFacts.{decide_by_slots, surely_decision};
ghost use Rattle.pay_tree.specs.OwnedViews.{test_tree};
ghost use Rattle.pay_analysis.specs.Marks.{mark_of, marked, marks_at, put_mark};
ghost use Rattle.pay_analysis.specs.Walking.{is_false, is_true, AreAllRaws};
ghost use Rattle.pay_ranges.specs.Views.{decision_of};

use crate::marks::{Mark, is_flagged, set_mark};
use crate::walk_number::walk_number;
use pay_domains::Domain;
use pay_fixed::NoMemory;
use pay_ranges::{Decision, both, compare, either, no_flags, surely, turned};
use pay_tree::{Test, TestKind};
use std::alloc::Global;

/// The decision of a test under facts; its parts are marked.
pub fn walk_test(
    alloc: Global,
    test: &Test,
    domains: &[Domain],
    known: bool,
    marks: &mut Vec<Mark>,
) -> Result<Decision, NoMemory>
    requires { AreAllRaws domains.now }
    ensures same { IfOk result (λ decision. decision_of decision ≡ decide_by_slots (test_tree test.now) domains.now known) }
    ensures marks { OnOk result (marks_at marks.new.items ≡ marked (marks_at marks.old.items) (test_parts (test_tree test.now) domains.now known)) }
{
    match &test.kind {
        TestKind::Truth(answer) => noted(marks, test, settled(*answer, known)),
        TestKind::Compare {
            op,
            left,
            right,
            ..
        } => {
            let left = walk_number(alloc, left, domains, known, marks)?;
            let right = walk_number(alloc, right, domains, left.known, marks)?;
            noted(marks, test, compare(*op, left, right)?)
        }
        TestKind::Not(side) => {
            let side = walk_test(alloc, side, domains, known, marks)?;
            noted(marks, test, turned(side))
        }
        TestKind::And(left, right) => {
            let left = walk_test(alloc, left, domains, known, marks)?;
            if is_false(left.answer) {
                return noted(marks, test, left);
            }
            let right = walk_test(alloc, right, domains, left.known, marks)?;
            noted(marks, test, both(left, right))
        }
        TestKind::Or(left, right) => {
            let left = walk_test(alloc, left, domains, known, marks)?;
            if is_true(left.answer) {
                return noted(marks, test, left);
            }
            let right = walk_test(alloc, right, domains, left.known, marks)?;
            noted(marks, test, either(left, right))
        }
    }
}

/// The decision of a truth literal.
fn settled(answer: bool, known: bool) -> Decision
    ensures { decision_of result ≡ record { answer = Some answer; flags = no_flags; known = known } }
{
    Decision {
        answer: Some(answer),
        flags: no_flags(),
        known,
    }
}

/// Whether an answer is decided, and false.
fn is_false(answer: Option<bool>) -> bool
    ensures { result ≡ is_false answer }
{
    match answer {
        Some(truth) => !truth,
        None => false,
    }
}

/// Whether an answer is decided, and true.
fn is_true(answer: Option<bool>) -> bool
    ensures { result ≡ is_true answer }
{
    match answer {
        Some(truth) => truth,
        None => false,
    }
}

/// The decision of a test whose kind has this one; the test has its mark.
fn noted(marks: &mut Vec<Mark>, test: &Test, decision: Decision) -> Result<Decision, NoMemory>
    ensures same { IfOk result (λ noted. decision_of noted ≡ surely_decision test.now.sure (decision_of decision)) }
    ensures marks { OnOk result (marks_at marks.new.items ≡ put_mark (marks_at marks.old.items) test.now.id
        (mark_of (test_found (surely_decision test.now.sure (decision_of decision))))) }
{
    let decision = surely(test.sure, decision);
    let mark = Mark::Test {
        truth: decision.answer,
        flagged: is_flagged(decision.flags),
    };
    set_mark(marks, test.id, mark)?;
    Ok(decision)
}
