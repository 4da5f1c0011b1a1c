//! Decisions of tests.

ghost use Rattle.std.specs.Prelude.{◌≡◌, Some, false, true};
ghost use Rattle.pay_facts.specs.Decisions.{only_false, only_true, turned_decision, and_decision, or_decision};
ghost use Rattle.pay_facts.specs.SlotFacts.{surely_decision};
ghost use Rattle.pay_ranges.specs.Views.{decision_of};

use crate::range::with_flags;
use pay_domains::Flags;

/// What a test can give.
#[derive(Clone, Copy, PartialEq, Eq, Debug)]
pub struct Decision {
    /// Its truth, where it is decided.
    pub answer: Option<bool>,
    /// Its faults.
    pub flags: Flags,
    /// Whether the fixing is known to be there once it was evaluated.
    pub known: bool,
}

/// The decision of a test that is sure of its answer, if it is.
pub fn surely(sure: Option<bool>, decision: Decision) -> Decision
    ensures { decision_of result ≡ surely_decision sure (decision_of decision) }
{
    match sure {
        Some(_) => Decision {
            answer: sure,
            ..decision
        },
        None => decision,
    }
}

/// The decision of `not` a test.
pub fn turned(side: Decision) -> Decision
    ensures { decision_of result ≡ turned_decision (decision_of side) }
{
    Decision {
        answer: side.answer.map(|truth| !truth),
        flags: side.flags,
        known: side.known,
    }
}

/// The decision of both of two tests.
pub fn both(left: Decision, right: Decision) -> Decision
    ensures { decision_of result ≡ and_decision (decision_of left) (decision_of right) }
{
    let flags = with_flags(left.flags, right.flags);
    match left.answer {
        Some(false) => left,
        Some(true) => Decision {
            answer: right.answer,
            flags,
            known: right.known,
        },
        None => Decision {
            answer: only_false(right.answer),
            flags,
            known: left.known,
        },
    }
}

/// The decision of either of two tests.
pub fn either(left: Decision, right: Decision) -> Decision
    ensures { decision_of result ≡ or_decision (decision_of left) (decision_of right) }
{
    let flags = with_flags(left.flags, right.flags);
    match left.answer {
        Some(true) => left,
        Some(false) => Decision {
            answer: right.answer,
            flags,
            known: right.known,
        },
        None => Decision {
            answer: only_true(right.answer),
            flags,
            known: left.known,
        },
    }
}

/// The answer false alone.
fn only_false(answer: Option<bool>) -> Option<bool>
    ensures { result ≡ only_false answer }
{
    match answer {
        Some(false) => Some(false),
        Some(true) => None,
        None => None,
    }
}

/// The answer true alone.
fn only_true(answer: Option<bool>) -> Option<bool>
    ensures { result ≡ only_true answer }
{
    match answer {
        Some(true) => Some(true),
        Some(false) => None,
        None => None,
    }
}
