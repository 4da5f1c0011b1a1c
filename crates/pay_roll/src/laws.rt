//! Laws of the refusals and of the events. Each function is empty: what it ensures is the law.

ghost use Rattle.pay_roll.specs.Laws.{AcceptedIsRolled, FirstBadIsNamed};

/// The events of a script that is not refused have dates of their own, which rise, and keep the limits.
pub fn accepted_is_rolled()
    ensures { AcceptedIsRolled }
{}

/// The schedule that is named is the first that is bad, and where there is no refusal none is.
pub fn first_bad_is_named()
    ensures { FirstBadIsNamed }
{}
