//! Laws of the passes. Each function is empty: what it ensures is the law.

ghost use Rattle.pay_passes.specs.PassLaws.{AffectedAreAssigned, FillingKeepsSteps, FoldingKeepsMeaning, OthersKeepTheirValue, TermsKeepMeaning};

/// Events mean the same where `period()` and `days()` are their own as literals.
pub fn terms_keep_meaning()
    ensures { TermsKeepMeaning }
{}

/// Steps whose constants are folded mean the same, faults included, whatever forms they have.
pub fn folding_keeps_meaning()
    ensures { FoldingKeepsMeaning }
{}

/// The affected variables are exactly those that some step assigns, rising.
pub fn affected_are_assigned()
    ensures { AffectedAreAssigned }
{}

/// A variable that steps don't assign keeps its value.
pub fn others_keep_their_value()
    ensures { OthersKeepTheirValue }
{}

/// Steps stand for the same where the lists of their choices are filled in.
pub fn filling_keeps_steps()
    ensures { FillingKeepsSteps }
{}
