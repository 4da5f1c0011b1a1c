//! Laws of the limits that are counted on tokens: the first token at which one is passed is found.

ghost use Rattle.pay_grammar.specs.LimitLaws.{FirstTooLargeIsFound, FirstTooDeepIsFound};

/// The token that is found too large is the first one that is, and none is found where none is too large.
pub fn first_too_large_is_found()
    ensures { FirstTooLargeIsFound }
{}

/// The token that is found too deep is the first one with which the tokens are, and none is found where they are with none.
pub fn first_too_deep_is_found()
    ensures { FirstTooDeepIsFound }
{}
