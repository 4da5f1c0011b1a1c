//! Laws of the tokens: a text spells one list of tokens or has one first place where nothing begins, and reading it
//! from the front finds which.

ghost use Rattle.pay_lexer.specs.LexingLaws.{TokensAreSpelled, SpelledTokensAreRead, OneTokenList, BadPlaceIsFirst, FirstBadPlaceIsRead, OneBadPlace};
ghost use Rattle.pay_lexer.specs.LexingLaws.{TokensAreSlices, NoMoreTokensThanBytes, KindsAreOfTokens, ReadKindsAreSpelled, KeywordsAgree};

/// The tokens that are read from a text are the tokens that it spells: at each place a blank, a comment, or the longest
/// token there.
pub fn tokens_are_spelled()
    ensures { TokensAreSpelled }
{}

/// The tokens that a text spells are read from it, so a text that is refused spells none.
pub fn spelled_tokens_are_read()
    ensures { SpelledTokensAreRead }
{}

/// A text spells one list of tokens at most.
pub fn one_token_list()
    ensures { OneTokenList }
{}

/// Where reading finds no tokens it ends at the first place where neither a blank, a comment nor a token begins.
pub fn bad_place_is_first()
    ensures { BadPlaceIsFirst }
{}

/// Where a text has a place at which nothing begins, reading ends at the first one.
pub fn first_bad_place_is_read()
    ensures { FirstBadPlaceIsRead }
{}

/// A text has one such first place at most, and where it has one it spells no tokens.
pub fn one_bad_place()
    ensures { OneBadPlace }
{}

/// Each token is the meaning of its slice of the text, and the slices rise and don't overlap.
pub fn tokens_are_slices()
    ensures { TokensAreSlices }
{}

/// A text has at most as many tokens as bytes.
pub fn no_more_tokens_than_bytes()
    ensures { NoMoreTokensThanBytes }
{}

/// What the tokens of a text are is found by reading that knows no places.
pub fn kinds_are_of_tokens()
    ensures { KindsAreOfTokens }
{}

/// What is read without places is what tokens are that the text spells.
pub fn read_kinds_are_spelled()
    ensures { ReadKindsAreSpelled }
{}

/// The words that the language keeps for itself are exactly those with a key.
pub fn keywords_agree()
    ensures { KeywordsAgree }
{}
