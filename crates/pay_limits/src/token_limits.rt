//! The limits that are counted on tokens, each token once: sizes of numbers and names, open brackets, open ifs, and operators in a stretch.

ghost use Rattle.std.specs.Prelude.{◌≡◌, ◌+◌, ◌≤◌, ◌^◌, ◌∷◌, [], length, ◌+ℤ◌, option_map, if◌then◌else◌};
ghost use Rattle.pay_grammar.specs.TokenLimits.{is_too_large, first_too_large, open_brackets, open_ifs};
ghost use Rattle.pay_grammar.specs.TokenLimits.{count, is_operator, is_word, begins_between, first_too_deep};
ghost use Rattle.pay_grammar.specs.TokenDepths.{begins_after, deeper, is_deep};
ghost use Rattle.pay_limits.specs.DepthViews.{depths, IsCountable, IsNear, IsWithinReach};

use pay_fixed::{NumberFault, read_decimal};
use pay_lexer::{Key, Sign, Token, TokenKind};

/// The most bytes of a number token.
const MOST_DIGITS: usize = 40;

/// The most bytes of a name.
const MOST_LETTERS: usize = 64;

/// The most open brackets.
const MOST_BRACKETS: i64 = 100;

/// The most open ifs.
const MOST_IFS: i64 = 96;

/// The most operators in a stretch of tokens.
const MOST_OPERATORS: u32 = 96;

/// Whether a token is a number of too many bytes or beyond the limit of a number, or a name of too many bytes.
fn is_too_large(token: &TokenKind) -> bool
    ensures { result ≡ is_too_large token.now }
{
    match token {
        TokenKind::Number(digits) => {
            let bytes = digits.bytes();
            bytes.len() > MOST_DIGITS || read_decimal(bytes) == Err(NumberFault::TooLarge)
        }
        TokenKind::Word(letters) => letters.bytes().len() > MOST_LETTERS,
        _ => false,
    }
}

/// The place of the first token that is too large.
pub fn first_too_large(tokens: &[Token]) -> Option<u32>
    ensures { result ≡ option_map (λ token. token.start) (first_too_large tokens.now) }
{
    for token in tokens {
        if is_too_large(&token.kind) {
            return Some(token.start);
        }
    }
    None
}

/// The brackets that are open after one more token.
fn brackets_with(brackets: i64, token: &TokenKind) -> i64
    requires { IsWithinReach brackets }
    ensures value { result ≡ brackets +ℤ open_brackets (token.now ∷ []) }
    ensures near { IsNear brackets result }
{
    match token {
        TokenKind::Sign(Sign::ParenLeft) => brackets + 1,
        TokenKind::Sign(Sign::ParenRight) => brackets - 1,
        _ => brackets,
    }
}

/// The ifs that are open after one more token.
fn ifs_with(ifs: i64, token: &TokenKind) -> i64
    requires { IsWithinReach ifs }
    ensures value { result ≡ ifs +ℤ open_ifs (token.now ∷ []) }
    ensures near { IsNear ifs result }
{
    match token {
        TokenKind::Key(Key::If) => ifs + 1,
        TokenKind::Key(Key::Endif) => ifs - 1,
        _ => ifs,
    }
}

/// How many operators a token is: a sign of a calculation, a comma, a comparison, and `and`, `or`, `not` and `abs` are 1, any other is 0.
fn operators_of(token: &TokenKind) -> u32
    ensures value { result ≡ count is_operator (token.now ∷ []) }
    ensures small { result ≤ 1 }
{
    match token {
        TokenKind::Sign(
            Sign::Plus
            | Sign::Minus
            | Sign::Star
            | Sign::Slash
            | Sign::Comma
            | Sign::Equals
            | Sign::Differs
            | Sign::Less
            | Sign::LessEq
            | Sign::More
            | Sign::MoreEq,
        ) => 1,
        TokenKind::Key(Key::And | Key::Or | Key::Not | Key::Abs) => 1,
        _ => 0,
    }
}

/// Whether a token is a word, and no keyword.
fn is_word(token: &TokenKind) -> bool
    ensures { result ≡ is_word token.now }
{
    match token {
        TokenKind::Word(_) => true,
        _ => false,
    }
}

/// Whether a stretch begins between two neighbours.
fn begins_between(token: &TokenKind, following: &TokenKind) -> bool
    ensures { result ≡ begins_between token.now following.now }
{
    match token {
        TokenKind::Date(_) | TokenKind::Sign(Sign::Semicolon) => true,
        TokenKind::Key(Key::If | Key::Then | Key::Else | Key::Endif | Key::Do | Key::End) => true,
        TokenKind::Number(_) | TokenKind::Word(_) | TokenKind::Sign(Sign::ParenRight) => {
            is_word(following)
        }
        _ => false,
    }
}

/// Whether a stretch begins at a token, by the one before it; the first token of all begins one.
fn begins_after(last: Option<&TokenKind>, token: &TokenKind) -> bool
    ensures { result ≡ begins_after (option_map (λ before. before.now) last.entry) token.now }
{
    match last {
        None => true,
        Some(before) => begins_between(before, token),
    }
}

/// The operators of the stretch that tokens end in, with one more token after `last`.
fn operators_with(operators: u32, last: Option<&TokenKind>, token: &TokenKind) -> u32
    requires { operators ≤ 2 ^ 20 }
    ensures value { result ≡ (if begins_after (option_map (λ before. before.now) last.entry) token.now then 0 else operators)
        + count is_operator (token.now ∷ []) }
    ensures small { result ≤ operators + 1 }
{
    if begins_after(last, token) {
        operators_of(token)
    } else {
        operators + operators_of(token)
    }
}

/// What is counted of tokens.
#[derive(Clone, Copy)]
struct Depths {
    /// The brackets that are open; below 0 where more were closed than opened.
    brackets: i64,
    /// The ifs that are open, likewise.
    ifs: i64,
    /// The operators of the stretch that the tokens end in.
    operators: u32,
}

impl Depths {
    /// What is counted with one more token, by the token before it.
    fn with_token(self, last: Option<&TokenKind>, token: &TokenKind) -> Depths
        requires { IsCountable (2 ^ 20) self }
        ensures counted { depths result (Some token.now) ≡ deeper (depths self (option_map (λ before. before.now) last.entry)) token.now }
        ensures brackets { IsNear self.brackets result.brackets }
        ensures ifs { IsNear self.ifs result.ifs }
        ensures operators { result.operators ≤ self.operators + 1 }
    {
        Depths {
            brackets: brackets_with(self.brackets, token),
            ifs: ifs_with(self.ifs, token),
            operators: operators_with(self.operators, last, token),
        }
    }

    /// Whether one of the counts is passed.
    fn are_passed(self) -> bool
        ensures { result ≡ is_deep (depths self None) }
    {
        self.brackets > MOST_BRACKETS || self.ifs > MOST_IFS || self.operators > MOST_OPERATORS
    }
}

/// The place of the first token with which one of the limits of depth is passed.
pub fn first_too_deep(tokens: &[Token]) -> Option<u32>
    requires { length tokens.now ≤ 2 ^ 20 }
    ensures { result ≡ option_map (λ token. token.start) (first_too_deep tokens.now) }
{
    let mut depths = Depths {
        brackets: 0,
        ifs: 0,
        operators: 0,
    };
    let mut last = None;
    for token in tokens {
        depths = depths.with_token(last, &token.kind);
        if depths.are_passed() {
            return Some(token.start);
        }
        last = Some(&token.kind);
    }
    None
}
