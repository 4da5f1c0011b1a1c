//! The lexer: the bytes of a script are cut into tokens from the front, the longest token at each place.

ghost use Rattle.std.specs.Prelude.{◌≡◌, ◌+◌, ◌≤◌, ◌<◌, ◌^◌, ◌||◌, ◌∷◌, ℕ, suc, Option, Some, None, Ok, Err};
ghost use Rattle.std.specs.Prelude.{IfOk, IfErr, IfSome, IsErr, IsErrOf, IsSome, IsTrue, drop, length, map};
ghost use Rattle.std.specs.Option.{option_map};
ghost use Rattle.pay_meaning.specs.Words.{is_digit, is_letter};
ghost use Rattle.pay_lexer.specs.Forms.{IsNumber, IsWord, lower};
ghost use Rattle.pay_lexer.specs.Tokens.{word_token};
ghost use Rattle.pay_lexer.specs.declared.fault.LexFault.{LexFault};
ghost use Rattle.pay_lexer.specs.declared.token.TokenKind.TheVariants as token;
ghost use Rattle.pay_lexer.specs.Spelling.{is_blank, begins_comment, mark_length, SpellsTokens, IsCause, IsCauseFrom};
ghost use Rattle.pay_lexer.specs.Lexing.{front_while, is_word_byte, decimals_at, number_rest, word_rest, comment_rest};
ghost use Rattle.pay_lexer.specs.Lexing.{date_front, number_front, word_front, day_at, sign_alone, sign_with_equals, begins_equals, sign_at};
ghost use Rattle.pay_lexer.specs.Lexing.{token_at, tokens_after, tokens_in};
ghost use Rattle.pay_lexer.specs.LexingLaws.{AreSlices};
ghost use Rattle.pay_lexer.specs.Lexer.{front, tokens_from_token, rest_tokens, Takes, HasCausesOf, tokens_at, IsCauseAt};

use crate::fault::LexFault;
use crate::keyword::key_of;
use crate::token::{Digits, Letters, Sign, Token, TokenKind};
use pay_dates::{Day, read_day};
use std::alloc::{AllocError, Global};

/// A token, and how many bytes of the text it has after its first one.
#[derive(Drop)]
struct Lexeme {
    kind: TokenKind,
    more: usize,
}

/// Whether the byte is a space, a tab or an end of line.
fn is_blank(byte: u8) -> bool
    ensures { result ≡ is_blank byte }
{
    byte == b' ' || byte == b'\t' || byte == b'\r' || byte == b'\n'
}

/// Whether the byte is an ASCII digit.
fn is_digit(byte: u8) -> bool
    ensures { result ≡ is_digit byte }
{
    b'0' <= byte && byte <= b'9'
}

/// Whether the byte is a lower-case ASCII letter or `_`.
fn is_letter(byte: u8) -> bool
    ensures { result ≡ is_letter byte }
{
    (b'a' <= byte && byte <= b'z') || byte == b'_'
}

/// The lower-case letter of an ASCII letter, and any other byte as it is.
fn lower(byte: u8) -> u8
    ensures { result ≡ lower byte }
{
    byte.to_ascii_lowercase()
}

/// Whether the byte may stand in a word after its first byte.
fn is_word_byte(byte: u8) -> bool
    ensures { result ≡ is_word_byte byte }
{
    is_letter(lower(byte)) || is_digit(lower(byte))
}

/// Whether a comment begins with the byte `first`, before `rest`.
fn begins_comment(first: u8, rest: &[u8]) -> bool
    ensures { result ≡ begins_comment (first ∷ rest.now) }
{
    first == b'/' && rest.starts_with(b"/")
}

/// How many bytes of the byte order mark the text begins with: 3, or 0 where it doesn't begin with it.
fn mark_length(text: &[u8]) -> usize
    ensures value { result ≡ mark_length text.now }
    ensures within { result ≤ length text.now }
{
    if text.starts_with(b"\xef\xbb\xbf") {
        3
    } else {
        0
    }
}

/// How many digits the text begins with.
fn digits_length(text: &[u8]) -> usize
    ensures within { result ≤ length text.now }
    ensures value { result ≡ length (front_while is_digit text.now) }
{
    let mut rest = text;
    let mut count = 0;
    while let [byte, tail @ ..] = rest {
        if !is_digit(*byte) {
            break;
        }
        rest = tail;
        count += 1;
    }
    count
}

/// How many bytes of a word the text begins with.
fn word_length(text: &[u8]) -> usize
    ensures within { result ≤ length text.now }
    ensures value { result ≡ length (word_rest text.now) }
{
    let mut rest = text;
    let mut count = 0;
    while let [byte, tail @ ..] = rest {
        if !is_word_byte(*byte) {
            break;
        }
        rest = tail;
        count += 1;
    }
    count
}

/// How many bytes the rest of a comment has, at the front of the text after its first `/`.
#[tactic(auto, using(crate::proofs::FrontLemmas::front_while_position))]
fn comment_length(text: &[u8]) -> usize
    ensures within { result ≤ length text.now }
    ensures value { result ≡ length (comment_rest text.now) }
{
    text.iter()
        .position(|byte| *byte == b'\n')
        .unwrap_or(text.len())
}

/// How many bytes a point and the digits after it have at the front of the text, 0 where they don't stand there.
#[tactic(auto, using(crate::proofs::LexerLemmas::point_lengths))]
fn decimals_length(text: &[u8]) -> usize
    ensures within { result ≤ length text.now }
    ensures value { result ≡ length (decimals_at text.now) }
{
    match text {
        [b'.', rest @ ..] => {
            let digits = digits_length(rest);
            if digits == 0 { 0 } else { digits + 1 }
        }
        _ => 0,
    }
}

/// How many bytes of a number the text begins with, where its first digit stands before the text.
fn number_length(text: &[u8]) -> usize
    ensures within { result ≤ length text.now }
    ensures value { result ≡ length (number_rest text.now) }
{
    let digits = digits_length(text);
    digits + decimals_length(&text[digits..])
}

/// The token of these digits, which are a number.
fn number_token(alloc: Global, first: u8, more: &[u8]) -> Result<TokenKind, AllocError>
    requires number { IsNumber (first ∷ more.now) }
    ensures { IfOk result (λ kind. kind ≡ token.Number (first ∷ more.now)) }
{
    let mut digits = Vec::new(alloc);
    digits.push(first)?;
    digits.extend_from_slice(more)?;
    Ok(TokenKind::Number(Digits::new(digits)))
}

/// The letters in lower case.
fn lowered(alloc: Global, first: u8, more: &[u8]) -> Result<Vec<u8>, AllocError>
    ensures { IfOk result (λ letters. letters.items ≡ map lower (first ∷ more.now)) }
{
    let mut letters = Vec::new(alloc);
    letters.push(lower(first))?;
    for byte in more {
        letters.push(lower(*byte))?;
    }
    Ok(letters)
}

/// The token of these letters, which are a word.
#[tactic(auto, using(crate::proofs::LexerLemmas::plain_word))]
fn word_token(alloc: Global, first: u8, more: &[u8]) -> Result<TokenKind, AllocError>
    requires word { IsWord (first ∷ more.now) }
    ensures { IfOk result (λ kind. kind ≡ word_token (map lower (first ∷ more.now))) }
{
    let letters = lowered(alloc, first, more)?;
    match key_of(letters.as_slice()) {
        Some(key) => Ok(TokenKind::Key(key)),
        None => Ok(TokenKind::Word(Letters::new(letters))),
    }
}

/// The day that the first ten bytes of the text write, if they write one.
#[tactic(auto, using(crate::proofs::LexerLemmas::day_in_short))]
fn day_at(text: &[u8]) -> Option<Day>
    ensures value { result ≡ day_at text.now }
    ensures within { IfSome result (λ _. 10 ≤ length text.now) }
{
    read_day(text.first_chunk::<10>()?)
}

/// The number that begins with the digit `first`, before `rest`.
#[tactic(auto, using(crate::proofs::LexerLemmas::number_rest_taken, crate::proofs::FrontLemmas::number_rest_number))]
fn number_lexeme(alloc: Global, first: u8, rest: &[u8]) -> Result<Lexeme, AllocError>
    requires digit { IsTrue (is_digit first) }
    ensures value { IfOk result (λ lexeme. front lexeme ≡ number_front first (number_rest rest.now)) }
    ensures within { IfOk result (λ lexeme. lexeme.more ≤ length rest.now) }
{
    let more = number_length(rest);
    let kind = number_token(alloc, first, &rest[..more])?;
    Ok(Lexeme { kind, more })
}

/// The word that begins with the letter `first`, before `rest`.
#[tactic(auto, using(crate::proofs::LexerLemmas::word_rest_taken, crate::proofs::LexerLemmas::word_rest_word))]
fn word_lexeme(alloc: Global, first: u8, rest: &[u8]) -> Result<Lexeme, AllocError>
    requires letter { IsTrue (is_letter (lower first)) }
    ensures value { IfOk result (λ lexeme. front lexeme ≡ word_front first (word_rest rest.now)) }
    ensures within { IfOk result (λ lexeme. lexeme.more ≤ length rest.now) }
{
    let more = word_length(rest);
    let kind = word_token(alloc, first, &rest[..more])?;
    Ok(Lexeme { kind, more })
}

/// The date after an `@`, at the front of `rest`.
fn date_lexeme(rest: &[u8]) -> Option<Lexeme>
    ensures value { option_map front result ≡ option_map date_front (day_at rest.now) }
    ensures within { IfSome result (λ lexeme. lexeme.more ≤ length rest.now) }
{
    let day = day_at(rest)?;
    Some(Lexeme {
        kind: TokenKind::Date(day),
        more: 10,
    })
}

/// The sign that the byte is where no `=` follows it, if it is one.
fn sign_alone(byte: u8) -> Option<Sign>
    ensures { result ≡ sign_alone byte }
{
    match byte {
        b'+' => Some(Sign::Plus),
        b'-' => Some(Sign::Minus),
        b'*' => Some(Sign::Star),
        b'/' => Some(Sign::Slash),
        b'(' => Some(Sign::ParenLeft),
        b')' => Some(Sign::ParenRight),
        b',' => Some(Sign::Comma),
        b';' => Some(Sign::Semicolon),
        b'=' => Some(Sign::Equals),
        b'<' => Some(Sign::Less),
        b'>' => Some(Sign::More),
        _ => None,
    }
}

/// The sign that the byte is with the `=` after it, if they are one.
fn sign_with_equals(byte: u8) -> Option<Sign>
    ensures { result ≡ sign_with_equals byte }
{
    match byte {
        b'!' => Some(Sign::Differs),
        b'<' => Some(Sign::LessEq),
        b'>' => Some(Sign::MoreEq),
        _ => None,
    }
}

/// The longest sign that begins with `first`, before `rest`.
fn sign_lexeme(first: u8, rest: &[u8]) -> Option<Lexeme>
    ensures value { option_map front result ≡ sign_at first rest.now }
    ensures within { IfSome result (λ lexeme. lexeme.more ≤ length rest.now) }
{
    match (sign_with_equals(first), rest) {
        (Some(sign), [b'=', ..]) => Some(Lexeme {
            kind: TokenKind::Sign(sign),
            more: 1,
        }),
        _ => {
            let sign = sign_alone(first)?;
            Some(Lexeme {
                kind: TokenKind::Sign(sign),
                more: 0,
            })
        }
    }
}

/// The longest token that begins with `first`, before `rest`, or `None` where none does.
fn token_at(alloc: Global, first: u8, rest: &[u8]) -> Result<Option<Lexeme>, AllocError>
    ensures found { IfOk result (λ lexeme. option_map front lexeme ≡ token_at first rest.now) }
    ensures within { IfOk result (λ lexeme. IfSome lexeme (λ found. found.more ≤ length rest.now)) }
    ensures memory { IsErr result → IsSome (token_at first rest.now) }
{
    if is_digit(first) {
        return Ok(Some(number_lexeme(alloc, first, rest)?));
    }
    if is_letter(lower(first)) {
        return Ok(Some(word_lexeme(alloc, first, rest)?));
    }
    if first == b'@' {
        return Ok(date_lexeme(rest));
    }
    Ok(sign_lexeme(first, rest))
}

/// Takes the token that begins with `first` before `rest`, at this place, and answers how many bytes it has after its
/// first one.
fn take_token(
    alloc: Global,
    tokens: &mut Vec<Token>,
    place: u32,
    first: u8,
    rest: &[u8],
) -> Result<usize, LexFault>
    requires in_range { place + length rest.now < 2 ^ 31 }
    ensures taken { IfOk result (λ more. Takes tokens.old.items (tokens_from_token place first rest.now) tokens.new.items (rest_tokens more place rest.now)) }
    ensures within { IfOk result (λ more. more ≤ length rest.now) }
    ensures found { IfOk result (λ more. option_map (λ found. found.more) (token_at first rest.now) ≡ Some more) }
    ensures bad { (at : ℕ) → IsErrOf result (LexFault.BadByte at) → (at ≡ place) × (token_at first rest.now ≡ None) }
    ensures memory { IsErrOf result LexFault.NoMemory → IsSome (token_at first rest.now) }
{
    let Some(lexeme) = token_at(alloc, first, rest)? else {
        return Err(LexFault::BadByte { at: place });
    };
    let more = lexeme.more;
    tokens.push(Token {
        kind: lexeme.kind,
        start: place,
        end: place + 1 + more as u32,
    })?;
    Ok(more)
}

/// Takes what stands at this place, where the text goes on with `first` and `rest`: drops a blank or a comment, or takes
/// a token. Answers how many bytes it has after its first one.
fn take_one(
    alloc: Global,
    tokens: &mut Vec<Token>,
    place: u32,
    first: u8,
    rest: &[u8],
) -> Result<usize, LexFault>
    requires in_range { place + length rest.now < 2 ^ 31 }
    ensures taken { IfOk result (λ more. Takes tokens.old.items (tokens_after 0 place (first ∷ rest.now)) tokens.new.items (rest_tokens more place rest.now)) }
    ensures within { IfOk result (λ more. more ≤ length rest.now) }
    ensures later { IfOk result (λ more. HasCausesOf place (first ∷ rest.now) (suc place + more) (drop more rest.now)) }
    ensures refused { IfErr result (IsCauseFrom place (first ∷ rest.now)) }
{
    if is_blank(first) {
        return Ok(0);
    }
    if begins_comment(first, rest) {
        return Ok(comment_length(rest));
    }
    take_token(alloc, tokens, place, first, rest)
}

/// Takes what stands where `first` and `rest` are left of a text of `size` bytes, and answers what is left after it.
fn take_next<'a>(
    alloc: Global,
    tokens: &mut Vec<Token>,
    size: usize,
    first: u8,
    rest: &'a [u8],
) -> Result<&'a [u8], LexFault>
    requires left { length rest.now < size }
    requires short { size ≤ 1_048_576 }
    ensures taken { IfOk result (λ left. Takes tokens.old.items (tokens_at size (first ∷ rest.now)) tokens.new.items (tokens_at size left.now)) }
    ensures shorter { IfOk result (λ left. length left.now ≤ length rest.now) }
    ensures later { IfOk result (λ left. (fault : LexFault) → IsCauseAt size left.now fault → IsCauseAt size (first ∷ rest.now) fault) }
    ensures refused { IfErr result (IsCauseAt size (first ∷ rest.now)) }
{
    let place = size - rest.len() - 1;
    let more = take_one(alloc, tokens, place as u32, first, rest)?;
    Ok(&rest[more..])
}

/// The tokens of a text, each with its place: at each place a blank or a comment is dropped, or else the longest token
/// there is taken.
///
/// `text` is the bytes of a script, at most 2^20. The answer is its tokens in their order, with words in lower case; a
/// place is counted in bytes from 0.
///
/// # Errors
///
/// `BadByte` where at some place neither a blank, a comment nor a token begins, unless memory ran out for a token before;
/// `at` is the first such place. `NoMemory` where there was no memory for the tokens; then the text has a token before any
/// such place.
pub fn lex(alloc: Global, text: &[u8]) -> Result<Vec<Token>, LexFault>
    requires short { length text.now ≤ 1_048_576 }
    ensures spelled { IfOk result (λ ts. SpellsTokens text.now ts.items) }
    ensures read { IfOk result (λ ts. tokens_in text.now ≡ Ok ts.items) }
    ensures slices { IfOk result (λ ts. AreSlices text.now 0 ts.items) }
    ensures count { IfOk result (λ ts. length ts.items ≤ length text.now) }
    ensures refused { IfErr result (IsCause text.now) }
{
    let mut tokens = Vec::new(alloc);
    let mut rest = &text[mark_length(text)..];
    while let [first, tail @ ..] = rest {
        rest = take_next(alloc, &mut tokens, text.len(), *first, tail)?;
    }
    Ok(tokens)
}
