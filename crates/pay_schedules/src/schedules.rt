//! The terms of a schedule, word by word.

ghost use Rattle.std.specs.Prelude.{◌≡◌, ◌==◌, not, Some};
ghost use Rattle.std.specs.List.{list_all};
ghost use Rattle.pay_lexer.specs.declared.token.TokenKind.TheVariants as token;
ghost use Rattle.pay_grammar.specs.Reading as reading;
ghost use Rattle.pay_place.specs.ReadingViews as view;
ghost use Rattle.pay_place.specs.ReadingViews.{Gives};

use pay_dates::{Day, Rule, Unit};
use pay_fixed::{Fixed, read_decimal};
use pay_lexer::{Digits, Key, Letters, TokenKind};
use pay_place::{Heading, Mode, Owner, Stack, State, StepFault, Terms, begun_body};
use std::alloc::Global;

/// The raws of one.
const SCALE: i64 = 10_000;

/// Whether none of the bytes is a point.
fn has_no_point(digits: &[u8]) -> bool
    ensures { result ≡ list_all (λ byte. not (byte == 46)) digits.now }
{
    digits.iter().all(|byte| *byte != b'.')
}

/// The count that a number is, if it is a whole one from 0 on.
fn whole_of(number: Fixed) -> Option<u64>
    ensures { result ≡ reading.whole_of number }
{
    let raw = number.raw();
    if raw >= 0 && raw % SCALE == 0 {
        Some((raw / SCALE) as u64)
    } else {
        None
    }
}

/// The count that a number token without a point is.
fn count_of(digits: &Digits) -> Option<u64>
    ensures { result ≡ reading.count_in digits.now }
{
    if !has_no_point(digits.bytes()) {
        return None;
    }
    match read_decimal(digits.bytes()) {
        Ok(number) => whole_of(number),
        Err(_) => None,
    }
}

/// The unit that a word stands for.
fn unit_of(letters: &Letters) -> Option<Unit>
    ensures { result ≡ reading.unit_in letters.now }
{
    let word = letters.bytes();
    if word == b"d".as_slice() {
        Some(Unit::Days)
    } else if word == b"w".as_slice() {
        Some(Unit::Weeks)
    } else if word == b"m".as_slice() {
        Some(Unit::Months)
    } else if word == b"y".as_slice() {
        Some(Unit::Years)
    } else {
        None
    }
}

/// The state in the terms of a schedule where this is awaited.
fn heading(stack: Stack, awaited: Heading) -> State
    ensures { view.state result ≡ reading.state (view.frames stack) (reading.heading (view.heading awaited)) }
{
    State {
        stack,
        mode: Mode::Heading(awaited),
    }
}

/// The state after `from`, `to`, `every` or `do`, where one of them is awaited.
fn step_word(alloc: Global, stack: Stack, awaited: Heading, key: Key) -> Result<State, StepFault>
    ensures { Gives view.state result (reading.step_heading (view.frames stack) (view.heading awaited) (token.Key key)) }
{
    match awaited {
        Heading::From => match key {
            Key::From => Ok(heading(stack, Heading::First)),
            _ => Err(StepFault::NotScript),
        },
        Heading::To(first) => match key {
            Key::To => Ok(heading(stack, Heading::Last(first))),
            _ => Err(StepFault::NotScript),
        },
        Heading::Every(first, last) => match key {
            Key::Every => Ok(heading(stack, Heading::Count(first, last))),
            _ => Err(StepFault::NotScript),
        },
        Heading::Rule(first, last, every, unit) => {
            step_rule(alloc, stack, first, last, every, unit, key)
        }
        Heading::Do(terms) => match key {
            Key::Do => begun_body(alloc, stack, Owner::Schedule(terms)),
            _ => Err(StepFault::NotScript),
        },
        _ => Err(StepFault::NotScript),
    }
}

/// The state after a rule, or after `do` where there is no rule.
fn step_rule(
    alloc: Global,
    stack: Stack,
    first: Day,
    last: Day,
    every: u64,
    unit: Unit,
    key: Key,
) -> Result<State, StepFault>
    ensures { Gives view.state result (reading.step_heading (view.frames stack) (reading.rule_next first last every unit) (token.Key key)) }
{
    let terms = Terms {
        first,
        last,
        every,
        unit,
        rule: Rule::Stay,
    };
    match key {
        Key::Following => Ok(heading(stack, Heading::Do(ruled(terms, Rule::Following)))),
        Key::Preceding => Ok(heading(stack, Heading::Do(ruled(terms, Rule::Preceding)))),
        Key::Modified => Ok(heading(stack, Heading::Do(ruled(terms, Rule::Modified)))),
        Key::Do => begun_body(alloc, stack, Owner::Schedule(terms)),
        _ => Err(StepFault::NotScript),
    }
}

/// The same terms under a rule.
fn ruled(terms: Terms, rule: Rule) -> Terms
    ensures { view.terms result ≡ reading.terms_of terms.first terms.last terms.every terms.unit rule }
{
    Terms { rule, ..terms }
}

/// The state after a token in the terms of a schedule.
///
/// # Errors
///
/// `NotScript` where another is awaited, and `NoMemory` where there was no memory for the frame of the schedule's statements.
pub fn step_heading(
    alloc: Global,
    stack: Stack,
    awaited: Heading,
    token: &TokenKind,
) -> Result<State, StepFault>
    ensures { Gives view.state result (reading.step_heading (view.frames stack) (view.heading awaited) token.now) }
{
    match token {
        TokenKind::Key(key) => step_word(alloc, stack, awaited, *key),
        TokenKind::Date(date) => step_date(stack, awaited, *date),
        TokenKind::Number(digits) => step_count(stack, awaited, digits),
        TokenKind::Word(letters) => step_unit(stack, awaited, letters),
        _ => Err(StepFault::NotScript),
    }
}

/// The state after a date.
fn step_date(stack: Stack, awaited: Heading, date: Day) -> Result<State, StepFault>
    ensures { Gives view.state result (reading.step_heading (view.frames stack) (view.heading awaited) (token.Date date)) }
{
    match awaited {
        Heading::First => Ok(heading(stack, Heading::To(date))),
        Heading::Last(first) => Ok(heading(stack, Heading::Every(first, date))),
        _ => Err(StepFault::NotScript),
    }
}

/// The state after the count of a step.
fn step_count(stack: Stack, awaited: Heading, digits: &Digits) -> Result<State, StepFault>
    ensures { Gives view.state result (reading.step_heading (view.frames stack) (view.heading awaited) (token.Number digits.now)) }
{
    match awaited {
        Heading::Count(first, last) => match count_of(digits) {
            Some(every) => Ok(heading(stack, Heading::Unit(first, last, every))),
            None => Err(StepFault::NotScript),
        },
        _ => Err(StepFault::NotScript),
    }
}

/// The state after the unit of a step.
fn step_unit(stack: Stack, awaited: Heading, letters: &Letters) -> Result<State, StepFault>
    ensures { Gives view.state result (reading.step_heading (view.frames stack) (view.heading awaited) (token.Word letters.now)) }
{
    match awaited {
        Heading::Unit(first, last, every) => match unit_of(letters) {
            Some(unit) => Ok(heading(stack, Heading::Rule(first, last, every, unit))),
            None => Err(StepFault::NotScript),
        },
        _ => Err(StepFault::NotScript),
    }
}
