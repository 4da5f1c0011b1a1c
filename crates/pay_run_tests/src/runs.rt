//! Runs of scripts over cells, one for each of their events.

use crate::program::{outcome_of, program_of, trade_of};
use pay_dates::{Day, write_day};
use pay_fixed::Fixed;
use pay_machine::{End, FaultKind, Outcome, Payment};
use std::alloc::Global;
use std::test::Fail;

// A script, its cells, and what the run gives: the payments, each by the number of its leg, its amount and its date, then the fault or the last values,
// and how many nodes were evaluated.
const RUNS: [(&[u8], &[Option<i64>], &[u8]); 20] = [
    (
        b"@2024-06-28 opt pays max(0, spot() - 100)",
        &[Some(1_125_000)],
        b" 0:12.5@2024-06-28 done #6",
    ),
    (
        b"@2024-06-28 opt pays max(0, spot() - 100)",
        &[None],
        b" missing@2024-06-28 #2",
    ),
    (
        b"@2024-06-28 if spot() * 0 = 0 then a pays 1 endif",
        &[Some(1_000_000)],
        b" 0:1@2024-06-28 done #8",
    ),
    (
        b"@2024-06-28 if spot() * 0 = 0 then a pays 1 endif",
        &[None],
        b" missing@2024-06-28 #1",
    ),
    (
        b"@2024-06-28 a pays 100000000000000 + 0.0001",
        &[None],
        b" overflow@2024-06-28 #3",
    ),
    (
        b"@2024-06-28 a pays 1/3 a pays 2/3 a pays -2/3",
        &[None],
        b" 0:0.3333@2024-06-28 0:0.6667@2024-06-28 0:-0.6667@2024-06-28 done #6",
    ),
    // An event that faults pays nothing, and the payments of the one before stand.
    (
        b"@2024-01-10 a pays 1 @2024-02-12 a pays 2 x = spot() a pays 1/0",
        &[Some(1_000_000), None],
        b" 0:1@2024-01-10 missing@2024-02-12 #5",
    ),
    (
        b"@2024-01-10 a pays 1 @2024-02-12 a pays 2 x = spot() a pays 1/0",
        &[None, Some(1_000_000)],
        b" 0:1@2024-01-10 zero@2024-02-12 #9",
    ),
    // Values last from event to event. A right side that is skipped doesn't count, and its `or` does.
    (
        b"@2024-01-10 x = spot() y = x * 2 @2024-02-12 if x > 1 or 1/0 = 1 then a pays y x = 3 endif",
        &[Some(1_000_000), None],
        b" 0:200@2024-02-12 done 3 200 #15",
    ),
    (
        b"@2024-01-10 x = spot() y = x * 2 @2024-02-12 if x > 1 or 1/0 = 1 then a pays y x = 3 endif",
        &[Some(10_000), None],
        b" zero@2024-02-12 #12",
    ),
    (
        b"@2024-01-10 if 1 = 2 and 1/0 = 1 then a pays 1 else b pays 2 endif",
        &[None],
        b" 1:2@2024-01-10 done #2",
    ),
    // Each form of a condition and of a number.
    (
        b"@2024-01-10 if not (spot() >= 2 and spot() <= 3) then a pays abs(min(-1, spot())) else a pays -spot() endif",
        &[Some(20_000)],
        b" 0:-2@2024-01-10 done #12",
    ),
    (
        b"@2024-01-10 if not (spot() >= 2 and spot() <= 3) then a pays abs(min(-1, spot())) else a pays -spot() endif",
        &[Some(10_000)],
        b" 0:1@2024-01-10 done #11",
    ),
    (
        b"@2024-01-10 if not (spot() >= 2 and spot() <= 3) then a pays abs(min(-1, spot())) else a pays -spot() endif",
        &[Some(-40_000)],
        b" 0:4@2024-01-10 done #11",
    ),
    // What an `if` in a branch changes, and one that doesn't run.
    (
        b"@2024-01-10 if spot() != 1 then if spot() < 3 then x = 1 else x = 2 endif endif y = x",
        &[Some(10_000)],
        b" done 0 0 #6",
    ),
    (
        b"@2024-01-10 if spot() != 1 then if spot() < 3 then x = 1 else x = 2 endif endif y = x",
        &[Some(20_000)],
        b" done 1 1 #12",
    ),
    (
        b"@2024-01-10 if spot() != 1 then if spot() < 3 then x = 1 else x = 2 endif endif y = x",
        &[Some(30_000)],
        b" done 2 2 #12",
    ),
    // The numbers of an event of a schedule.
    (
        b"schedule from @2024-01-31 to @2024-02-29 every 1 m do a pays period() + days() / 10 end",
        &[None],
        b" 0:3.9@2024-02-29 done #2",
    ),
    // One name as a variable and as a leg.
    (
        b"@2024-01-10 a = 5 a pays a b pays a",
        &[None],
        b" 0:5@2024-01-10 1:5@2024-01-10 done 5 #6",
    ),
    (b"", &[], b" done #0"),
];

fn put_count(text: &mut Vec<u8>, count: u64) -> Option<()> {
    let raw = i64::try_from(count).ok()?.checked_mul(10_000)?;
    Fixed::from_raw(raw)?.write_decimal(text).ok()
}

fn put_payment(text: &mut Vec<u8>, payment: &Payment) -> Option<()> {
    text.extend_from_slice(b" ").ok()?;
    put_count(text, u64::from(payment.leg))?;
    text.extend_from_slice(b":").ok()?;
    payment.amount.write_decimal(text).ok()?;
    text.extend_from_slice(b"@").ok()?;
    write_day(payment.date, text).ok()
}

fn put_fault(text: &mut Vec<u8>, date: Day, kind: FaultKind) -> Option<()> {
    let word = match kind {
        FaultKind::Overflow => b" overflow@".as_slice(),
        FaultKind::ZeroDivisor => b" zero@".as_slice(),
        FaultKind::MissingFixing => b" missing@".as_slice(),
    };
    text.extend_from_slice(word).ok()?;
    write_day(date, text).ok()
}

fn put_values(text: &mut Vec<u8>, values: &[Fixed]) -> Option<()> {
    text.extend_from_slice(b" done").ok()?;
    for value in values {
        text.extend_from_slice(b" ").ok()?;
        value.write_decimal(text).ok()?;
    }
    Some(())
}

// What an outcome has, as a text.
fn text_of(alloc: Global, outcome: &Outcome) -> Option<Vec<u8>> {
    let mut text = Vec::new(alloc);
    for payment in outcome.payments() {
        put_payment(&mut text, payment)?;
    }
    match outcome.end() {
        End::Done => put_values(&mut text, outcome.values())?,
        End::Fault { date, kind } => put_fault(&mut text, date, kind)?,
    }
    text.extend_from_slice(b" #").ok()?;
    put_count(&mut text, outcome.nodes())?;
    Some(text)
}

// What the run of a script gives, as a text.
fn run_of(alloc: Global, script: &[u8], cells: &[Option<i64>]) -> Option<Vec<u8>> {
    let trade = trade_of(alloc, script)?;
    let outcome = outcome_of(alloc, &trade, cells)?;
    text_of(alloc, &outcome)
}

#[test]
fn runs_give_what_scripts_mean(rt: HostRuntime) -> Result<(), Fail> {
    for (script, cells, expected) in RUNS {
        let text = run_of(rt.alloc(), script, cells).ok_or("no run")?;
        assert_eq!(rt; text.as_slice(), expected);
    }
    Ok(())
}

// How many events there are up to a day of January 2024, and how many payments.
fn counts_until(alloc: Global, script: &[u8], day: u8) -> Option<(u32, u32)> {
    let trade = trade_of(alloc, script)?;
    let program = program_of(alloc, &trade, Some(Day::new(2024, 1, day)?))?;
    Some((program.events(), program.pays()))
}

// The events up to a date are compiled, that date among them.
#[test]
fn events_up_to_a_date(rt: HostRuntime) -> Result<(), Fail> {
    let script = b"@2024-01-10 a pays 1 b pays 1 @2024-01-12 b pays 1";
    for (day, counts) in [(9, (0, 0)), (10, (1, 2)), (11, (1, 2)), (12, (2, 3))] {
        assert!(rt; counts_until(rt.alloc(), script, day) == Some(counts));
    }
    Ok(())
}
