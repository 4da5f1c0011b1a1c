//! The detail report's text.

ghost use Rattle.std.specs.Prelude.{◌<◌, All, IsTrue, length};

use crate::program::{outcome_of, trade_of};
use pay_machine::Payment;
use pay_report::{DetailWriter, detail_header, detail_rows, nodes_line};
use pay_tables::Label;
use std::alloc::Global;
use std::test::Fail;

// Scripts whose events have no fixing, and the lines of what they pay.
const LINES: [(&[u8], &[Option<i64>], &[u8]); 5] = [
    (
        b"@2024-06-28 opt pays 12.5 fee_2 pays -0.0001 @2024-12-30 opt pays 0",
        &[None, None],
        b"Up-1.a,2024-06-28,opt,12.5\nUp-1.a,2024-06-28,fee_2,-0.0001\nUp-1.a,2024-12-30,opt,0\n",
    ),
    (
        b"@2024-06-28 fee_2 pays 1 @2024-12-30 opt pays spot()",
        &[None, None],
        b"Up-1.a,2024-06-28,fee_2,1\nUp-1.a,2024-12-30,!missing fixing,\n",
    ),
    (
        b"@1900-01-01 opt pays 1 / 0",
        &[None],
        b"Up-1.a,1900-01-01,!zero divisor,\n",
    ),
    (
        b"@2199-12-31 opt pays 100000000000000 + 1",
        &[None],
        b"Up-1.a,2199-12-31,!overflow,\n",
    ),
    (b"@2024-06-28 x = 1", &[None], b""),
];

// Whether each payment is on one of so many legs.
fn are_below(payments: &[Payment], legs: usize) -> bool
    ensures { IsTrue result → All (λ payment. payment.leg < legs) payments.now }
{
    payments.iter().all(|payment| (payment.leg as usize) < legs)
}

// The lines of a script's run, by the call that appends them.
fn lines_of(alloc: Global, label: &Label, script: &[u8], cells: &[Option<i64>]) -> Option<Vec<u8>> {
    let trade = trade_of(alloc, script)?;
    let outcome = outcome_of(alloc, &trade, cells)?;
    if !are_below(outcome.payments(), trade.legs.len()) {
        return None;
    }
    let mut text = Vec::from_slice(alloc, b"so far\n").ok()?;
    detail_rows(alloc, label, &outcome, trade.legs.as_slice(), &mut text).ok()?;
    Some(text)
}

#[test]
fn lines_of_scenarios(rt: HostRuntime) -> Result<(), Fail> {
    let label = Label::read(rt.alloc(), b"Up-1.a")?;
    for (script, cells, expected) in LINES {
        let text = lines_of(rt.alloc(), &label, script, cells).ok_or("no lines")?;
        assert!(rt; text.starts_with(b"so far\n"));
        assert!(rt; text.ends_with(expected));
        assert_eq!(rt; text.len(), 7 + expected.len());
    }
    Ok(())
}

// Whether a writer gives the same line for each of many scenarios: more lines than it keeps, so that it begins anew in between.
fn repeats_line(alloc: Global, label: &Label) -> Option<bool> {
    let trade = trade_of(alloc, b"@2024-06-28 fee pays 12.5")?;
    let outcome = outcome_of(alloc, &trade, &[None])?;
    if !are_below(outcome.payments(), trade.legs.len()) {
        return None;
    }
    let mut detail = DetailWriter::new(alloc);
    for _ in 0..10_000 {
        let lines = detail.rows(label, &outcome, trade.legs.as_slice()).ok()?;
        if lines != b"up,2024-06-28,fee,12.5\n".as_slice() {
            return Some(false);
        }
    }
    Some(true)
}

#[test]
fn lines_of_many_scenarios(rt: HostRuntime) -> Result<(), Fail> {
    let label = Label::read(rt.alloc(), b"up")?;
    assert!(rt; repeats_line(rt.alloc(), &label) == Some(true));
    Ok(())
}

#[test]
fn the_first_and_the_last_line(rt: HostRuntime) -> Result<(), Fail> {
    let alloc = rt.alloc();
    let mut text = Vec::from_slice(alloc, b"so far\n")?;
    detail_header(alloc, &mut text)?;
    nodes_line(alloc, 42, &mut text)?;
    assert_eq!(rt;
        text.as_slice(),
        b"so far\nscenario,date,leg,amount\n#nodes,42,,\n".as_slice()
    );
    Ok(())
}
