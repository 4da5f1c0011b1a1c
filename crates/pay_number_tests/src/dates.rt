//! Tests of the calls on days and on schedules.
//!
//! The numbers follow from the calendar by counting from 1970-01-01. 1900-01-01 lies 70 years of 365 days and 17 leap days before it; 2000-02-29 lies
//! 30 years, 7 leap days and 59 days after it; 2024-02-29 lies 54 years, 13 leap days and 59 days after it, 2024-06-28 another 120 days; and 2199-12-31
//! lies 229 years, 56 leap days and 364 days after it.
//!
//! 1900-01-01 and 2024-01-01 are Mondays, and 2199-12-31 is a Tuesday. In 2024 the weekends that the schedules meet are 30 and 31 March, 1 and 2, 15 and
//! 16, 29 and 30 June, and 31 August with 1 September. 1911-03-21 lies 11 years, 2 leap days and 79 days after 1900-01-01, which is 4,096 days.

use pay_dates::{Day, Roll, RollFault, Rule, Unit, laws, read_day, roll_dates, write_day};
use std::cmp::Ordering;
use std::test::Fail;

// A year, a month and a day, and the number of the day that they name.
const NUMBERS: &[(u16, u8, u8, Option<i32>)] = &[
    (1899, 12, 31, None),
    (1900, 1, 1, Some(-25_567)),
    (1900, 2, 29, None),
    (1969, 12, 31, Some(-1)),
    (1970, 1, 1, Some(0)),
    (2000, 2, 29, Some(11_016)),
    (2023, 2, 29, None),
    (2024, 0, 1, None),
    (2024, 1, 0, None),
    (2024, 1, 32, None),
    (2024, 2, 29, Some(19_782)),
    (2024, 2, 30, None),
    (2024, 6, 28, Some(19_902)),
    (2024, 13, 1, None),
    (2100, 2, 29, None),
    (2199, 12, 31, Some(84_005)),
    (2200, 1, 1, None),
];

// A text, and the number of the day that it writes.
const TEXTS: &[(&[u8; 10], Option<i32>)] = &[
    (b"2024-06-28", Some(19_902)),
    (b"1970-01-01", Some(0)),
    (b"2024-6-28x", None),
    (b"2024/06/28", None),
    (b"2024-06/28", None),
    (b"2o24-06-28", None),
    (b"2024-02-30", None),
    (b"1899-12-31", None),
    (b"2200-01-01", None),
];

// A first and a last day, a step and a rule, and the rolls: the date of each, its period and its days.
const SCHEDULES: &[(
    &[u8; 10],
    &[u8; 10],
    u64,
    Unit,
    Rule,
    &[(&[u8; 10], u32, u32)],
)] = &[
    // A sum past the end of February is its last day, and the next one is counted from 31 January all the same. 31 March is a Sunday.
    (
        b"2024-01-31",
        b"2024-05-15",
        1,
        Unit::Months,
        Rule::Following,
        &[
            (b"2024-02-29", 1, 29),
            (b"2024-04-01", 2, 32),
            (b"2024-04-30", 3, 29),
            (b"2024-05-15", 4, 15),
        ],
    ),
    (
        b"2024-01-31",
        b"2024-05-15",
        1,
        Unit::Months,
        Rule::Modified,
        &[
            (b"2024-02-29", 1, 29),
            (b"2024-03-29", 2, 29),
            (b"2024-04-30", 3, 32),
            (b"2024-05-15", 4, 15),
        ],
    ),
    (
        b"2024-01-31",
        b"2024-05-15",
        1,
        Unit::Months,
        Rule::Stay,
        &[
            (b"2024-02-29", 1, 29),
            (b"2024-03-31", 2, 31),
            (b"2024-04-30", 3, 30),
            (b"2024-05-15", 4, 15),
        ],
    ),
    // The first day moves to 31 May, and the last one to the date before it.
    (
        b"2024-06-01",
        b"2024-06-30",
        2,
        Unit::Weeks,
        Rule::Preceding,
        &[(b"2024-06-14", 1, 14), (b"2024-06-28", 2, 14)],
    ),
    // The first day and the first step move to 1 July. That step gives its roll, and the second one doesn't.
    (
        b"2024-06-29",
        b"2024-07-05",
        1,
        Unit::Days,
        Rule::Following,
        &[
            (b"2024-07-01", 1, 0),
            (b"2024-07-02", 3, 1),
            (b"2024-07-03", 4, 1),
            (b"2024-07-04", 5, 1),
            (b"2024-07-05", 6, 1),
        ],
    ),
    (
        b"2024-06-27",
        b"2024-07-01",
        1,
        Unit::Days,
        Rule::Preceding,
        &[(b"2024-06-28", 1, 1), (b"2024-07-01", 4, 3)],
    ),
    // 31 August moves back within its month to the first day's date, and 1 September forward within its own.
    (
        b"2024-08-30",
        b"2024-09-02",
        1,
        Unit::Days,
        Rule::Modified,
        &[(b"2024-08-30", 1, 0), (b"2024-09-02", 2, 3)],
    ),
    (
        b"2024-02-29",
        b"2029-01-01",
        2,
        Unit::Years,
        Rule::Stay,
        &[
            (b"2026-02-28", 1, 730),
            (b"2028-02-29", 2, 731),
            (b"2029-01-01", 3, 307),
        ],
    ),
    // A step that reaches the last day, and one that leads past it.
    (
        b"2024-01-01",
        b"2024-01-15",
        1,
        Unit::Weeks,
        Rule::Stay,
        &[(b"2024-01-08", 1, 7), (b"2024-01-15", 2, 7)],
    ),
    (
        b"2024-01-01",
        b"2024-01-02",
        999,
        Unit::Years,
        Rule::Modified,
        &[(b"2024-01-02", 1, 1)],
    ),
    (
        b"2199-12-30",
        b"2199-12-31",
        999,
        Unit::Years,
        Rule::Following,
        &[(b"2199-12-31", 1, 1)],
    ),
];

// A first and a last day and a step in days, and how many rolls there are without a rule, or why there are none.
const COUNTS: &[(&[u8; 10], &[u8; 10], u64, Result<usize, RollFault>)] = &[
    (b"2024-01-01", b"2024-01-01", 1, Err(RollFault::BadSchedule)),
    (b"2024-01-02", b"2024-01-01", 1, Err(RollFault::BadSchedule)),
    (b"2024-01-01", b"2024-01-15", 0, Err(RollFault::BadSchedule)),
    (
        b"2024-01-01",
        b"2024-01-15",
        1000,
        Err(RollFault::BadSchedule),
    ),
    (b"2024-01-01", b"2024-01-15", 999, Ok(1)),
    (b"1900-01-01", b"1911-03-21", 1, Ok(4096)),
    (b"1900-01-01", b"1911-03-22", 1, Err(RollFault::TooMany)),
    (b"1900-01-01", b"2199-12-31", 1, Err(RollFault::TooMany)),
];

#[test]
fn numbers_of_days(rt: HostRuntime) -> Result<(), Fail> {
    for &(year, month, day, number) in NUMBERS {
        assert_eq!(rt; Day::new(year, month, day).map(|d| d.number()), number);
    }
    Ok(())
}

#[test]
fn texts_are_read(rt: HostRuntime) -> Result<(), Fail> {
    for &(text, number) in TEXTS {
        assert_eq!(rt; read_day(text).map(|d| d.number()), number);
    }
    Ok(())
}

#[test]
fn parts_of_a_day(rt: HostRuntime) -> Result<(), Fail> {
    let day = Day::new(2024, 6, 28).ok_or("no such day")?;
    assert_eq!(rt; day.year(), 2024);
    assert_eq!(rt; day.month(), 6);
    assert_eq!(rt; day.day(), 28);
    Ok(())
}

#[test]
fn a_day_is_written(rt: HostRuntime) -> Result<(), Fail> {
    let day = Day::new(2024, 6, 28).ok_or("no such day")?;
    let mut text = Vec::new(rt.alloc());
    write_day(day, &mut text)?;
    assert_eq!(rt; text.as_slice(), b"2024-06-28".as_slice());
    Ok(())
}

#[test]
fn days_are_compared(rt: HostRuntime) -> Result<(), Fail> {
    let day = Day::new(2024, 6, 28).ok_or("no such day")?;
    let eve = Day::new(2023, 12, 31).ok_or("no such day")?;
    assert_eq!(rt; laws::days_compare_by_number(eve, day), Ordering::Less);
    assert_eq!(rt; laws::days_compare_by_number(day, day), Ordering::Equal);
    assert_eq!(rt; laws::days_compare_by_number(day, eve), Ordering::Greater);
    Ok(())
}

#[test]
fn schedules_are_rolled(rt: HostRuntime) -> Result<(), Fail> {
    for &(first, last, every, unit, rule, expected) in SCHEDULES {
        let first = read_day(first).ok_or("no such day")?;
        let last = read_day(last).ok_or("no such day")?;
        let rolls = roll_dates(rt.alloc(), first, last, every, unit, rule)?;
        assert_eq!(rt; rolls.len(), expected.len());
        for (roll, (text, period, days)) in rolls.iter().zip(expected) {
            let date = read_day(text).ok_or("no such day")?;
            assert_eq!(rt;
                *roll,
                Roll {
                    date,
                    period: *period,
                    days: *days
                }
            );
        }
    }
    Ok(())
}

#[test]
fn rolls_are_counted(rt: HostRuntime) -> Result<(), Fail> {
    for &(first, last, every, count) in COUNTS {
        let first = read_day(first).ok_or("no such day")?;
        let last = read_day(last).ok_or("no such day")?;
        let rolls = roll_dates(rt.alloc(), first, last, every, Unit::Days, Rule::Stay);
        assert_eq!(rt; rolls.map(|r| r.len()), count);
    }
    Ok(())
}
