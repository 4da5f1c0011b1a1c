//! Tests of the calls on names, and of the copy of an event.

use pay_dates::Day;
use pay_fixed::{Fixed, Smooth};
use pay_tree::{Compare, Event, Name, NameFault, Node, NodeKind, Step, Test, TestKind, copy_event};
use std::alloc::Global;
use std::cmp::Ordering;
use std::test::Fail;

const LONGEST: [u8; 64] = [b'n'; 64];

const TOO_LONG: [u8; 65] = [b'n'; 65];

// Words, and whether each is a name.
const WORDS: &[(&[u8], bool)] = &[
    (b"a", true),
    (b"_x9", true),
    (b"pay", true),
    (&LONGEST, true),
    (&TOO_LONG, false),
    (b"", false),
    (b"9a", false),
    (b"A", false),
    (b"pays", false),
    (b"spot", false),
];

#[test]
fn exactly_the_names_are_read(rt: HostRuntime) -> Result<(), Fail> {
    for &(word, is_name) in WORDS {
        match Name::read(rt.alloc(), word) {
            Ok(name) => {
                assert!(rt; is_name);
                assert_eq!(rt; name.bytes(), word);
            }
            Err(fault) => {
                assert!(rt; !is_name);
                assert_eq!(rt; fault, NameFault::NotName);
            }
        }
    }
    Ok(())
}

#[test]
fn names_are_compared_by_their_bytes(rt: HostRuntime) -> Result<(), Fail> {
    let pay = Name::read(rt.alloc(), b"pay")?;
    let spread = Name::read(rt.alloc(), b"spread")?;
    assert!(rt; pay != spread);
    assert!(rt; pay == pay.copy(rt.alloc())?);
    assert_eq!(rt; pay.cmp(&spread), Ordering::Less);
    Ok(())
}

const SMOOTH: Smooth = Smooth::Rise { low: -1, high: 1 };

fn literal(id: u32, raw: i64) -> Result<Node, Fail> {
    Ok(Node {
        id,
        kind: NodeKind::Number(Fixed::from_raw(raw).ok_or("within the limit")?),
    })
}

// A comparison that is sure of its answer and smoothed, in an `if` that changes the variable 7, in a group.
fn grouped(alloc: Global) -> Result<Step, Fail> {
    let test = Test {
        id: 0,
        sure: Some(true),
        kind: TestKind::Compare {
            op: Compare::Less,
            left: Box::new(alloc, literal(1, 10_000)?)?,
            right: Box::new(alloc, literal(2, 20_000)?)?,
            smooth: Some(SMOOTH),
        },
    };
    let mut changes = Vec::new(alloc);
    changes.push(7)?;
    let mut steps = Vec::new(alloc);
    steps.push(Step::If {
        test,
        yes: Vec::new(alloc),
        no: Vec::new(alloc),
        changes,
    })?;
    Ok(Step::Group(steps))
}

#[test]
fn an_event_is_copied_whole(rt: HostRuntime) -> Result<(), Fail> {
    let alloc = rt.alloc();
    let mut steps = Vec::new(alloc);
    steps.push(grouped(alloc)?)?;
    let event = Event {
        date: Day::new(2024, 1, 31).ok_or("a day")?,
        period: 3,
        days: 31,
        steps,
    };
    let copy = copy_event(alloc, &event)?;
    assert_eq!(rt; copy.date, event.date);
    assert_eq!(rt; copy.period, 3);
    assert_eq!(rt; copy.days, 31);
    let [Step::Group(inner)] = copy.steps.as_slice() else {
        return Err(Fail::from("no group"));
    };
    let [Step::If { test, changes, .. }] = inner.as_slice() else {
        return Err(Fail::from("no choice"));
    };
    assert_eq!(rt; test.sure, Some(true));
    assert_eq!(rt; changes.as_slice(), [7].as_slice());
    let TestKind::Compare { smooth, right, .. } = &test.kind else {
        return Err(Fail::from("no comparison"));
    };
    assert_eq!(rt; *smooth, Some(SMOOTH));
    assert_eq!(rt; right.id, 2);
    Ok(())
}
