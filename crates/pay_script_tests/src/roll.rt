//! Tests of the events of scripts.

use crate::script::script_of;
use crate::text::{Text, put, text_of};
use pay_dates::{Day, write_day};
use pay_roll::{RollRefusal, What, roll};
use pay_tree::NamedEvent;
use std::alloc::Global;
use std::test::Fail;

// The events of a script, or why it has none.
fn events_of(alloc: Global, text: &[u8]) -> Result<Result<Vec<NamedEvent>, RollRefusal>, Fail> {
    let script = script_of(alloc, text)??;
    if script.items.len() > 1_000 {
        return Err(Fail::new("many items"));
    }
    Ok(roll(alloc, &script))
}

// How many events a script has, or why it has none.
fn counted(alloc: Global, text: &[u8]) -> Result<Result<usize, RollRefusal>, Fail> {
    match events_of(alloc, text)? {
        Ok(events) => Ok(Ok(events.len())),
        Err(refusal) => Ok(Err(refusal)),
    }
}

// The date of each event, its period, its days and its number of statements.
fn listed(alloc: Global, events: &[NamedEvent]) -> Result<Vec<u8>, Fail> {
    let mut text = Vec::new(alloc);
    for event in events {
        write_day(event.date, &mut text)?;
        put(&mut text, b" ", event.period)?;
        put(&mut text, b" ", event.days)?;
        put(
            &mut text,
            b" ",
            u32::try_from(event.body.len()).unwrap_or(u32::MAX),
        )?;
        text.extend_from_slice(b";")?;
    }
    Ok(text)
}

// Two schedules and a plain item, with two payments, none and none. February 2026 has 28 days.
const MIXED: &[u8] =
    b"schedule from @2026-01-15 to @2026-03-15 every 1 m do a pays days() a pays days() end
@2026-02-10
schedule from @2026-01-01 to @2026-03-01 every 1 m do end";

const MIXED_EVENTS: &[u8] =
    b"2026-02-01 1 31 0;2026-02-10 0 0 0;2026-02-15 1 31 2;2026-03-01 2 28 0;2026-03-15 2 28 2;";

#[test]
fn events_of_all_items_are_in_order(rt: HostRuntime) -> Result<(), Fail> {
    let events = events_of(rt.alloc(), MIXED)??;
    let found = listed(rt.alloc(), &events)?;
    assert_eq!(rt; found.as_slice(), MIXED_EVENTS);
    Ok(())
}

const TOO_MANY_EVENTS: RollRefusal = RollRefusal::TooMany {
    what: What::Events,
    limit: 4_096,
};

const TOO_MANY_NODES: RollRefusal = RollRefusal::TooMany {
    what: What::Nodes,
    limit: 262_144,
};

const TOO_MANY_PAYS: RollRefusal = RollRefusal::TooMany {
    what: What::Pays,
    limit: 16_384,
};

// Scripts, and how many events each has, or why it has none; most of those have two causes or more. 2,048 days from the start of 2000 and 2,048 more
// are 4,096: eleven years of 4,018 days, and 78 days of 2011. A payment of `days()` is two nodes.
const ROLLED: [(Text, Result<usize, RollRefusal>); 7] = [
    (
        (
            b"schedule from @2005-08-10 to @2011-03-20 every 1 d do end schedule from @2000-01-01 to @2005-08-10 every 1 d do end",
            b"",
            0,
            b"",
            b"",
        ),
        Ok(4_096),
    ),
    (
        (
            b"schedule from @1900-01-01 to @2199-12-31 every 1 d do end schedule from @2026-01-01 to @2026-02-01 every 0 d do end",
            b" schedule from @2026-02-01 to @2026-01-01 every 1 d do end",
            1,
            b"",
            b"",
        ),
        Err(RollRefusal::BadSchedule { item: 2 }),
    ),
    (
        (
            b"",
            b"schedule from @1900-01-01 to @2199-12-31 every 1 d do end ",
            2,
            b"",
            b"",
        ),
        Err(TOO_MANY_EVENTS),
    ),
    (
        (
            b"@2000-01-02 schedule from @2000-01-01 to @2005-08-10 every 1 d do end ",
            b"schedule from @2005-08-10 to @2011-03-20 every 1 d do end",
            1,
            b"",
            b"",
        ),
        Err(TOO_MANY_EVENTS),
    ),
    (
        (
            b"schedule from @2000-01-01 to @2005-08-10 every 1 d do ",
            b"a pays days() ",
            65,
            b"end",
            b"",
        ),
        Err(TOO_MANY_NODES),
    ),
    (
        (
            b"schedule from @2000-01-01 to @2005-08-10 every 1 d do ",
            b"a pays days() ",
            9,
            b"end",
            b"",
        ),
        Err(TOO_MANY_PAYS),
    ),
    (
        (b"@2000-01-02 ", b"a pays days() ", 16_385, b"", b""),
        Err(TOO_MANY_PAYS),
    ),
];

#[test]
fn the_first_cause_is_named(rt: HostRuntime) -> Result<(), Fail> {
    for (text, wanted) in ROLLED {
        let text = text_of(rt.alloc(), text)?;
        assert_eq!(rt; counted(rt.alloc(), &text)?, wanted);
    }
    Ok(())
}

// Two shared dates, the later one first in the text, and with more nodes than there may be.
const SHARED: Text = (
    b"@2000-01-03 schedule from @2000-01-01 to @2005-08-10 every 1 d do ",
    b"a pays days() ",
    65,
    b"end @2000-01-02",
    b"",
);

#[test]
fn the_earliest_shared_date_is_named_before_nodes(rt: HostRuntime) -> Result<(), Fail> {
    let date = Day::new(2000, 1, 2).ok_or("a day")?;
    let text = text_of(rt.alloc(), SHARED)?;
    let found = counted(rt.alloc(), &text)?;
    assert_eq!(rt; found, Err(RollRefusal::SameDate { date }));
    Ok(())
}
