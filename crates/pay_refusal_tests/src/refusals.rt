//! Scripts that are refused: which refusal is answered, and its place.

use pay_dates::Day;
use pay_tool::{CheckStop, Refusal, What, check_script};
use std::alloc::Global;
use std::test::Fail;

// A script's text, and why it is refused.
const REFUSALS: [(&str, Refusal); 23] = [
    ("@2024-02-30", Refusal::BadByte { at: 0 }),
    ("@2024-06-28 a pays 1 ! 2", Refusal::BadByte { at: 21 }),
    ("@2024-06-28 a pays 1. ", Refusal::BadByte { at: 20 }),
    ("@2024-06-28 \u{feff}", Refusal::BadByte { at: 12 }),
    (
        "@2024-06-28 a pays 100000000000000.0001",
        Refusal::TooLarge { at: 19 },
    ),
    // The limits of tokens are asked before the grammar.
    (
        "@2024-06-28 1 100000000000000.0001",
        Refusal::TooLarge { at: 14 },
    ),
    ("@2024-06-28 a pays 1 < 2", Refusal::NotScript),
    ("@2024-06-28 a pays", Refusal::NotScript),
    ("@2024-06-28 a pays (1", Refusal::NotScript),
    ("@2024-06-28 a pays min(1)", Refusal::NotScript),
    ("@2024-06-28 if (1) then endif", Refusal::NotScript),
    (
        "@2024-06-28 if (1 < 2) + 3 > 0 then endif",
        Refusal::NotScript,
    ),
    ("@2024-06-28 if 1 < 2 then a pays 1", Refusal::NotScript),
    ("schedule from", Refusal::NotScript),
    (
        "schedule from @2024-01-31 to @2024-05-15 every 1.0 m do end",
        Refusal::NotScript,
    ),
    (
        "schedule from @2024-01-31 to @2024-05-15 every 1 m do end;",
        Refusal::NotScript,
    ),
    (
        "@2024-01-01 if 1 = 1 then schedule from @2024-01-31 to @2024-05-15 every 1 m do end endif",
        Refusal::NotScript,
    ),
    // Dates that are the same, or the wrong way round, and steps of no days and of too many. Items are counted from 1.
    (
        "schedule from @2024-01-31 to @2024-01-31 every 1 m following do a pays days() end",
        Refusal::BadSchedule { item: 1 },
    ),
    (
        "@2024-01-01 schedule from @2024-05-15 to @2024-01-31 every 1 m do end",
        Refusal::BadSchedule { item: 2 },
    ),
    (
        "@2024-01-01 @2024-01-02 schedule from @2024-01-31 to @2024-05-15 every 0 d do end schedule from @2024-01-31 to @2024-05-15 every 1000 d do end",
        Refusal::BadSchedule { item: 3 },
    ),
    (
        "schedule from @2024-01-31 to @2024-05-15 every 1000 d do end",
        Refusal::BadSchedule { item: 1 },
    ),
    (
        "schedule from @1900-01-01 to @2199-12-31 every 1 d do end",
        Refusal::TooMany {
            what: What::Events,
            limit: 4_096,
        },
    ),
    // A bad schedule is asked before the number of events, and that before a shared date.
    (
        "schedule from @1900-01-01 to @2199-12-31 every 1 d do end schedule from @1900-01-01 to @2199-12-31 every 0 d do end",
        Refusal::BadSchedule { item: 2 },
    ),
];

// A script of a piece that is repeated between a front and a back, how often, and why it is refused. The names in the
// pieces differ where they have a `#`, which stands for a number.
const REPEATED: [(&str, &str, &str, usize, Refusal); 16] = [
    (
        "@2024-06-28 a pays ",
        "(",
        "",
        101,
        Refusal::TooDeep { at: 119 },
    ),
    (
        "@2024-06-28 a pays 1",
        "+1",
        "",
        97,
        Refusal::TooDeep { at: 212 },
    ),
    (
        "@2024-06-28 a pays ",
        "-",
        "1",
        97,
        Refusal::TooDeep { at: 115 },
    ),
    (
        "@2024-06-28 ",
        "if 1=1 then ",
        "",
        97,
        Refusal::TooDeep { at: 1_164 },
    ),
    (
        "@2024-06-28 if ",
        "not ",
        "1=1 then endif",
        97,
        Refusal::TooDeep { at: 399 },
    ),
    // A size is asked before a depth, wherever it stands, and a depth before the grammar.
    (
        "@2024-06-28 a pays ",
        "(",
        "100000000000000.0001",
        101,
        Refusal::TooLarge { at: 120 },
    ),
    ("@2024-06-28 a pays ", ")", "", 101, Refusal::NotScript),
    (
        "@2024-06-28 ",
        "n",
        " = 1",
        65,
        Refusal::TooLarge { at: 12 },
    ),
    // Too many events are asked before a shared date.
    (
        "",
        "@2024-06-28 ",
        "",
        4_097,
        Refusal::TooMany {
            what: What::Events,
            limit: 4_096,
        },
    ),
    (
        "@2024-06-28 ",
        "x = 1 ",
        "",
        131_073,
        Refusal::TooMany {
            what: What::Nodes,
            limit: 262_144,
        },
    ),
    // An `if`, a comparison, an assignment and three literals.
    (
        "@2024-06-28 ",
        "if 1=1 then x=1 endif ",
        "",
        43_691,
        Refusal::TooMany {
            what: What::Nodes,
            limit: 262_144,
        },
    ),
    // The statements of a schedule are counted in each of its 3,599 events.
    (
        "schedule from @1900-01-01 to @2199-12-01 every 1 m do ",
        "x = 1 ",
        "end",
        37,
        Refusal::TooMany {
            what: What::Nodes,
            limit: 262_144,
        },
    ),
    (
        "schedule from @1900-01-01 to @2199-12-01 every 1 m do ",
        "a pays 1 ",
        "end",
        5,
        Refusal::TooMany {
            what: What::Pays,
            limit: 16_384,
        },
    ),
    (
        "@2024-06-28 ",
        "a pays 1 ",
        "",
        16_385,
        Refusal::TooMany {
            what: What::Pays,
            limit: 16_384,
        },
    ),
    (
        "@2024-06-28 ",
        "v# = 1 ",
        "",
        1_025,
        Refusal::TooMany {
            what: What::Variables,
            limit: 1_024,
        },
    ),
    (
        "@2024-06-28 ",
        "leg# pays 1 ",
        "",
        257,
        Refusal::TooMany {
            what: What::Legs,
            limit: 256,
        },
    ),
];

// Why a script's text is refused.
fn refusal_of(alloc: Global, text: &[u8]) -> Result<Refusal, Fail> {
    if text.len() > 1_048_576 {
        return Err(Fail::new("a script of more bytes than a script file may have"));
    }
    let stop = check_script(alloc, text).err();
    match stop.ok_or("a script that is refused was accepted")? {
        CheckStop::Refused(refusal) => Ok(refusal),
        CheckStop::NoMemory => Err(Fail::new("no memory for a script that is refused")),
    }
}

#[test]
fn a_script_is_refused_for_its_first_fault(rt: HostRuntime) -> Result<(), Fail> {
    let alloc = rt.alloc();
    for (script, refusal) in REFUSALS {
        assert_eq!(rt; refusal_of(alloc, script.as_bytes())?, refusal);
    }
    for (front, piece, back, count, refusal) in REPEATED {
        let mut script = String::from_str(alloc, front)?;
        for number in 0..count {
            script.push_str(&piece.replace(alloc, "#", &number.to_string(alloc)?)?)?;
        }
        script.push_str(back)?;
        assert_eq!(rt; refusal_of(alloc, script.as_bytes())?, refusal);
    }
    Ok(())
}

// The earliest date that is shared is named, in whatever order the items stand.
#[test]
fn a_shared_date_is_named(rt: HostRuntime) -> Result<(), Fail> {
    let alloc = rt.alloc();
    let text = b"@2024-03-01 @2024-01-10 a pays 1 @2024-02-12 @2024-01-10 @2024-03-01";
    let date = Day::new(2024, 1, 10).unwrap();
    assert_eq!(rt; refusal_of(alloc, text)?, Refusal::SameDate { date });
    // It is asked before the legs.
    let mut script = String::from_str(alloc, "@2024-01-10 @2024-01-10 ")?;
    for number in 0..257_u32 {
        script.push_str("leg")?;
        script.push_str(&number.to_string(alloc)?)?;
        script.push_str(" pays 1 ")?;
    }
    assert_eq!(rt;
        refusal_of(alloc, script.as_bytes())?,
        Refusal::SameDate { date }
    );
    Ok(())
}
