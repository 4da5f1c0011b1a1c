//! The lines that say why an input is refused. Nothing else is put.

use pay_edge::MemorySink;
use pay_harness::{ROOM, SCRIPT, TABLE, depot_with, ends, line_of};
use std::test::Fail;

// A script, a table, and the line to `err` where one of them is refused.
const LINES: [(&str, &str, &str); 20] = [
    (
        "@2024-02-30",
        TABLE,
        "payscript: s.pay: byte 0: no token begins here\n",
    ),
    (
        "@2024-06-28 a pays 100000000000000.0001",
        TABLE,
        "payscript: s.pay: byte 19: token too large\n",
    ),
    (
        "@2024-06-28 a pays (((((((((((((((((((((((((((((((((((((((((((((((((((((((((((((((((((((((((((((((((((((((((((((((((((((",
        TABLE,
        "payscript: s.pay: byte 119: nested too deep\n",
    ),
    (
        "@2024-06-28 a pays 1 < 2",
        TABLE,
        "payscript: s.pay: not a script\n",
    ),
    (
        "@2024-01-10 a pays 1 @2024-01-10 a pays 2",
        TABLE,
        "payscript: s.pay: two events on 2024-01-10\n",
    ),
    (
        "@2024-01-10 schedule from @2024-01-31 to @2024-01-31 every 1 m do end",
        TABLE,
        "payscript: s.pay: item 2: bad schedule\n",
    ),
    (
        "schedule from @2024-01-31 to @2024-05-15 every 1 m following do a pays days() end @2024-04-30 a pays 1",
        TABLE,
        "payscript: s.pay: two events on 2024-04-30\n",
    ),
    (
        "schedule from @1900-01-01 to @2199-12-31 every 1 d do end",
        TABLE,
        "payscript: s.pay: more than 4096 events\n",
    ),
    (SCRIPT, "", "payscript: t.csv: bad header\n"),
    (
        SCRIPT,
        "name,2024-06-28\n",
        "payscript: t.csv: bad header\n",
    ),
    (
        SCRIPT,
        "scenario,28/06/2024",
        "payscript: t.csv: place 2: bad date\n",
    ),
    (
        SCRIPT,
        "scenario,2024-06-28,2024-06-28",
        "payscript: t.csv: place 3: repeated date\n",
    ),
    (
        SCRIPT,
        "scenario,2024-06-28\na,1,2",
        "payscript: t.csv: row 1: wrong number of fields\n",
    ),
    (
        SCRIPT,
        "scenario,2024-06-28\na b,1",
        "payscript: t.csv: row 1: bad name\n",
    ),
    (
        SCRIPT,
        "scenario,2024-06-28\na,1e11\nb,1e12",
        "payscript: t.csv: row 2, column 2: bad number\n",
    ),
    // Of several faults the first: a header before its dates, a date before a row, a number of fields before the fields, a row before the next.
    (
        SCRIPT,
        "scenarios,2024-06-28,2024-06-28\n",
        "payscript: t.csv: bad header\n",
    ),
    (
        SCRIPT,
        "scenario,2024-06-28,2024-06-28,x\na b,1",
        "payscript: t.csv: place 3: repeated date\n",
    ),
    (
        SCRIPT,
        "scenario,2024-06-28\na b,x,1\nc",
        "payscript: t.csv: row 1: wrong number of fields\n",
    ),
    (
        SCRIPT,
        "scenario,2024-06-28\na b,x\nc",
        "payscript: t.csv: row 1: bad name\n",
    ),
    // The script is looked at first.
    ("1", "", "payscript: s.pay: not a script\n"),
];

#[test]
fn a_refused_input_puts_nothing_but_its_line(rt: HostRuntime) -> Result<(), Fail> {
    let alloc = rt.alloc();
    for (script, table, line) in LINES {
        let mut depot = depot_with(alloc, script.as_bytes(), table.as_bytes())?;
        let mut out = MemorySink::new(alloc, ROOM)?;
        ends(alloc, &mut depot, &mut out, 3, "")?;
        assert_eq!(rt;
            line_of(alloc, &["run", "s.pay", "t.csv"], &mut depot)?.text(),
            line.as_bytes()
        );
    }
    Ok(())
}

// Past fixings that are refused, and the line. The table is refused too.
const PAST_LINES: [(&str, &str); 9] = [
    ("", "payscript: p.csv: bad header\n"),
    ("date,value,source\n", "payscript: p.csv: bad header\n"),
    (
        "date,value\n2024-03-15,1,\n",
        "payscript: p.csv: row 1: wrong number of fields\n",
    ),
    (
        "date,value\n2024-03-15,\n15.03.2025,2\n",
        "payscript: p.csv: place 2: bad date\n",
    ),
    (
        "date,value\n2024-03-15,1\n2024-03-15,2\n",
        "payscript: p.csv: place 2: repeated date\n",
    ),
    (
        "date,value\n2024-03-15,1e11\n2024-03-16,1e12\n",
        "payscript: p.csv: row 2, column 2: bad number\n",
    ),
    // Of several faults the first.
    ("date,values\nx,x", "payscript: p.csv: bad header\n"),
    (
        "date,value\nx,x\nx",
        "payscript: p.csv: place 1: bad date\n",
    ),
    (
        "date,value\n2024-03-15,x\n2024-03-15,1",
        "payscript: p.csv: row 1, column 2: bad number\n",
    ),
];

#[test]
fn past_fixings_are_asked_before_the_scenarios(rt: HostRuntime) -> Result<(), Fail> {
    let alloc = rt.alloc();
    let words = [
        "run",
        "s.pay",
        "t.csv",
        "--asof",
        "2024-03-15",
        "--fixings",
        "p.csv",
    ];
    for (past, line) in PAST_LINES {
        let mut depot = depot_with(alloc, SCRIPT.as_bytes(), b"")?;
        depot.add("p.csv", past.as_bytes())?;
        assert_eq!(rt; line_of(alloc, &words, &mut depot)?.text(), line.as_bytes());
    }
    Ok(())
}
