//! Reports under past fixings, over files in memory. Each is worked by hand.

use pay_edge::MemorySink;
use pay_harness::{ROOM, depot_with, status_of};
use std::test::Fail;

// Past fixings and their as-of date, and the report of the script of two dates and the table of one scenario below.
const PAST_REPORTS: [(&str, &str, &str); 7] = [
    (
        "date,value\n2024-03-15,5000\n2025-03-17,4800\n",
        "2024-12-31",
        "scenario,date,leg,amount\ns,2024-03-15,a,5000\ns,2025-03-17,a,2\n#nodes,4,,\n",
    ),
    (
        "date,value\n2024-03-15,5000\n2025-03-17,4800\n",
        "2024-01-01",
        "scenario,date,leg,amount\ns,2024-03-15,a,1\ns,2025-03-17,a,2\n#nodes,4,,\n",
    ),
    // The as-of date itself is past.
    (
        "date,value\n2024-03-15,5000\n2025-03-17,4800\n",
        "2025-03-17",
        "scenario,date,leg,amount\ns,2024-03-15,a,5000\ns,2025-03-17,a,4800\n#nodes,4,,\n",
    ),
    (
        "date,value\n2024-03-15,5000\n2025-03-17,4800\n",
        "2025-03-16",
        "scenario,date,leg,amount\ns,2024-03-15,a,5000\ns,2025-03-17,a,2\n#nodes,4,,\n",
    ),
    // An empty past value, and one that is not there, are no fixing, whatever the scenario has.
    (
        "date,value\n2024-03-15,\n2025-03-17,4800\n",
        "2024-12-31",
        "scenario,date,leg,amount\ns,2024-03-15,!missing fixing,\n#nodes,1,,\n",
    ),
    (
        "date,value\n2025-03-17,4800\n",
        "2024-03-15",
        "scenario,date,leg,amount\ns,2024-03-15,!missing fixing,\n#nodes,1,,\n",
    ),
    // Past fixings may stand in any order.
    (
        "\u{feff}Date,\"Value\"\r\n2025-03-17, 4.8e3 \r\n\r\n2024-03-15,\"5000\"",
        "2025-03-17",
        "scenario,date,leg,amount\ns,2024-03-15,a,5000\ns,2025-03-17,a,4800\n#nodes,4,,\n",
    ),
];

#[test]
fn past_fixings_stand_up_to_the_as_of_date(rt: HostRuntime) -> Result<(), Fail> {
    let alloc = rt.alloc();
    let script = b"@2024-03-15 a pays spot() @2025-03-17 a pays spot()";
    let table = b"scenario,2024-03-15,2025-03-17\ns,1,2\n";
    for (past, asof, report) in PAST_REPORTS {
        let mut depot = depot_with(alloc, script, table)?;
        depot.add("p.csv", past.as_bytes())?;
        let words = [
            "run",
            "s.pay",
            "t.csv",
            "--fixings",
            "p.csv",
            "--asof",
            asof,
        ];
        let mut out = MemorySink::new(alloc, ROOM)?;
        let mut err = MemorySink::new(alloc, ROOM)?;
        assert_eq!(rt;
            status_of(alloc, &words, &mut depot, &mut out, &mut err)?,
            0
        );
        assert_eq!(rt; out.text(), report.as_bytes());
    }
    Ok(())
}
