//! Fetches that fail, and a file that is too long: which status they end with, and that no later input is fetched.

use pay_edge::{Depot, FetchFault, MemorySink};
use pay_harness::{REPORT, ROOM, SCRIPT, TABLE, depot_with, ends, status_of};
use std::test::Fail;

// Each file is read by two fetches: its bytes, and then none.
#[test]
fn a_failing_fetch_puts_nothing(rt: HostRuntime) -> Result<(), Fail> {
    let alloc = rt.alloc();
    for (call, status) in [(1, 4), (2, 4), (3, 4), (4, 4), (5, 0)] {
        let mut depot = depot_with(alloc, SCRIPT.as_bytes(), TABLE.as_bytes())?;
        depot.fail_fetch(call)?;
        let mut out = MemorySink::new(alloc, ROOM)?;
        let text = if status == 0 { REPORT } else { "" };
        ends(alloc, &mut depot, &mut out, status, text)?;
    }
    Ok(())
}

// A script that is refused takes two fetches, and the table none: the third fetch, which is to fail, is still to come.
#[test]
fn a_refused_script_ends_the_fetches(rt: HostRuntime) -> Result<(), Fail> {
    let alloc = rt.alloc();
    let mut depot = depot_with(alloc, b"no script", TABLE.as_bytes())?;
    depot.fail_fetch(3)?;
    let mut out = MemorySink::new(alloc, ROOM)?;
    ends(alloc, &mut depot, &mut out, 3, "")?;
    let mut buffer = [0u8; 1];
    assert!(rt; depot.fetch("t.csv", 0, &mut buffer) == Err(FetchFault::Failed));
    Ok(())
}

// The words of a run with past fixings.
const PAST_WORDS: [&str; 7] = [
    "run",
    "s.pay",
    "t.csv",
    "--fixings",
    "p.csv",
    "--asof",
    "2024-06-28",
];

// Past fixings, a fetch that fails, and the status. Each of the three files that is read whole takes two fetches; past fixings that
// are refused are the last input that is fetched.
const PAST_FETCHES: [(&str, u64, u8); 9] = [
    ("date,value\n2024-06-28,112.5\n", 1, 4),
    ("date,value\n2024-06-28,112.5\n", 2, 4),
    ("date,value\n2024-06-28,112.5\n", 3, 4),
    ("date,value\n2024-06-28,112.5\n", 4, 4),
    ("date,value\n2024-06-28,112.5\n", 5, 4),
    ("date,value\n2024-06-28,112.5\n", 6, 4),
    ("date,value\n2024-06-28,112.5\n", 7, 0),
    ("date\n", 4, 4),
    ("date\n", 5, 3),
];

#[test]
fn past_fixings_are_fetched_between_the_script_and_the_scenarios(
    rt: HostRuntime,
) -> Result<(), Fail> {
    let alloc = rt.alloc();
    for (past, call, status) in PAST_FETCHES {
        let mut depot = depot_with(alloc, SCRIPT.as_bytes(), TABLE.as_bytes())?;
        depot.add("p.csv", past.as_bytes())?;
        depot.fail_fetch(call)?;
        let mut out = MemorySink::new(alloc, ROOM)?;
        let mut err = MemorySink::new(alloc, ROOM)?;
        assert_eq!(rt;
            status_of(alloc, &PAST_WORDS, &mut depot, &mut out, &mut err)?,
            status
        );
        assert_eq!(rt; out.text().is_empty(), status != 0);
        if status != 4 {
            // The fetch that is to fail is still to come.
            let mut buffer = [0u8; 1];
            assert!(rt; depot.fetch("t.csv", 0, &mut buffer) == Err(FetchFault::Failed));
        }
    }
    Ok(())
}

#[test]
fn a_file_may_be_as_long_as_its_limit(rt: HostRuntime) -> Result<(), Fail> {
    let alloc = rt.alloc();
    let report = "scenario,date,leg,amount\n#nodes,0,,\n";
    for (size, status, text) in [(1_048_576, 0, report), (1_048_577, 3, "")] {
        let script = vec![in alloc; b' '; size]?;
        let mut depot = depot_with(alloc, script.as_slice(), b"scenario\n")?;
        let mut out = MemorySink::new(alloc, ROOM)?;
        ends(alloc, &mut depot, &mut out, status, text)?;
    }
    Ok(())
}
