//! Puts that fail, and sinks without room: into which pieces a report is cut, and which status the run ends with.

use pay_edge::MemorySink;
use pay_harness::{REPORT, ROOM, SCRIPT, TABLE, depot_with, ends, status_of};
use std::test::Fail;

// A put that fails, the status, and the pieces before it: the header, the lines of each scenario that has lines, the
// last line.
const PIECES: [(u64, u8, &str); 5] = [
    (1, 5, ""),
    (2, 5, "scenario,date,leg,amount\n"),
    (3, 5, "scenario,date,leg,amount\nup,2024-06-28,opt,12.5\n"),
    (
        4,
        5,
        "scenario,date,leg,amount\nup,2024-06-28,opt,12.5\ndown,2024-06-28,opt,-10\n",
    ),
    (5, 0, REPORT),
];

#[test]
fn a_failing_put_leaves_the_pieces_before_it(rt: HostRuntime) -> Result<(), Fail> {
    let alloc = rt.alloc();
    for (call, status, text) in PIECES {
        let mut depot = depot_with(alloc, SCRIPT.as_bytes(), TABLE.as_bytes())?;
        let mut out = MemorySink::new(alloc, ROOM)?;
        out.fail_put(call)?;
        ends(alloc, &mut depot, &mut out, status, text)?;
    }
    Ok(())
}

#[test]
fn a_sink_without_room_has_a_front(rt: HostRuntime) -> Result<(), Fail> {
    let alloc = rt.alloc();
    let mut depot = depot_with(alloc, SCRIPT.as_bytes(), TABLE.as_bytes())?;
    let mut out = MemorySink::new(alloc, 50)?;
    let front = "scenario,date,leg,amount\nup,2024-06-28,opt,12.5\n";
    ends(alloc, &mut depot, &mut out, 5, front)
}

// Words, the room of the output, and the status that they end with where nothing can be put to `err`.
const UNTOLD: [(&[&str], u32, u8); 6] = [
    (&["run", "s.pay", "t.csv"], ROOM, 0),
    (&[], ROOM, 2),
    (&["run", "t.csv", "t.csv"], ROOM, 3),
    (&["check", "t.csv"], ROOM, 3),
    (&["events", "absent"], ROOM, 4),
    (&["run", "s.pay", "t.csv"], 0, 5),
];

#[test]
fn a_failing_err_changes_no_status(rt: HostRuntime) -> Result<(), Fail> {
    let alloc = rt.alloc();
    for (words, room, status) in UNTOLD {
        let mut depot = depot_with(alloc, SCRIPT.as_bytes(), TABLE.as_bytes())?;
        let mut out = MemorySink::new(alloc, room)?;
        let mut err = MemorySink::new(alloc, ROOM)?;
        err.fail_put(1)?;
        assert_eq!(rt;
            status_of(alloc, words, &mut depot, &mut out, &mut err)?,
            status
        );
        assert!(rt; err.text().is_empty());
    }
    Ok(())
}
