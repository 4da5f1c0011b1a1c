//! Answers of the commands `check`, `events` and `explain`, over files in memory. Each is worked by hand.

use crate::reports::AUTOCALL;
use pay_edge::MemorySink;
use pay_harness::{ROOM, depot_with, status_of};
use std::test::Fail;

// A command, a script, and what the command writes for it.
const ANSWERS: [(&str, &str, &str); 7] = [
    ("check", AUTOCALL, "events 5\nvariables 2\nlegs 1\n"),
    ("check", "", "events 0\nvariables 0\nlegs 0\n"),
    // A name that is assigned twice, one that is only read, and one that is a variable and a leg.
    (
        "check",
        "schedule from @2024-01-01 to @2024-01-03 every 1 d do a = b a = 1 a pays a c pays b c pays 1 end",
        "events 2\nvariables 2\nlegs 2\n",
    ),
    (
        "events",
        "schedule from @2024-01-31 to @2024-05-15 every 1 m following do a pays days() end",
        "date,period,days\n2024-02-29,1,29\n2024-04-01,2,32\n2024-04-30,3,29\n2024-05-15,4,15\n",
    ),
    (
        "events",
        "schedule from @2024-01-31 to @2024-05-15 every 1 m modified do a pays days() end",
        "date,period,days\n2024-02-29,1,29\n2024-03-29,2,29\n2024-04-30,3,32\n2024-05-15,4,15\n",
    ),
    // Several items in order of date, and dates that a rule moves to one.
    (
        "events",
        "schedule from @2024-06-29 to @2024-07-03 every 1 d following do end @2024-06-30 schedule from @2024-05-30 to @2024-06-29 every 2 w do end",
        "date,period,days\n2024-06-13,1,14\n2024-06-27,2,14\n2024-06-29,3,2\n2024-06-30,0,0\n2024-07-01,1,0\n2024-07-02,3,1\n2024-07-03,4,1\n",
    ),
    ("events", "", "date,period,days\n"),
];

// Each of these answers is one piece.
#[test]
fn a_command_writes_its_answer(rt: HostRuntime) -> Result<(), Fail> {
    let alloc = rt.alloc();
    for (command, script, answer) in ANSWERS {
        let words = [command, "s.pay"];
        for (call, status, text) in [(1, 5, ""), (2, 0, answer)] {
            let mut depot = depot_with(alloc, script.as_bytes(), b"")?;
            let mut out = MemorySink::new(alloc, ROOM)?;
            out.fail_put(call)?;
            let mut err = MemorySink::new(alloc, ROOM)?;
            assert_eq!(rt;
                status_of(alloc, &words, &mut depot, &mut out, &mut err)?,
                status
            );
            assert_eq!(rt; out.text(), text.as_bytes());
        }
    }
    Ok(())
}

// A script of two events, what `explain` writes of the first one, and all that it writes.
const EXPLAINED: [(&str, &str, &str); 4] = [
    // An open `if`, and the number of each event's step.
    (
        "schedule from @2024-01-01 to @2024-01-03 every 1 d do if spot() > 0 then x = 1 else x = 2 endif y = x + period() end",
        "event 2024-01-02 period 1 days 1
  if spot() > 0 then // changes x
    x = 1;
  else
    x = 2;
  endif
  y = (x + 1);
  domain x: 1 | 2
  domain y: 2 | 3
",
        "event 2024-01-02 period 1 days 1
  if spot() > 0 then // changes x
    x = 1;
  else
    x = 2;
  endif
  y = (x + 1);
  domain x: 1 | 2
  domain y: 2 | 3
event 2024-01-03 period 2 days 1
  if spot() > 0 then // changes x
    x = 1;
  else
    x = 2;
  endif
  y = (x + 2);
  domain x: 1 | 2
  domain y: 3 | 4
",
    ),
    // A fixing, a decided `if`, and a variable that is only read.
    (
        "@2024-06-28 x = 4 - 1 @2024-07-01 if x = 3 then y = spot() else y = z endif",
        "event 2024-06-28 period 0 days 0
  x = 3;
  domain x: 3
  domain y: 0
  domain z: 0
",
        "event 2024-06-28 period 0 days 0
  x = 3;
  domain x: 3
  domain y: 0
  domain z: 0
event 2024-07-01 period 0 days 0
  y = spot();
  domain x: 3
  domain y: -100000000000 to 100000000000
  domain z: 0
",
    ),
    // A number that faults in every run: there is none that it can have.
    (
        "@2024-06-28 x = 1 / 0 @2024-07-01 a pays x",
        "event 2024-06-28 period 0 days 0
  x = (1 / 0);
  domain x: none
",
        "event 2024-06-28 period 0 days 0
  x = (1 / 0);
  domain x: none
event 2024-07-01 period 0 days 0
  a pays x;
  domain x: none
",
    ),
    // An `if` that is gone and its chosen branch in its place, an `else` without a step, and tests that are asked for their faults alone.
    (
        "@2024-06-28
  strike = 100
  if strike > 50 then
    if spot() >= strike then alive = 1 else fee pays -1 endif
  else
    alive = 2
  endif
@2024-07-01
  if spot() * 0 = 0 and alive <= 1 then
    if 10 / alive < 0 or alive = 1 then opt pays spot() - strike else if alive = 2 then fee pays 2 endif endif
  else
    strike = 1
  endif",
        "event 2024-06-28 period 0 days 0
  strike = 100;
  if spot() >= 100 then // changes alive
    alive = 1;
  else
    fee pays -1;
  endif
  domain strike: 100
  domain alive: 0 | 1
",
        "event 2024-06-28 period 0 days 0
  strike = 100;
  if spot() >= 100 then // changes alive
    alive = 1;
  else
    fee pays -1;
  endif
  domain strike: 100
  domain alive: 0 | 1
event 2024-07-01 period 0 days 0
  if sure(true, (spot() * 0) = 0) then // changes nothing
    if (sure(false, (10 / alive) < 0) or alive = 1) then // changes nothing
      opt pays (spot() - 100);
    endif
  endif
  domain strike: 100
  domain alive: 0 | 1
",
    ),
];

// Each event is one piece: where the second put fails, what is said of the first event was put.
#[test]
fn each_event_is_explained(rt: HostRuntime) -> Result<(), Fail> {
    let alloc = rt.alloc();
    for (script, first, whole) in EXPLAINED {
        for (call, status, text) in [(1, 5, ""), (2, 5, first), (3, 0, whole)] {
            let mut depot = depot_with(alloc, script.as_bytes(), b"")?;
            let mut out = MemorySink::new(alloc, ROOM)?;
            out.fail_put(call)?;
            let mut err = MemorySink::new(alloc, ROOM)?;
            assert_eq!(rt;
                status_of(alloc, &["explain", "s.pay"], &mut depot, &mut out, &mut err)?,
                status
            );
            assert_eq!(rt; out.text(), text.as_bytes());
        }
    }
    Ok(())
}

// A script, and all that `explain` writes of it.
const EXPLAINED_WHOLE: [(&str, &str); 5] = [
    // The branch that is not chosen is gone, with its fault.
    (
        "@2024-06-28 if alive = 0 then a pays 1 else a pays 1/0 endif",
        "event 2024-06-28 period 0 days 0
  a pays 1;
  domain alive: 0
",
    ),
    // The condition is always true, and stays for the fixing that may be missing.
    (
        "@2024-06-28 if spot() * 0 = 0 then a pays 1 endif",
        "event 2024-06-28 period 0 days 0
  if sure(true, (spot() * 0) = 0) then // changes nothing
    a pays 1;
  endif
",
    ),
    // Numbers of either sign, and their products.
    (
        "@2024-06-28 if spot() > 0 then x = -1 else x = 2 endif if spot() > 5 then y = -3 else y = 4 endif z = x * y",
        "event 2024-06-28 period 0 days 0
  if spot() > 0 then // changes x
    x = -1;
  else
    x = 2;
  endif
  if spot() > 5 then // changes y
    y = -3;
  else
    y = 4;
  endif
  z = (x * y);
  domain x: -1 | 2
  domain y: -3 | 4
  domain z: -6 | -4 | 3 | 8
",
    ),
    // Of 17 numbers the two that lie closest are one piece.
    (
        "@2024-06-28 x = 0
  if spot() > 1 then x = 1 endif if spot() > 2 then x = 2 endif if spot() > 3 then x = 3 endif if spot() > 4 then x = 4 endif
  if spot() > 5 then x = 5 endif if spot() > 6 then x = 6 endif if spot() > 7 then x = 7 endif if spot() > 8 then x = 8 endif
  if spot() > 9 then x = 9 endif if spot() > 10 then x = 10 endif if spot() > 11 then x = 11 endif if spot() > 12 then x = 12 endif
  if spot() > 13 then x = 13 endif if spot() > 14 then x = 14 endif if spot() > 15 then x = 15 endif if spot() > 16 then x = 16 endif",
        "event 2024-06-28 period 0 days 0
  x = 0;
  if spot() > 1 then // changes x
    x = 1;
  endif
  if spot() > 2 then // changes x
    x = 2;
  endif
  if spot() > 3 then // changes x
    x = 3;
  endif
  if spot() > 4 then // changes x
    x = 4;
  endif
  if spot() > 5 then // changes x
    x = 5;
  endif
  if spot() > 6 then // changes x
    x = 6;
  endif
  if spot() > 7 then // changes x
    x = 7;
  endif
  if spot() > 8 then // changes x
    x = 8;
  endif
  if spot() > 9 then // changes x
    x = 9;
  endif
  if spot() > 10 then // changes x
    x = 10;
  endif
  if spot() > 11 then // changes x
    x = 11;
  endif
  if spot() > 12 then // changes x
    x = 12;
  endif
  if spot() > 13 then // changes x
    x = 13;
  endif
  if spot() > 14 then // changes x
    x = 14;
  endif
  if spot() > 15 then // changes x
    x = 15;
  endif
  if spot() > 16 then // changes x
    x = 16;
  endif
  domain x: 0 | 1 | 2 | 3 | 4 | 5 | 6 | 7 | 8 | 9 | 10 | 11 | 12 | 13 | 14 | 15 to 16
",
    ),
    // A variable that an open `if` changes, read at a further event.
    (
        "@2024-01-10 alive = 1 if spot() > 100 then alive = 0 endif @2024-02-12 if alive = 1 then a pays 10 endif",
        "event 2024-01-10 period 0 days 0
  alive = 1;
  if spot() > 100 then // changes alive
    alive = 0;
  endif
  domain alive: 0 | 1
event 2024-02-12 period 0 days 0
  if alive = 1 then // changes nothing
    a pays 10;
  endif
  domain alive: 0 | 1
",
    ),
];

#[test]
fn a_script_is_explained(rt: HostRuntime) -> Result<(), Fail> {
    let alloc = rt.alloc();
    for (script, text) in EXPLAINED_WHOLE {
        let mut depot = depot_with(alloc, script.as_bytes(), b"")?;
        let mut out = MemorySink::new(alloc, ROOM)?;
        let mut err = MemorySink::new(alloc, ROOM)?;
        assert_eq!(rt;
            status_of(alloc, &["explain", "s.pay"], &mut depot, &mut out, &mut err)?,
            0
        );
        assert_eq!(rt; out.text(), text.as_bytes());
    }
    Ok(())
}
