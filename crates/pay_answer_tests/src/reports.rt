//! Reports of runs over files in memory. Each is worked by hand.

use pay_edge::MemorySink;
use pay_harness::{REPORT, ROOM, SCRIPT, TABLE, depot_with, ends};
use std::test::Fail;

// A yearly autocall on one index.
pub const AUTOCALL: &str = "// autocall on one index
@2024-03-15  Alive = 1;  base = spot()
schedule from @2024-03-15 to @2027-03-15 every 1 y following do
  if alive = 1 then
    if spot() >= base then note pays 100 + 6 * period(); alive = 0 endif
  endif
end
@2027-03-17
  if alive = 1 then note pays min(100, 100 * spot() / base) endif
";

// A script, a table, and the report of the script over the table.
const REPORTS: [(&str, &str, &str); 30] = [
    (SCRIPT, TABLE, REPORT),
    // A table as a spreadsheet writes it.
    (
        "@2024-06-28 x pays spot()",
        "\u{feff}Scenario,2024-06-28\r\na, 100.123456789012345 \r\nb,1e-05\r\n\"c\",\"5e-05\"\r\n",
        "scenario,date,leg,amount\na,2024-06-28,x,100.1235\nb,2024-06-28,x,0\nc,2024-06-28,x,0.0001\n#nodes,6,,\n",
    ),
    // Several payments, and a value that is rounded away from zero.
    (
        "@2024-06-28 opt pays spot() fee pays 2.5;",
        "scenario,2024-06-28\nup,112.5\nlow,-0.00005\n",
        "scenario,date,leg,amount\nup,2024-06-28,opt,112.5\nup,2024-06-28,fee,2.5\nlow,2024-06-28,opt,-0.0001\nlow,2024-06-28,fee,2.5\n#nodes,8,,\n",
    ),
    // An empty cell, and a scenario after it.
    (
        "@2024-06-28 opt pays spot() fee pays 2.5;",
        "scenario,2024-06-28\ngone,\nup,1\n",
        "scenario,date,leg,amount\ngone,2024-06-28,!missing fixing,\nup,2024-06-28,opt,1\nup,2024-06-28,fee,2.5\n#nodes,5,,\n",
    ),
    // An event that faults pays nothing, and the payments of the event before it stand.
    (
        "@2024-01-10 a pays 1 @2024-02-12 a pays 2 x = spot()",
        "scenario,2024-01-10\ns,100\n",
        "scenario,date,leg,amount\ns,2024-01-10,a,1\ns,2024-02-12,!missing fixing,\n#nodes,5,,\n",
    ),
    // Events run in order of date. A variable that was never assigned is 0, and a name is a variable and a leg.
    (
        "@2024-02-12 A pays a - 1 + b @2024-01-10 a = 3; a pays 0",
        "scenario\ns\n",
        "scenario,date,leg,amount\ns,2024-01-10,a,0\ns,2024-02-12,a,2\n#nodes,6,,\n",
    ),
    // Signs group to the left.
    (
        "@2024-06-28 a pays 10 - 3 - 2",
        "scenario\ns\n",
        "scenario,date,leg,amount\ns,2024-06-28,a,5\n#nodes,2,,\n",
    ),
    // The greatest amount, and one beyond it.
    (
        "@2024-06-28 a pays 100000000000000",
        "scenario\ns\n",
        "scenario,date,leg,amount\ns,2024-06-28,a,100000000000000\n#nodes,2,,\n",
    ),
    (
        "@2024-06-28 a pays 100000000000000 + 0.0001",
        "scenario\ns\n",
        "scenario,date,leg,amount\ns,2024-06-28,!overflow,\n#nodes,3,,\n",
    ),
    // A call, and a product in place of a refusal.
    (
        "@2024-06-28 opt pays max(0, spot() - 100)",
        "scenario,2024-06-28\nup,112.5\ndown,90\n",
        "scenario,date,leg,amount\nup,2024-06-28,opt,12.5\ndown,2024-06-28,opt,0\n#nodes,12,,\n",
    ),
    (
        "@2024-01-10 a pays 2 * 3",
        "scenario\ns\n",
        "scenario,date,leg,amount\ns,2024-01-10,a,6\n#nodes,2,,\n",
    ),
    // Products and quotients are rounded to four places, a half away from zero.
    (
        "@2024-06-28 a pays 0.0001 * 0.5 b pays -0.0001 * 0.5",
        "scenario\ns\n",
        "scenario,date,leg,amount\ns,2024-06-28,a,0.0001\ns,2024-06-28,b,-0.0001\n#nodes,4,,\n",
    ),
    (
        "@2024-06-28 a pays 1/3 a pays 2/3 a pays -2/3",
        "scenario\ns\n",
        "scenario,date,leg,amount\ns,2024-06-28,a,0.3333\ns,2024-06-28,a,0.6667\ns,2024-06-28,a,-0.6667\n#nodes,6,,\n",
    ),
    // The first fault from the left: a missing fixing before a zero divisor, and a zero divisor before an overflow.
    (
        "@2024-01-10 a pays 1 @2024-02-12 a pays 2 x = spot() a pays 1/0",
        "scenario,2024-01-10\ns,100\n",
        "scenario,date,leg,amount\ns,2024-01-10,a,1\ns,2024-02-12,!missing fixing,\n#nodes,5,,\n",
    ),
    (
        "@2024-06-28 a pays 100000000000000 / 0 * 10",
        "scenario\ns\n",
        "scenario,date,leg,amount\ns,2024-06-28,!zero divisor,\n#nodes,3,,\n",
    ),
    // A minus sign binds closer than a product, a product closer than a sum, and brackets group.
    (
        "@2024-06-28 a pays -(1+2)*4 - 3; a pays 12/3/2; a pays min(3, 1, 2) + abs(-4); a pays - -1",
        "scenario\ns\n",
        "scenario,date,leg,amount\ns,2024-06-28,a,-15\ns,2024-06-28,a,2\ns,2024-06-28,a,5\ns,2024-06-28,a,1\n#nodes,8,,\n",
    ),
    // A byte order mark, comments, and words in either case; in a plain item the period and the days are 0.
    (
        "\u{feff}// for Zürich\n@2024-06-28 A PAYS Period() // 1\n + days() //",
        "scenario\ns\n",
        "scenario,date,leg,amount\ns,2024-06-28,a,0\n#nodes,2,,\n",
    ),
    // One branch runs, and the other can't fault.
    (
        "@2024-06-28 if alive = 0 then a pays 1 else a pays 1/0 endif",
        "scenario\ns\n",
        "scenario,date,leg,amount\ns,2024-06-28,a,1\n#nodes,2,,\n",
    ),
    // A condition is asked for its faults though it could only be true.
    (
        "@2024-06-28 if spot() * 0 = 0 then a pays 1 endif",
        "scenario,2024-06-28\nhere,100\ngone,\n",
        "scenario,date,leg,amount\nhere,2024-06-28,a,1\ngone,2024-06-28,!missing fixing,\n#nodes,9,,\n",
    ),
    // A skipped right side can't fault, and one that is not skipped can.
    (
        "@2024-06-28 if 1 = 2 and spot() < 0 then a pays 1 else a pays 2 endif",
        "scenario\ns\n",
        "scenario,date,leg,amount\ns,2024-06-28,a,2\n#nodes,2,,\n",
    ),
    (
        "@2024-06-28 if (1 + 1) * 2 > 3 and not (1 = 2 or spot() < 0) then a pays 1 endif",
        "scenario\ns\n",
        "scenario,date,leg,amount\ns,2024-06-28,!missing fixing,\n#nodes,1,,\n",
    ),
    // Brackets of conditions.
    (
        "@2024-06-28 if ((1 < 2)) then a pays 1 endif;",
        "scenario\ns\n",
        "scenario,date,leg,amount\ns,2024-06-28,a,1\n#nodes,2,,\n",
    ),
    // An `else` belongs to the innermost `if` that is open.
    (
        "@2024-06-28 if 1 = 1 then if 1 = 2 then a pays 1 else a pays 2 endif endif if 1 = 2 then if 1 = 2 then endif else a pays 3 endif",
        "scenario\ns\n",
        "scenario,date,leg,amount\ns,2024-06-28,a,2\ns,2024-06-28,a,3\n#nodes,4,,\n",
    ),
    // `not` binds closer than `and`, and `and` closer than `or`.
    (
        "@2024-06-28 if not 1 = 1 and 1 = 2 then a pays 1 endif if 1 = 1 or 1 = 1 and 1 = 2 then a pays 2 endif",
        "scenario\ns\n",
        "scenario,date,leg,amount\ns,2024-06-28,a,2\n#nodes,2,,\n",
    ),
    // Comparisons below, at and above a number.
    (
        "@2024-06-28 if spot() < 1 then a pays 1 endif if spot() <= 1 then a pays 2 endif if spot() > 1 then a pays 3
endif if spot() >= 1 then a pays 4 endif if spot() = 1 then a pays 5 endif if spot() != 1 then a pays 6 endif",
        "scenario,2024-06-28\nb,0.9999\nc,1\nd,1.0001\n",
        "scenario,date,leg,amount
b,2024-06-28,a,1
b,2024-06-28,a,2
b,2024-06-28,a,6
c,2024-06-28,a,2
c,2024-06-28,a,4
c,2024-06-28,a,5
d,2024-06-28,a,3
d,2024-06-28,a,4
d,2024-06-28,a,6
#nodes,90,,
",
    ),
    // The events of a schedule, with its days, among which a plain item stands.
    (
        "schedule from @2024-01-31 to @2024-05-15 every 1 m following do a pays days() + x end @2024-04-29 x = 100",
        "scenario\ns\n",
        "scenario,date,leg,amount\ns,2024-02-29,a,29\ns,2024-04-01,a,32\ns,2024-04-30,a,129\ns,2024-05-15,a,115\n#nodes,10,,\n",
    ),
    // An event of a schedule that faults ends the scenario.
    (
        "schedule from @2024-01-01 to @2024-01-04 every 1 d do a pays spot() * period() end",
        "scenario,2024-01-02,2024-01-03,2024-01-04\ns,1,2,3\nt,1,,3\n",
        "scenario,date,leg,amount\ns,2024-01-02,a,1\ns,2024-01-03,a,4\ns,2024-01-04,a,9\nt,2024-01-02,a,1\nt,2024-01-03,!missing fixing,\n#nodes,17,,\n",
    ),
    // An autocall that is redeemed at its second date, and one that lasts to the end.
    (
        AUTOCALL,
        "scenario,2024-03-15,2025-03-17,2026-03-16,2027-03-15,2027-03-17\nup,5000,4800,5100,5200,5200\nflat,5000,4800,4900,4950,4950\n",
        "scenario,date,leg,amount\nup,2026-03-16,note,112\nflat,2027-03-17,note,99\n#nodes,64,,\n",
    ),
    // Units are names elsewhere, and a count may have zeros before it.
    (
        "schedule from @2024-01-31 to @2024-02-29 every 0001 M do d = 2 w = d y pays w m pays d * w end",
        "scenario\ns\n",
        "scenario,date,leg,amount\ns,2024-02-29,y,2\ns,2024-02-29,m,4\n#nodes,8,,\n",
    ),
    // Nothing to run.
    ("", "scenario\n", "scenario,date,leg,amount\n#nodes,0,,\n"),
];

#[test]
fn a_run_writes_what_the_script_means(rt: HostRuntime) -> Result<(), Fail> {
    let alloc = rt.alloc();
    for (script, table, report) in REPORTS {
        let mut depot = depot_with(alloc, script.as_bytes(), table.as_bytes())?;
        let mut out = MemorySink::new(alloc, ROOM)?;
        ends(alloc, &mut depot, &mut out, 0, report)?;
    }
    Ok(())
}

// What opens a form and what closes it, on both sides of a middle, and how often: as deep as the limits of tokens allow.
const DEEPEST: [(&str, &str, &str, &str, &str, usize); 4] = [
    ("", "if 1 = 1 then ", "a pays 1 ", "endif ", "", 96),
    (
        "",
        "if 1 = 2 then a pays 2 else ",
        "a pays 1 ",
        "endif ",
        "",
        96,
    ),
    ("if ", "(", "1 = 1", ")", " then a pays 1 endif", 96),
    ("if ", "(", "1 = 1", ")", " then a pays 1 endif", 100),
];

#[test]
fn the_deepest_ifs_and_brackets_run(rt: HostRuntime) -> Result<(), Fail> {
    let alloc = rt.alloc();
    for (front, opening, middle, closing, back, count) in DEEPEST {
        let mut script = String::from_str(alloc, "@2024-06-28 ")?;
        script.push_str(front)?;
        for _ in 0..count {
            script.push_str(opening)?;
        }
        script.push_str(middle)?;
        for _ in 0..count {
            script.push_str(closing)?;
        }
        script.push_str(back)?;
        let mut depot = depot_with(alloc, script.as_bytes(), b"scenario\ns\n")?;
        let mut out = MemorySink::new(alloc, ROOM)?;
        let report = "scenario,date,leg,amount\ns,2024-06-28,a,1\n#nodes,2,,\n";
        ends(alloc, &mut depot, &mut out, 0, report)?;
    }
    Ok(())
}
