//! Tests of files that are read, and of what is refused first.

use pay_dates::{Day, read_day, write_day};
use pay_roll::What;
use pay_tables::{Past, TableRefusal, read_fixings, read_scenarios};
use std::alloc::Global;
use std::test::Fail;

#[test]
fn no_past_fixings_have_no_rows(rt: HostRuntime) -> Result<(), Fail> {
    assert!(rt; Past::none(rt.alloc()).rows.is_empty());
    Ok(())
}

// Files that show which records and fields `csv` gives: how many records there are, what stands in them, and what a mark, a quote and a blank are.
const RECORDS: &[(&[u8], TableRefusal)] = &[
    (b"", TableRefusal::BadHeader),
    (b"\xEF\xBB\xBF\r\n\n\r", TableRefusal::BadHeader),
    (
        b"\xEF\xBB\xBF\"scenario\",2024-06-28\r\n\r\na,\rb,,\n",
        TableRefusal::BadRow { row: 2 },
    ),
    (
        b"\xEF\xBB\xBF\xEF\xBB\xBFscenario,x",
        TableRefusal::BadDate { place: 2 },
    ),
    (
        b"\xEF\xBB\xBF\xEF\xBB\xBF\xEF\xBB\xBFscenario,x",
        TableRefusal::BadHeader,
    ),
    (
        b" scenario\t,\t2024-06-28 \n\"\tb \",1\nc,x",
        TableRefusal::BadCell { row: 2, column: 2 },
    ),
    (
        b"scenario,2024-06-28\n\"a\",\"1\"\nb,\"1,5\"",
        TableRefusal::BadCell { row: 2, column: 2 },
    ),
    (
        b"scenario,2024-06-28\na,\"1\n\"",
        TableRefusal::BadCell { row: 1, column: 2 },
    ),
    (
        b"scenario, \"2024-06-28\"",
        TableRefusal::BadDate { place: 2 },
    ),
];

#[test]
fn records_are_those_of_the_file(rt: HostRuntime) -> Result<(), Fail> {
    for &(bytes, wanted) in RECORDS {
        assert_eq!(rt; read_scenarios(rt.alloc(), bytes).err(), Some(wanted));
    }
    Ok(())
}

// With a byte order mark, quotes, blanks, CR LF and an empty line.
const SCENARIOS: &[u8] =
    b"\xEF\xBB\xBFScenario,\"2024-06-28\", 2024-12-30\t\r\n\r\nup,112.5,118\r\n\"gone-2\",,\"-0.0001\"\r\n";

#[test]
fn a_table_as_a_spreadsheet_writes_it_is_read(rt: HostRuntime) -> Result<(), Fail> {
    let table = read_scenarios(rt.alloc(), SCENARIOS).ok().ok_or("a table")?;
    assert_eq!(rt; table.dates.len(), 2);
    assert_eq!(rt; table.dates[0], read_day(b"2024-06-28").ok_or("a day")?);
    assert_eq!(rt; table.dates[1], read_day(b"2024-12-30").ok_or("a day")?);
    assert_eq!(rt; table.rows.len(), 2);
    let cells: [(&[u8], Option<i64>, Option<i64>); 2] = [
        (b"up", Some(1_125_000), Some(1_180_000)),
        (b"gone-2", None, Some(-1)),
    ];
    for (row, (label, first, second)) in table.rows.iter().zip(cells) {
        assert!(rt; row.label.bytes() == label);
        assert_eq!(rt; row.cells.len(), 2);
        assert_eq!(rt; row.cells[0].map(|cell| cell.raw()), first);
        assert_eq!(rt; row.cells[1].map(|cell| cell.raw()), second);
    }
    Ok(())
}

// Dates in no order, a day without a value, and the greatest magnitude; with all that a spreadsheet may write.
const FIXINGS: &[u8] =
    b"\xEF\xBB\xBFDate, VALUE\r\n2025-03-17,4800\r\n\r\n\"2024-03-15\",\" 5000.5\t\"\r\n2024-12-31,\r\n1900-01-01,-1e11\r\n";

#[test]
fn past_fixings_are_read_in_order_of_date(rt: HostRuntime) -> Result<(), Fail> {
    let past = read_fixings(rt.alloc(), FIXINGS)
        .ok()
        .ok_or("past fixings")?;
    let wanted: [(&[u8; 10], Option<i64>); 4] = [
        (b"1900-01-01", Some(-1_000_000_000_000_000)),
        (b"2024-03-15", Some(50_005_000)),
        (b"2024-12-31", None),
        (b"2025-03-17", Some(48_000_000)),
    ];
    assert_eq!(rt; past.rows.len(), 4);
    for (row, (date, value)) in past.rows.iter().zip(wanted) {
        assert_eq!(rt; Some(row.date), read_day(date));
        assert_eq!(rt; row.value.map(|value| value.raw()), value);
    }
    Ok(())
}

// Scenario files that are refused, most of them for two causes or more, and the cause that is named.
const BAD_SCENARIOS: &[(&[u8], TableRefusal)] = &[
    (b"", TableRefusal::BadHeader),
    (b"scenarios,2024-06-31\n", TableRefusal::BadHeader),
    (
        b"scenario,2024-06-28,2024-06-31,2024-06-28\n",
        TableRefusal::BadDate { place: 3 },
    ),
    (
        b"scenario,2024-06-28,2024-06-28,2024-06-31\n",
        TableRefusal::SameDate { place: 3 },
    ),
    (b"scenario,\na b\n", TableRefusal::BadDate { place: 2 }),
    (
        b"scenario,2024-06-28\na,1\na b,1,2\n",
        TableRefusal::BadRow { row: 2 },
    ),
    (
        b"scenario,2024-06-28\na b,x\na\n",
        TableRefusal::BadName { row: 1 },
    ),
    (
        b"scenario,2024-06-28,2024-06-29\na,1,x\n",
        TableRefusal::BadCell { row: 1, column: 3 },
    ),
    (
        b"scenario,2024-06-28,2024-06-29\na,x,y\n",
        TableRefusal::BadCell { row: 1, column: 2 },
    ),
    (
        b"scenario,2024-06-28\na,100000000000.0001\n",
        TableRefusal::BadCell { row: 1, column: 2 },
    ),
    (b"scenario\n,\n", TableRefusal::BadRow { row: 1 }),
];

// The same of fixings files.
const BAD_FIXINGS: &[(&[u8], TableRefusal)] = &[
    (b"\r\n", TableRefusal::BadHeader),
    (b"value,date\n2024-06-31,x\n", TableRefusal::BadHeader),
    (b"date,value,\n", TableRefusal::BadHeader),
    (
        b"date,value\n2024-06-28,1\n2024-06-28,x,\n",
        TableRefusal::BadRow { row: 2 },
    ),
    (
        b"date,value\n2024-06-31,x\n2024-06-28\n",
        TableRefusal::BadDate { place: 1 },
    ),
    (
        b"date,value\n2024-06-28,1\n2024-06-29,2\n2024-06-28,x\n",
        TableRefusal::SameDate { place: 3 },
    ),
    (
        b"date,value\n2024-06-28,\n2024-06-29,x\n2024-06-28,1\n",
        TableRefusal::BadCell { row: 2, column: 2 },
    ),
    (
        b"date,value\n2024-06-28,-100000000000.0001\n",
        TableRefusal::BadCell { row: 1, column: 2 },
    ),
];

#[test]
fn the_first_cause_is_named(rt: HostRuntime) -> Result<(), Fail> {
    for &(text, refusal) in BAD_SCENARIOS {
        assert_eq!(rt; read_scenarios(rt.alloc(), text).err(), Some(refusal));
    }
    for &(text, refusal) in BAD_FIXINGS {
        assert_eq!(rt; read_fixings(rt.alloc(), text).err(), Some(refusal));
    }
    Ok(())
}

// A text, and so many times another after it.
fn repeated(alloc: Global, first: &[u8], more: &[u8], times: u32) -> Result<Vec<u8>, Fail> {
    let mut text = Vec::from_slice(alloc, first)?;
    for _ in 0..times {
        text.extend_from_slice(more)?;
    }
    Ok(text)
}

// A fixings file of so many rows: the first 28 days of each month from 1900 on.
fn fixings_of(alloc: Global, rows: u32) -> Result<Vec<u8>, Fail> {
    let mut text = Vec::from_slice(alloc, b"date,value\n")?;
    for row in 0..rows {
        let year = 1900 + (row / 336 % 300) as u16;
        let month = 1 + (row / 28 % 12) as u8;
        let day = 1 + (row % 28) as u8;
        write_day(Day::new(year, month, day).ok_or("a day")?, &mut text)?;
        text.extend_from_slice(b",1\n")?;
    }
    Ok(text)
}

#[test]
fn a_file_may_have_100000_rows(rt: HostRuntime) -> Result<(), Fail> {
    let alloc = rt.alloc();
    let refusal = TableRefusal::TooMany {
        what: What::Rows,
        limit: 100_000,
    };
    let most = repeated(alloc, b"scenario\n", b"a\n", 100_000)?;
    let table = read_scenarios(alloc, &most).ok().ok_or("a table")?;
    assert_eq!(rt; table.rows.len(), 100_000);
    let more = repeated(alloc, b"scenario\n", b"a\n", 100_001)?;
    assert_eq!(rt; read_scenarios(alloc, &more).err(), Some(refusal));
    let past = read_fixings(alloc, &fixings_of(alloc, 100_000)?)
        .ok()
        .ok_or("past fixings")?;
    assert_eq!(rt; past.rows.len(), 100_000);
    let more = fixings_of(alloc, 100_001)?;
    assert_eq!(rt; read_fixings(alloc, &more).err(), Some(refusal));
    Ok(())
}

#[test]
fn dates_are_counted_before_they_are_read(rt: HostRuntime) -> Result<(), Fail> {
    let most = repeated(rt.alloc(), b"scenario", b",2024-06-28", 4_096)?;
    let same = TableRefusal::SameDate { place: 3 };
    assert_eq!(rt; read_scenarios(rt.alloc(), &most).err(), Some(same));
    let more = repeated(rt.alloc(), b"scenario", b",2024-06-28", 4_097)?;
    let refusal = TableRefusal::TooMany {
        what: What::Columns,
        limit: 4_096,
    };
    assert_eq!(rt; read_scenarios(rt.alloc(), &more).err(), Some(refusal));
    Ok(())
}
