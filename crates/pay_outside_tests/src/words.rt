//! What words ask for, and which status and which line answer words that ask for nothing that can be done.

use pay_dates::Day;
use pay_edge::MemorySink;
use pay_harness::{ROOM, SCRIPT, TABLE, depot_with, line_of, status_of, words_of};
use pay_tool::{Request, WordsFault, request_of_words};
use std::test::Fail;

#[test]
fn words_give_a_request(rt: HostRuntime) -> Result<(), Fail> {
    let alloc = rt.alloc();
    let words = [
        "run",
        "s.pay",
        "t.csv",
        "--asof",
        "2024-01-10",
        "--fixings",
        "p.csv",
    ];
    let words = words_of(alloc, &words)?;
    let Request::Run(names) = request_of_words(alloc, &words)? else {
        return Err(Fail::new("no request to run"));
    };
    assert_eq!(rt; names.script.as_str(), "s.pay");
    assert_eq!(rt; names.scenarios.as_str(), "t.csv");
    let past = names.past.ok_or("no past fixings")?;
    assert_eq!(rt; past.file.as_str(), "p.csv");
    assert_eq!(rt; past.asof, Day::new(2024, 1, 10).unwrap());
    let none = request_of_words(alloc, &words_of(alloc, &["run"])?);
    assert!(rt; none.err() == Some(WordsFault::NotRequest));
    Ok(())
}

// Words, and the status that they end with where the depot has a script `s.pay` and a table `t.csv`.
const WORDS: [(&[&str], u8); 27] = [
    (&["run", "s.pay", "t.csv"], 0),
    (&[], 2),
    (&["run", "s.pay"], 2),
    (&["run", "s.pay", "t.csv", "t.csv"], 2),
    (&["run", "s.pay", "t.csv", "--fixings", "t.csv"], 2),
    (&["run", "s.pay", "t.csv", "--asof", "2024-06-28"], 2),
    (
        &[
            "run",
            "s.pay",
            "t.csv",
            "--fixings",
            "absent",
            "--asof",
            "2024-06-28",
        ],
        4,
    ),
    (&["run", "", "t.csv"], 2),
    (&["run", "s.pay", ""], 2),
    (&["run", "s.pay", "--"], 2),
    (&["Run", "s.pay", "t.csv"], 2),
    (&["run", "--state", "t.csv"], 2),
    (&["run", "t.csv", "absent"], 3),
    (&["run", "absent", "t.csv"], 4),
    (&["run", "s.pay", "absent"], 4),
    (&["check", "s.pay"], 0),
    (&["events", "s.pay"], 0),
    (&["check"], 2),
    (&["check", "s.pay", "t.csv"], 2),
    (&["Check", "s.pay"], 2),
    (&["events", "--s.pay"], 2),
    (&["explain", "s.pay"], 0),
    (&["explain"], 2),
    (&["explain", "s.pay", "t.csv"], 2),
    (&["check", "t.csv"], 3),
    (&["events", "absent"], 4),
    (&["explain", "absent"], 4),
];

#[test]
fn words_and_absent_files_have_their_status(rt: HostRuntime) -> Result<(), Fail> {
    let alloc = rt.alloc();
    for (words, status) in WORDS {
        let mut depot = depot_with(alloc, SCRIPT.as_bytes(), TABLE.as_bytes())?;
        let mut out = MemorySink::new(alloc, ROOM)?;
        let mut err = MemorySink::new(alloc, ROOM)?;
        let answer = status_of(alloc, words, &mut depot, &mut out, &mut err)?;
        assert_eq!(rt; answer, status);
        assert_eq!(rt; out.text().is_empty(), status != 0);
    }
    Ok(())
}

#[test]
fn other_statuses_have_their_lines(rt: HostRuntime) -> Result<(), Fail> {
    let alloc = rt.alloc();
    let mut depot = depot_with(alloc, SCRIPT.as_bytes(), TABLE.as_bytes())?;
    let lines: [(&[&str], &str); 4] = [
        (&[], "payscript: words not understood\n"),
        (
            &["run", "gone.pay", "t.csv"],
            "payscript: gone.pay: read fault\n",
        ),
        (
            &["run", "s.pay", "gone.csv"],
            "payscript: gone.csv: read fault\n",
        ),
        (&["run", "s.pay", "t.csv"], ""),
    ];
    for (words, line) in lines {
        assert_eq!(rt; line_of(alloc, words, &mut depot)?.text(), line.as_bytes());
    }
    let mut short = MemorySink::new(alloc, 0)?;
    let mut err = MemorySink::new(alloc, ROOM)?;
    let words = ["run", "s.pay", "t.csv"];
    assert_eq!(rt;
        status_of(alloc, &words, &mut depot, &mut short, &mut err)?,
        5
    );
    assert_eq!(rt; err.text(), b"payscript: write fault\n".as_slice());
    Ok(())
}
