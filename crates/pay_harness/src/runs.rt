//! Runs of the tool over files and sinks in memory.

use pay_edge::{MemoryDepot, MemorySink};
use pay_tool::run_tool;
use std::alloc::{AllocError, Global};
use std::str::from_utf8;
use std::test::Fail;

/// More than any report of these tests.
pub const ROOM: u32 = 10_000;

/// Words as a command line has them.
pub fn words_of(alloc: Global, words: &[&str]) -> Result<Vec<String>, AllocError> {
    let mut texts = Vec::new(alloc);
    for word in words {
        texts.push(String::from_str(alloc, word)?)?;
    }
    Ok(texts)
}

/// Whether a text is one line of the program.
fn is_line(text: &[u8]) -> bool {
    text.starts_with(b"payscript: ")
        && text.iter().position(|byte| *byte == b'\n') == Some(text.len() - 1)
}

/// The status that a run of these words ends with. The tests ask it by this function alone, so that its clauses are told once.
pub fn status_of(
    alloc: Global,
    words: &[&str],
    depot: &mut MemoryDepot,
    out: &mut MemorySink,
    err: &mut MemorySink,
) -> Result<u8, AllocError> {
    let words = words_of(alloc, words)?;
    Ok(run_tool(alloc, &words, depot, out, err))
}

/// Runs the tool on `s.pay` and `t.csv` of a depot.
///
/// # Errors
///
/// Where it doesn't end with this status, has put another text to `out`, or to `err` anything with status 0 and else not
/// one line; and for want of memory.
pub fn ends(
    alloc: Global,
    depot: &mut MemoryDepot,
    out: &mut MemorySink,
    status: u8,
    text: &str,
) -> Result<(), Fail> {
    let mut err = MemorySink::new(alloc, ROOM)?;
    let answer = status_of(alloc, &["run", "s.pay", "t.csv"], depot, out, &mut err)?;
    if answer != status {
        return Err(Fail::new(format_args!("status {answer} in place of {status}")));
    }
    let put = from_utf8(out.text())?;
    if put != text {
        return Err(Fail::new(format_args!("put {put:?} in place of {text:?}")));
    }
    let told = err.text();
    let is_told = if status == 0 {
        told.is_empty()
    } else {
        is_line(told)
    };
    if !is_told {
        return Err(Fail::new(format_args!("status {status} with the line {:?}", from_utf8(told)?)));
    }
    Ok(())
}

/// What a run of these words puts to `err`.
///
/// # Errors
///
/// For want of memory alone.
pub fn line_of(alloc: Global, words: &[&str], depot: &mut MemoryDepot) -> Result<MemorySink, Fail> {
    let mut out = MemorySink::new(alloc, ROOM)?;
    let mut err = MemorySink::new(alloc, ROOM)?;
    status_of(alloc, words, depot, &mut out, &mut err)?;
    Ok(err)
}
