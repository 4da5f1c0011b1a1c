//! The line to `err`: why a request did not end with its whole answer.

ghost use Rattle.std.specs.Prelude.{◌≡◌, ◌++◌, codes, [], IfOk, OnOk, MatchOption};
ghost use Rattle.std.specs.Fmt.{decimal};
ghost use Rattle.pay_edge.specs.Edge.{Rose, appended};
ghost use Rattle.pay_inputs.specs.declared.refusal.Refusal.TheVariants.{TooLong, SameDate, TooMany, BadCell};
ghost use Rattle.pay_tool.specs.Lines as meant;

use crate::exit::Exit;
use crate::text::{write_count, write_date, write_text};
use pay_dates::Day;
use pay_edge::Sink;
use pay_fixed::NoMemory;
use pay_inputs::Refusal;
use pay_roll::What;
use pay_words::FileName;
use std::alloc::Global;

/// The line where the words are no request.
pub const WORDS_LINE: &[u8] = b"payscript: words not understood\n";

/// The line where the answer could not be put.
const WRITE_LINE: &[u8] = b"payscript: write fault\n";

/// The line where there was no memory.
pub const MEMORY_LINE: &[u8] = b"payscript: out of memory\n";

/// What there are too many of.
fn what_text(what: What) -> &'static [u8]
    ensures { result.now ≡ meant.what_text what }
{
    match what {
        What::Events => b"events",
        What::Nodes => b"nodes",
        What::Pays => b"payments",
        What::Rows => b"rows",
        What::Columns => b"columns",
        What::Variables => b"variables",
        What::Legs => b"legs",
    }
}

/// Appends that the file is longer than its limit.
fn write_too_long(alloc: Global, limit: u32, text: &mut Vec<u8>) -> Result<(), NoMemory>
    ensures { OnOk result (text.new.items ≡ text.old.items ++ meant.refusal_text (TooLong limit)) }
{
    text.extend_from_slice(b"longer than ")?;
    write_count(alloc, limit as usize, text)?;
    text.extend_from_slice(b" bytes")?;
    Ok(())
}

/// Appends that there are too many of something.
fn write_too_many(alloc: Global, what: What, limit: u32, text: &mut Vec<u8>) -> Result<(), NoMemory>
    ensures { OnOk result (text.new.items ≡ text.old.items ++ meant.refusal_text (TooMany what limit)) }
{
    text.extend_from_slice(b"more than ")?;
    write_count(alloc, limit as usize, text)?;
    text.extend_from_slice(b" ")?;
    text.extend_from_slice(what_text(what))?;
    Ok(())
}

/// Appends why a file is refused.
fn write_refusal(alloc: Global, refusal: Refusal, text: &mut Vec<u8>) -> Result<(), NoMemory>
    ensures { OnOk result (text.new.items ≡ text.old.items ++ meant.refusal_text refusal) }
{
    match refusal {
        Refusal::TooLong { limit } => write_too_long(alloc, limit, text),
        Refusal::BadByte { at } => write_wrong(alloc, b"byte ", at, b"no token begins here", text),
        Refusal::TooLarge { at } => write_wrong(alloc, b"byte ", at, b"token too large", text),
        Refusal::TooDeep { at } => write_wrong(alloc, b"byte ", at, b"nested too deep", text),
        Refusal::NotScript => write_text(b"not a script", text),
        Refusal::BadSchedule { item } => write_wrong(alloc, b"item ", item, b"bad schedule", text),
        Refusal::SameDate { date } => write_shared(date, text),
        Refusal::TooMany { what, limit } => write_too_many(alloc, what, limit, text),
        Refusal::BadHeader => write_text(b"bad header", text),
        Refusal::BadDate { place } => write_wrong(alloc, b"place ", place, b"bad date", text),
        Refusal::RepeatedDate { place } => write_wrong(
            alloc,
            b"place ",
            place,
            b"repeated date",
            text,
        ),
        Refusal::BadRow { row } => write_wrong(
            alloc,
            b"row ",
            row,
            b"wrong number of fields",
            text,
        ),
        Refusal::BadName { row } => write_wrong(alloc, b"row ", row, b"bad name", text),
        Refusal::BadCell { row, column } => write_bad_cell(alloc, row, column, text),
    }
}

/// Appends that a cell is bad.
fn write_bad_cell(alloc: Global, row: u32, column: u32, text: &mut Vec<u8>) -> Result<(), NoMemory>
    ensures { OnOk result (text.new.items ≡ text.old.items ++ meant.refusal_text (BadCell row column)) }
{
    write_numbered(alloc, b"row ", row, text)?;
    write_wrong(alloc, b", column ", column, b"bad number", text)
}

/// Appends what is wrong at a place: the words for it, its number, and what is wrong there.
#[tactic(auto, using(std::proofs::Common::append_assoc))]
fn write_wrong(
    alloc: Global,
    words: &[u8],
    number: u32,
    wrong: &[u8],
    text: &mut Vec<u8>,
) -> Result<(), NoMemory>
    ensures { OnOk result (text.new.items ≡ text.old.items ++ (words.now ++ (decimal number ++ (codes ": " ++ wrong.now)))) }
{
    write_numbered(alloc, words, number, text)?;
    write_text(b": ", text)?;
    write_text(wrong, text)
}

/// Appends words and a number.
fn write_numbered(
    alloc: Global,
    words: &[u8],
    number: u32,
    text: &mut Vec<u8>,
) -> Result<(), NoMemory>
    ensures { OnOk result (text.new.items ≡ text.old.items ++ (words.now ++ decimal number)) }
{
    write_text(words, text)?;
    write_count(alloc, number as usize, text)
}

/// Appends that two events have a date.
fn write_shared(date: Day, text: &mut Vec<u8>) -> Result<(), NoMemory>
    ensures { OnOk result (text.new.items ≡ text.old.items ++ meant.refusal_text (SameDate date)) }
{
    write_text(b"two events on ", text)?;
    write_date(date, text)
}

/// The front of a line about a file.
fn file_front(alloc: Global, name: &FileName) -> Result<Vec<u8>, NoMemory>
    ensures { IfOk result (λ line. line.items ≡ codes "payscript: " ++ (name.now ++ codes ": ")) }
{
    let mut line = Vec::from_slice(alloc, b"payscript: ")?;
    line.extend_from_slice(name.as_str().as_bytes())?;
    line.extend_from_slice(b": ")?;
    Ok(line)
}

/// The line of an exit that names no file, which takes no memory.
pub fn short_line(exit: &Exit) -> Option<&'static [u8]>
    ensures { MatchOption result (meant.NamesInput exit.now) (λ line. line.now ≡ meant.line_of exit.now) }
{
    match exit {
        Exit::Done => Some(b""),
        Exit::NotRequest => Some(WORDS_LINE),
        Exit::Refused(_, _) => None,
        Exit::Unread(_) => None,
        Exit::Unwritten => Some(WRITE_LINE),
        Exit::NoMemory => Some(MEMORY_LINE),
    }
}

/// The line of an exit that names a file.
pub fn file_line(alloc: Global, exit: &Exit) -> Result<Vec<u8>, NoMemory>
    ensures { IfOk result (λ line. meant.NamesInput exit.now → line.items ≡ meant.line_of exit.now) }
{
    match exit {
        Exit::Refused(name, refusal) => refusal_line(alloc, name, *refusal),
        Exit::Unread(name) => text_line(alloc, name, b"read fault"),
        _ => Ok(Vec::new(alloc)),
    }
}

/// The line about a file that is refused.
fn refusal_line(alloc: Global, name: &FileName, refusal: Refusal) -> Result<Vec<u8>, NoMemory>
    ensures { IfOk result (λ line. line.items ≡ meant.file_line name.now (meant.refusal_text refusal)) }
{
    let mut line = file_front(alloc, name)?;
    write_refusal(alloc, refusal, &mut line)?;
    line.extend_from_slice(b"\n")?;
    Ok(line)
}

/// The line with this text about a file.
fn text_line(alloc: Global, name: &FileName, text: &[u8]) -> Result<Vec<u8>, NoMemory>
    ensures { IfOk result (λ line. line.items ≡ meant.file_line name.now text.now) }
{
    let mut line = file_front(alloc, name)?;
    line.extend_from_slice(text)?;
    line.extend_from_slice(b"\n")?;
    Ok(line)
}

/// Puts a line, unless it is empty. A fault of the sink changes nothing else.
pub fn put_line<E: Sink>(err: &mut E, line: &[u8])
    ensures put { ¬ Rose (E.faults err.old) (E.faults err.new) → E.text err.new ≡ appended (E.text err.old) line.now }
    ensures nothing { line.now ≡ [] → err.new ≡ err.old }
{
    if !line.is_empty() {
        let _ = err.put(line);
    }
}
