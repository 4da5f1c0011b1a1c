//! The records of a file, one at a time.

ghost use Rattle.std.specs.Prelude.{◌≡◌, ◌<◌, IfOk, length, get_or, []};
ghost use Rattle.csv.specs.Reading.{strip_bom};
ghost use Rattle.pay_fixed.specs.Reading.{after_blanks};
ghost use Rattle.pay_tables.specs.Records.{before_blanks, records_in, trimmed};
ghost use Rattle.pay_tables.specs.Reader.{Advances, current, left};

use csv::{ByteRecord, Reader, ReaderBuilder};
use pay_fixed::NoMemory;
use std::alloc::Global;
use std::marker::Model;

/// The records of a file, read one at a time into a record that is used again.
#[derive(Drop)]
pub struct Records<'a> {
    reader: Reader<&'a [u8]>,
    last: ByteRecord,
}

impl<'a> Model for Records<'a> {
    ghost use Rattle.csv.specs.Records.{fields_of};
    ghost use Rattle.pay_tables.specs.Reader.{Seen};
    ghost use Rattle.pay_tables.specs.CsvReader.{IsReader, records_left, trimmed_record};

    ghost Value = { Seen };

    ghost view = { λ records. (trimmed_record (fields_of records.last), records_left records.reader) };

    ghost invariant = { λ records. IsReader records.reader };
}

/// The bytes without the byte order mark at their front, if they have one.
#[tactic(auto, unfolding(csv::specs::Reading::strip_bom))]
fn after_mark(bytes: &[u8]) -> &[u8]
    ensures { result.now ≡ strip_bom bytes.now }
{
    match bytes {
        [0xEF, 0xBB, 0xBF, rest @ ..] => rest,
        _ => bytes,
    }
}

/// The text without the blanks at its front.
fn after_blanks(text: &[u8]) -> &[u8]
    ensures { result.now ≡ after_blanks text.now }
{
    let mut rest = text;
    while let [b' ' | b'\t', tail @ ..] = rest {
        rest = tail;
    }
    rest
}

/// The text without the blanks at its end.
#[tactic(auto, using(crate::proofs::BlankLemmas::last_byte))]
fn before_blanks(text: &[u8]) -> &[u8]
    ensures { result.now ≡ before_blanks text.now }
{
    let mut rest = text;
    while let Some((b' ' | b'\t', head)) = rest.split_last() {
        rest = head;
    }
    rest
}

/// The field without the blanks at both ends.
fn trimmed(field: &[u8]) -> &[u8]
    ensures { result.now ≡ trimmed field.now }
{
    before_blanks(after_blanks(field))
}

impl<'a> Records<'a> {
    /// The records of these bytes.
    pub fn new(alloc: Global, bytes: &'a [u8]) -> Records<'a>
        ensures { left result ≡ records_in bytes.now }
    {
        let reader = ReaderBuilder::new()
            .has_headers(false)
            .flexible(true)
            .from_reader(alloc, after_mark(bytes));
        Records {
            reader,
            last: ByteRecord::new(alloc),
        }
    }

    /// Reads the next record, if one is left, in place of the one that was read last: `true` where one was, and `false` where none is left.
    ///
    /// # Errors
    ///
    /// [`NoMemory`] where there was no memory for it.
    pub fn advance(&mut self) -> Result<bool, NoMemory>
        ensures { IfOk result (Advances self.old self.new) }
    {
        self.reader
            .read_byte_record(&mut self.last)
            .map_err(|_| NoMemory)
    }

    /// How many fields the record has that was read last.
    pub fn len(&self) -> usize
        ensures { result ≡ length (current self.now) }
    {
        self.last.len()
    }

    /// A field of the record that was read last, without the spaces and tabs at its ends.
    pub fn field(&self, at: usize) -> &[u8]
        requires { at < length (current self.now) }
        ensures { result.now ≡ get_or (current self.now) at [] }
    {
        match self.last.get(at) {
            Some(field) => trimmed(field),
            None => b"".as_slice(),
        }
    }
}
