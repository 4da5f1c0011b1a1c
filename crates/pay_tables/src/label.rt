//! The label of a scenario.

ghost use Rattle.std.specs.Prelude.{◌≡◌, ◌||◌};
ghost use Rattle.std.specs.List.{list_all};
ghost use Rattle.pay_meaning.specs.Words.{is_letter};
ghost use Rattle.pay_tables.specs.Labels.{is_capital, is_label, is_label_byte};

use std::alloc::{AllocError, Global};
use std::marker::Model;

/// The most bytes of a label.
const MOST_LABEL_BYTES: usize = 64;

/// The label of a scenario: 1 to 64 ASCII letters, digits, `_`, `.` and `-`.
#[derive(Drop)]
pub struct Label {
    bytes: Vec<u8>,
}

impl Model for Label {
    ghost use Rattle.std.specs.Prelude.{ℕ, List, IsTrue};
    ghost use Rattle.pay_tables.specs.Labels.{is_label};

    ghost Value = { List ℕ };

    ghost view = { λ label. label.bytes.items };

    ghost invariant = { λ label. IsTrue (is_label label.bytes.items) };
}

/// Why bytes were not read as a label.
#[derive(Clone, Copy, PartialEq, Eq, Debug)]
pub enum LabelFault {
    /// The bytes are no label.
    BadLabel,
    /// There was no memory for the label.
    NoMemory,
}

impl From<AllocError> for LabelFault {
    ghost use Rattle.std.specs.Prelude.{◌≡◌};
    ghost use Rattle.pay_tables.specs.declared.label.LabelFault.{LabelFault};

    ghost from_gives = { λ _ fault. fault ≡ LabelFault.NoMemory };

    fn from(_: AllocError) -> LabelFault {
        LabelFault::NoMemory
    }
}

/// Whether the byte is an ASCII letter or `_`.
fn is_label_letter(byte: u8) -> bool
    ensures { result ≡ (is_letter byte || is_capital byte) }
{
    (b'a' <= byte && byte <= b'z') || byte == b'_' || (b'A' <= byte && byte <= b'Z')
}

/// Whether the byte is an ASCII letter, a digit, `_`, `.` or `-`.
fn is_label_byte(byte: u8) -> bool
    ensures { result ≡ is_label_byte byte }
{
    is_label_letter(byte) || (b'0' <= byte && byte <= b'9') || byte == b'.' || byte == b'-'
}

/// Whether each byte is an ASCII letter, a digit, `_`, `.` or `-`.
fn are_label_bytes(bytes: &[u8]) -> bool
    ensures { result ≡ list_all is_label_byte bytes.now }
{
    bytes.iter().all(|byte| is_label_byte(*byte))
}

/// Whether the bytes are 1 to 64 ASCII letters, digits, `_`, `.` and `-`.
#[tactic(auto, unfolding(crate::specs::Labels::is_label))]
fn is_label(bytes: &[u8]) -> bool
    ensures { result ≡ is_label bytes.now }
{
    1 <= bytes.len() && bytes.len() <= MOST_LABEL_BYTES && are_label_bytes(bytes)
}

impl Label {
    ghost use Rattle.std.specs.Prelude.{◌≡◌, IsTrue, IsErrOf, IfOk, OnOk, false};
    ghost use Rattle.pay_tables.specs.Labels.{is_label};

    /// The label with these bytes.
    ///
    /// # Errors
    ///
    /// `BadLabel` exactly where they are not 1 to 64 ASCII letters, digits, `_`, `.` and `-`, `NoMemory` where they are and
    /// there was no memory for a copy of them.
    pub fn read(alloc: Global, bytes: &[u8]) -> Result<Label, LabelFault>
        ensures read { IfOk result (λ label. label ≡ bytes.now) }
        ensures label { OnOk result (IsTrue (is_label bytes.now)) }
        ensures bad_label { IsErrOf result LabelFault.BadLabel → is_label bytes.now ≡ false }
        ensures memory { IsErrOf result LabelFault.NoMemory → IsTrue (is_label bytes.now) }
    {
        if !is_label(bytes) {
            return Err(LabelFault::BadLabel);
        }
        let bytes = Vec::from_slice(alloc, bytes)?;
        Ok(Label { bytes })
    }

    /// The bytes of the label.
    pub fn bytes(&self) -> &[u8]
        ensures value { result.now ≡ self.now }
        ensures label { IsTrue (is_label result.now) }
    {
        self.bytes.as_slice()
    }
}
