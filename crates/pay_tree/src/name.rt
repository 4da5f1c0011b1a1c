//! Names of variables and of legs: which bytes are one, and their order.

ghost use Rattle.std.specs.Prelude.{◌≡◌, ◌||◌, IfOk, OnOk, IsErrOf};
ghost use Rattle.std.specs.List.{list_all, list_any};
ghost use Rattle.std.specs.Str.{bytes_eq};
ghost use Rattle.pay_meaning.specs.Words.{IsName, is_letter, is_digit, is_lower_word, is_keyword, is_name};

use pay_fixed::NoMemory;
use std::alloc::{AllocError, Global};
use std::cmp::Ordering;
use std::marker::Model;

/// The most bytes that a name may have.
const MOST_BYTES: usize = 64;

/// A name of a variable or of a leg: 1 to 64 bytes, a lower-case letter or `_`, then such letters and digits, and no
/// keyword of the language.
///
/// In a clause a name is the list of its bytes. Names are ordered by their bytes, as texts are.
#[derive(Drop)]
pub struct Name {
    bytes: Vec<u8>,
}

impl Model for Name {
    ghost use Rattle.std.specs.Prelude.{ℕ, List};
    ghost use Rattle.pay_meaning.specs.Words.{is_name, IsName};

    ghost Value = { List ℕ };

    ghost view = { λ name. name.bytes.items };

    ghost invariant = { λ name. IsName name.bytes.items };
}

/// Why bytes were not read as a name.
#[derive(Clone, Copy, PartialEq, Eq, Debug)]
pub enum NameFault {
    /// The bytes are no name.
    NotName,
    /// There was no memory for the name.
    NoMemory,
}

impl From<AllocError> for NameFault {
    ghost use Rattle.std.specs.Prelude.{◌≡◌};
    ghost use Rattle.pay_tree.specs.declared.name.NameFault.{NameFault};

    ghost from_gives = { λ _ fault. fault ≡ NameFault.NoMemory };

    fn from(_: AllocError) -> NameFault {
        NameFault::NoMemory
    }
}

/// Whether the byte is a lower-case ASCII letter or `_`.
fn is_letter(byte: u8) -> bool
    ensures { result ≡ is_letter byte }
{
    (b'a' <= byte && byte <= b'z') || byte == b'_'
}

/// Whether the byte is an ASCII digit.
fn is_digit(byte: u8) -> bool
    ensures { result ≡ is_digit byte }
{
    b'0' <= byte && byte <= b'9'
}

/// Whether the byte may stand in a word after its first byte.
fn is_word_byte(byte: u8) -> bool
    ensures { result ≡ (is_letter byte || is_digit byte) }
{
    is_letter(byte) || is_digit(byte)
}

/// Whether all of these bytes may stand after the first byte of a word.
fn are_word_bytes(bytes: &[u8]) -> bool
    ensures { result ≡ list_all (λ byte. is_letter byte || is_digit byte) bytes.now }
{
    bytes.iter().all(|byte| is_word_byte(*byte))
}

/// Whether the bytes are a letter, and then letters and digits.
fn is_lower_word(bytes: &[u8]) -> bool
    ensures { result ≡ is_lower_word bytes.now }
{
    match bytes {
        [] => false,
        [first, rest @ ..] => is_letter(*first) && are_word_bytes(rest),
    }
}

/// The words that the language keeps for itself.
const KEYWORDS: [&[u8]; 23] = [
    b"schedule",
    b"from",
    b"to",
    b"every",
    b"following",
    b"preceding",
    b"modified",
    b"do",
    b"end",
    b"if",
    b"then",
    b"else",
    b"endif",
    b"pays",
    b"min",
    b"max",
    b"abs",
    b"spot",
    b"period",
    b"days",
    b"not",
    b"and",
    b"or",
];

/// Whether the language keeps the word for itself.
#[tactic(auto, unfolding(pay_meaning::specs::Words::is_keyword))]
fn is_keyword(word: &[u8]) -> bool
    ensures { result ≡ is_keyword word.now }
{
    let keywords: [&[u8]; 23] = KEYWORDS;
    is_among(keywords.as_slice(), word)
}

/// Whether the word is one of these.
fn is_among(words: &[&[u8]], word: &[u8]) -> bool
    ensures { result ≡ list_any (λ other. bytes_eq word.now other.now) words.now }
{
    words.iter().any(|other| word == *other)
}

/// Whether the bytes are a name: at most 64 of them, a lower-case word, and no keyword.
#[tactic(auto, unfolding(pay_meaning::specs::Words::is_name))]
fn is_name(bytes: &[u8]) -> bool
    ensures { result ≡ is_name bytes.now }
{
    bytes.len() <= MOST_BYTES && is_lower_word(bytes) && !is_keyword(bytes)
}

impl Name {
    /// The name with these bytes, which are copied into memory of `alloc`.
    ///
    /// # Errors
    ///
    /// `NotName` exactly where the bytes are no name: there are none or more than 64, some byte may not stand where it
    /// does, or they are a keyword. `NoMemory` where they are a name and there was no memory for the copy.
    pub fn read(alloc: Global, bytes: &[u8]) -> Result<Name, NameFault>
        ensures read { IfOk result (λ name. name ≡ bytes.now) }
        ensures name { OnOk result (IsName bytes.now) }
        ensures not_name { IsErrOf result NameFault.NotName → ¬ IsName bytes.now }
        ensures no_memory { IsErrOf result NameFault.NoMemory → IsName bytes.now }
    {
        if !is_name(bytes) {
            return Err(NameFault::NotName);
        }
        let bytes = Vec::from_slice(alloc, bytes)?;
        Ok(Name { bytes })
    }

    /// The bytes of the name.
    pub fn bytes(&self) -> &[u8]
        ensures value { result.now ≡ self.now }
        ensures name { IsName result.now }
    {
        self.bytes.as_slice()
    }

    /// The same name once more.
    ///
    /// # Errors
    ///
    /// `NoMemory` where there was no memory for its bytes.
    pub fn copy(&self, alloc: Global) -> Result<Name, NoMemory>
        ensures { IfOk result (λ name. name ≡ self.now) }
    {
        let bytes = Vec::from_slice(alloc, self.bytes.as_slice())?;
        Ok(Name { bytes })
    }
}

impl PartialEq for Name {
    ghost use Rattle.std.specs.Str.{bytes_eq};
    ghost use Rattle.std.specs.Cmp.{partial_equiv_from_equiv};
    ghost use Rattle.std.specs.Cmp.Lexicographic.{nat_list_eq_equiv};

    ghost eq = { bytes_eq };

    ghost laws = { partial_equiv_from_equiv nat_list_eq_equiv };

    fn eq(&self, other: &Name) -> bool {
        self.bytes.as_slice() == other.bytes.as_slice()
    }
}

impl Eq for Name {
    ghost use Rattle.std.specs.Cmp.Lexicographic.{nat_list_eq_equiv};

    ghost laws = { nat_list_eq_equiv };
}

impl PartialOrd for Name {
    ghost use Rattle.std.specs.Prelude.{Some};
    ghost use Rattle.std.specs.Cmp.Lexicographic.{slice_cmp, texts_po};
    ghost use Rattle.std.specs.Ordering.{nat_cmp};

    ghost partial_cmp = { λ a b. Some (slice_cmp nat_cmp a b) };

    ghost laws = { texts_po };

    fn partial_cmp(&self, other: &Name) -> Option<Ordering> {
        Some(self.cmp(other))
    }
}

impl Ord for Name {
    ghost use Rattle.std.specs.Prelude.{refl};
    ghost use Rattle.std.specs.Cmp.Lexicographic.{slice_cmp, nat_list_cmp_total, texts_ties};
    ghost use Rattle.std.specs.Ordering.{nat_cmp};

    ghost cmp = { slice_cmp nat_cmp };

    ghost total = { nat_list_cmp_total };

    ghost matches_partial_cmp = { λ a b. refl };

    ghost matches_eq = { texts_ties };

    fn cmp(&self, other: &Name) -> Ordering {
        self.bytes.as_slice().cmp(other.bytes.as_slice())
    }
}
