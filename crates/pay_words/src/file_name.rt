//! The name of a file, as a command line has it.

ghost use Rattle.std.specs.Prelude.{◌≡◌};
ghost use Rattle.pay_words.specs.Requests.{is_file_name};

use crate::request::WordsFault;
use std::alloc::Global;
use std::marker::Model;

/// The name of a file: a word that isn't empty and doesn't begin with `--`.
#[derive(Drop)]
pub struct FileName {
    text: String,
}

impl Model for FileName {
    ghost use Rattle.std.specs.Prelude.{ℕ, List, IsTrue, string_bytes};
    ghost use Rattle.pay_words.specs.Requests.{is_file_name};

    ghost Value = { List ℕ };

    ghost view = { λ name. string_bytes name.text };

    ghost invariant = { λ name. IsTrue (is_file_name (string_bytes name.text)) };
}

impl FileName {
    ghost use Rattle.std.specs.Prelude.{◌≡◌, IfOk, OnOk, IfErr, IsTrue, true};
    ghost use Rattle.pay_words.specs.Requests.{is_file_name};
    ghost use Rattle.pay_words.specs.RequestViews.{StopsName};

    /// The name that `word` is.
    ///
    /// # Errors
    ///
    /// `NotRequest` where `word` is empty or begins with `--`, `NoMemory` where it is a name and there was
    /// no memory for it.
    pub fn read(alloc: Global, word: &str) -> Result<FileName, WordsFault>
        ensures read { IfOk result (λ name. name ≡ word.now) }
        ensures name { OnOk result (is_file_name word.now ≡ true) }
        ensures stopped { IfErr result (StopsName word.now) }
    {
        if !is_name(word.as_bytes()) {
            return Err(WordsFault::NotRequest);
        }
        let text = String::from_str(alloc, word)?;
        Ok(FileName { text })
    }

    /// The name as text.
    pub fn as_str(&self) -> &str
        ensures name { IsTrue (is_file_name result.now) }
        ensures value { result.now ≡ self.now }
    {
        self.text.as_str()
    }
}

/// Whether the word isn't empty and doesn't begin with `--`.
pub fn is_name(word: &[u8]) -> bool
    ensures { result ≡ is_file_name word.now }
{
    match word {
        [] => false,
        [b'-', b'-', ..] => false,
        _ => true,
    }
}
