//! The options of the command `run`.

ghost use Rattle.std.specs.Prelude.{◌≡◌, map, string_bytes, IfOk, IfErr, OnErr, IsTrue};
ghost use Rattle.std.specs.Option.{option_map, option_and_then};
ghost use Rattle.pay_dates.specs.Days.{day_in};
ghost use Rattle.pay_words.specs.Requests.{is_file_name, options_in, run_options, past_in};

use crate::file_name::{FileName, is_name};
use crate::request::{PastWords, WordsFault};
use pay_dates::{Day, read_day};
use std::alloc::Global;

/// The values of the options of `run`, where they are given.
#[derive(Clone, Copy)]
pub struct RunOptions<'a> {
    /// The value of `--fixings`.
    fixings: Option<&'a str>,
    /// The value of `--asof`.
    asof: Option<&'a str>,
}

impl<'a> RunOptions<'a> {
    ghost use Rattle.pay_words.specs.OptionViews.{values, given_past, with_option};

    /// The options that the words are, two by two: a name and its value.
    ///
    /// `None` exactly where a name has no value, names no option of `run`, or stands twice.
    pub fn read(words: &'a [String]) -> Option<RunOptions<'a>>
        ensures { option_map values result ≡ option_and_then run_options (options_in (map string_bytes words.now)) }
    {
        let mut options = RunOptions {
            fixings: None,
            asof: None,
        };
        let mut rest = words;
        // From the last option to the first: each is to have another name than those after it.
        while let Some((front, [name, value])) = rest.split_last_chunk::<2>() {
            options = options.with(name.as_str(), value.as_str())?;
            rest = front;
        }
        rest.is_empty().then_some(options)
    }

    /// These options and one more.
    ///
    /// `None` exactly where `name` names no option of `run`, or one that has a value already.
    fn with(self, name: &str, value: &'a str) -> Option<RunOptions<'a>>
        ensures { option_map values result ≡ with_option (values self.entry) (name.now, value.now) }
    {
        match name {
            "--fixings" if self.fixings.is_none() => Some(RunOptions {
                fixings: Some(value),
                ..self
            }),
            "--asof" if self.asof.is_none() => Some(RunOptions {
                asof: Some(value),
                ..self
            }),
            _ => None,
        }
    }

    /// The past fixings that the options ask for, if they ask for any.
    ///
    /// # Errors
    ///
    /// `NotRequest` exactly where one of `--fixings` and `--asof` is given without the other, where the value of the first is
    /// no name of a file, or where that of the second is no date.
    pub fn past(&self) -> Result<Option<GivenPast<'a>>, WordsFault>
        ensures past { IfOk result (λ past. past_in (values self.now) ≡ Some (option_map given_past past)) }
        ensures refused { OnErr result (past_in (values self.now) ≡ None) }
        ensures fault { IfErr result (λ fault. fault ≡ WordsFault.NotRequest) }
    {
        match (self.fixings, self.asof) {
            (None, None) => Ok(None),
            (Some(file), Some(asof)) if is_name(file.as_bytes()) => {
                let asof = read_date(asof).ok_or(WordsFault::NotRequest)?;
                Ok(Some(GivenPast { file, asof }))
            }
            _ => Err(WordsFault::NotRequest),
        }
    }
}

/// Past fixings as options ask for them.
#[derive(Clone, Copy)]
pub struct GivenPast<'a> {
    /// The name of their file.
    file: &'a str,
    /// The last date at which they count.
    asof: Day,
    ghost is_name: { IsTrue (is_file_name file.now) },
}

impl GivenPast<'_> {
    ghost use Rattle.pay_words.specs.OptionViews.{given_past};
    ghost use Rattle.pay_words.specs.RequestViews.{past_words};

    /// The same words, with a copy of the file's name.
    ///
    /// # Errors
    ///
    /// `NoMemory` where there was no memory for the name.
    pub fn copied(&self, alloc: Global) -> Result<PastWords, WordsFault>
        ensures words { IfOk result (λ words. past_words words ≡ given_past self.now) }
        ensures stopped { IfErr result (λ fault. fault ≡ WordsFault.NoMemory) }
    {
        let file = FileName::read(alloc, self.file)?;
        Ok(PastWords {
            file,
            asof: self.asof,
        })
    }
}

/// The day that a word writes as `YYYY-MM-DD`.
///
/// `None` exactly where it writes no day from 1900-01-01 to 2199-12-31.
#[tactic(auto, using(crate::proofs::OptionLemmas::day_in_other))]
fn read_date(word: &str) -> Option<Day>
    ensures { result ≡ day_in word.now }
{
    read_day(word.as_bytes().as_array::<10>()?)
}
