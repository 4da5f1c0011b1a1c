//! What the words of a command line ask for.

ghost use Rattle.std.specs.Prelude.{◌≡◌, IfOk, IfErr, Some, [], ◌∷◌, map, string_bytes};
ghost use Rattle.pay_words.specs.Requests.{request_of, asked_in};
ghost use Rattle.pay_words.specs.RequestViews.{asked_by, StopsWords};

use crate::file_name::{FileName, is_name};
use crate::options::RunOptions;
use pay_dates::Day;
use std::alloc::{AllocError, Global};

/// A command with the files that it names.
#[derive(Drop)]
pub enum Request {
    /// The payments of a script in each scenario of a file.
    Run(RunWords),
    /// How many events, variables and legs a script has.
    Check {
        /// The file of the script.
        script: FileName,
    },
    /// The events of a script.
    Events {
        /// The file of the script.
        script: FileName,
    },
    /// What is left of each event of a script once it is simplified, and what every variable can hold after it.
    Explain {
        /// The file of the script.
        script: FileName,
    },
}

/// The words of the command `run`.
#[derive(Drop)]
pub struct RunWords {
    /// The file of the script.
    pub script: FileName,
    /// The file of the scenarios.
    pub scenarios: FileName,
    /// Past fixings, where they are given.
    pub past: Option<PastWords>,
}

/// The words of past fixings.
#[derive(Drop)]
pub struct PastWords {
    /// The file of the past fixings.
    pub file: FileName,
    /// The last date at which they count.
    pub asof: Day,
}

/// Why words gave no request.
#[derive(Clone, Copy, PartialEq, Eq, Debug)]
pub enum WordsFault {
    /// The words are no request.
    NotRequest,
    /// There was no memory for the names.
    NoMemory,
}

impl From<AllocError> for WordsFault {
    ghost use Rattle.std.specs.Prelude.{◌≡◌};
    ghost use Rattle.pay_words.specs.declared.request.WordsFault.{WordsFault};

    ghost from_gives = { λ _ fault. fault ≡ WordsFault.NoMemory };

    fn from(_: AllocError) -> WordsFault {
        WordsFault::NoMemory
    }
}

/// The request of the words after a program's name: `run`, a script file and a scenario file, and after them perhaps the options
/// `--fixings` with a file and `--asof` with a date, both or neither, in any order; or `check`, `events` or `explain`, and a script
/// file.
///
/// # Errors
///
/// `NotRequest` exactly where the words are no request, `NoMemory` where they are one and there was no memory for the
/// names of the files.
#[tactic(auto, unfolding(crate::specs::Requests::request_of))]
pub fn request_of_words(alloc: Global, words: &Vec<String>) -> Result<Request, WordsFault>
    ensures request { IfOk result (λ request. asked_in words.now ≡ Some (asked_by request)) }
    ensures stopped { IfErr result (StopsWords (asked_in words.now)) }
{
    match words.as_slice() {
        [command, script] => script_request(alloc, command.as_str(), script.as_str()),
        [command, script, scenarios, options @ ..] => run_request(
            alloc,
            command.as_str(),
            script.as_str(),
            scenarios.as_str(),
            options,
        ),
        _ => Err(WordsFault::NotRequest),
    }
}

/// The request of two words.
#[tactic(auto, unfolding(crate::specs::Requests::request_of))]
fn script_request(alloc: Global, command: &str, script: &str) -> Result<Request, WordsFault>
    ensures request { IfOk result (λ request. request_of (command.now ∷ script.now ∷ []) ≡ Some (asked_by request)) }
    ensures stopped { IfErr result (StopsWords (request_of (command.now ∷ script.now ∷ []))) }
{
    if command == "check" {
        let script = FileName::read(alloc, script)?;
        return Ok(Request::Check { script });
    }
    if command == "events" {
        let script = FileName::read(alloc, script)?;
        return Ok(Request::Events { script });
    }
    if command == "explain" {
        let script = FileName::read(alloc, script)?;
        return Ok(Request::Explain { script });
    }
    Err(WordsFault::NotRequest)
}

/// The request of three words and options.
#[tactic(auto, unfolding(crate::specs::Requests::request_of))]
fn run_request(
    alloc: Global,
    command: &str,
    script: &str,
    scenarios: &str,
    options: &[String],
) -> Result<Request, WordsFault>
    ensures request { IfOk result (λ request. request_of (command.now ∷ script.now ∷ scenarios.now ∷ map string_bytes options.now) ≡ Some (asked_by request)) }
    ensures stopped { IfErr result (StopsWords (request_of (command.now ∷ script.now ∷ scenarios.now ∷ map string_bytes options.now))) }
{
    if command != "run" || !is_name(script.as_bytes()) || !is_name(scenarios.as_bytes()) {
        return Err(WordsFault::NotRequest);
    }
    let options = RunOptions::read(options).ok_or(WordsFault::NotRequest)?;
    let Ok(past) = options.past() else {
        return Err(WordsFault::NotRequest);
    };
    let script = FileName::read(alloc, script)?;
    let scenarios = FileName::read(alloc, scenarios)?;
    let past = match past {
        Some(past) => Some(past.copied(alloc)?),
        None => None,
    };
    Ok(Request::Run(RunWords {
        script,
        scenarios,
        past,
    }))
}
