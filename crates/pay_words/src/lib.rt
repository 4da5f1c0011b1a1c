//! What the words of a command line ask for.
//!
//! The words after a program's name are one of these, and any others are no request:
//!
//! ```text
//! run SCRIPT SCENARIOS [--fixings FILE --asof DATE]
//! check SCRIPT
//! events SCRIPT
//! explain SCRIPT
//! ```
//!
//! The two options stand both or neither, in any order. The name of a file isn't empty and doesn't begin with `--`, and a date
//! is one of the years 1900 to 2199, written `YYYY-MM-DD`.
//!
//! [`request_of_words`] gives the [`Request`] of such words, with copies of the names. Proved: it is the one that
//! `specs/Requests.antt` says, and there is none exactly where the words are no request.
#![tactic(auto)]

mod file_name;
mod options;
mod request;

pub use file_name::FileName;
pub use request::{PastWords, Request, RunWords, WordsFault, request_of_words};
