//! The tool: what the words of a command line ask for, done over a depot of files and a sink of text.
//!
//! `run_tool` is the whole of it. It reads the request, fetches each file whole and checks it, and only then puts the
//! answer: those of `run` and `explain` piece by piece, those of `check` and `events` in one piece. Its contract says of each exit status
//! but 6, want of memory, why it comes. The clause `pays_as_meant` says that a `run` with status 0 has put, for each scenario
//! in the order of its file, the payments that the script means there.
//!
//! # Example
//!
//! Here `out` receives the lines `scenario,date,leg,amount`, `up,2024-06-28,opt,12.5` and `#nodes,6,,`.
//!
//! ```text
//! let mut depot = MemoryDepot::new(alloc);
//! depot.add("s.pay", b"@2024-06-28 x = 100 opt pays spot() - x")?;
//! depot.add("t.csv", b"scenario,2024-06-28\nup,112.5\n")?;
//! let mut out = MemorySink::new(alloc, 1000)?;
//! let mut err = MemorySink::new(alloc, 1000)?;
//! // `words` are `run`, `s.pay` and `t.csv`
//! let status = run_tool(alloc, &words, &mut depot, &mut out, &mut err);
//! ```
#![tactic(auto)]

mod about;
mod exit;
mod explain;
pub mod laws;
mod line;
mod run;
mod text;
mod tool;

pub use line::{MEMORY_LINE, WORDS_LINE};
pub use pay_inputs::{CheckStop, Refusal, check_script};
pub use pay_passes::Trade;
pub use pay_roll::What;
pub use pay_words::{FileName, PastWords, Request, RunWords, WordsFault, request_of_words};
pub use tool::run_tool;
