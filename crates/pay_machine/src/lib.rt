//! Runs of programs, one scenario at a time.
//!
//! A [`Machine`] and an [`Outcome`] are prepared for a program once: that takes all the memory of its runs. [`Machine::run`] then runs it over the
//! [`Row`] of a scenario, takes none and can't fail. The outcome has the payments in order, each on a leg by its number, how the events ended, the
//! last values of the variables by their numbers, and how many nodes were evaluated.
//!
//! ```text
//! let mut machine = Machine::prepare(alloc, &program)?;
//! let mut outcome = Outcome::prepare(alloc, &program)?;
//! for row in &rows {
//!     machine.run(&program, row, &mut outcome);
//!     // `outcome.payments()`, `outcome.end()`
//! }
//! ```
//!
//! A row has fixings within their limit alone (`specs/Rows.antt`). An outcome knows no names: `specs/Outcomes.antt` says of which meaning it is the
//! outcome, where a number stands for its place among the script's variables or legs. Proved: a run gives what the program's events mean, by the numbers
//! of their variables (`specs/Runs.antt`) and by their names (`specs/NamedRuns.antt`), and evaluates as many of their parts; in a program that reads no
//! smoothings that is the direct meaning.
//!
//! What a machine works on is what code works on in the definition of its run, as `specs/Work.antt` says, and each operation does there what that
//! definition says, whatever the code is: so it needs no valid code, and tests no index. Each stack has a room of its own, and a run of as many
//! operations as it has room for never goes past it.
#![tactic(auto)]

mod changes;
mod choice;
mod execution;
mod frame;
pub mod laws;
mod machine;
mod number;
mod outcome;
mod payments;
mod row;
mod saved;
mod slots;
mod stack;
mod step;
mod values;
mod weight;
mod work;

pub use machine::Machine;
pub use outcome::{End, Outcome, Payment};
pub use pay_meaning::FaultKind;
pub use row::Row;
