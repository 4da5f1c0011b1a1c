//! What is said of the events of a trade: for each one, its steps without the parts of which the domains of the variables show the outcome before any
//! run, and the raws that each variable can have after it, in every run.
//!
//! [`fresh_facts`] is what is known before the first event, [`explain_event`] the text of an event and the facts after it.
//!
//! An event has a line with its date. Below it stand the steps that are left of it, in the form of the canonical text, each `if` with the variables
//! that its branches still assign, and then each variable, by its number, with its pieces in rising order: a raw alone or the least and the greatest of a
//! stretch of raws, as decimals; `none` where it can have no raw. So
//!
//! ```text
//! @2024-06-28
//!   if spot() >= 100 then
//!     x = 1;
//!     y = 0;
//!   endif
//!   if x < 0 then
//!     y = 5;
//!   else
//!     coupon pays x;
//!   endif
//! ```
//!
//! is said to be, since `x` is never below 0, and `y` never more than 0:
//!
//! ```text
//! event 2024-06-28 period 0 days 0
//!   if spot() >= 100 then // changes x, y
//!     x = 1;
//!     y = 0;
//!   endif
//!   coupon pays x;
//!   domain x: 0 | 1
//!   domain y: 0
//! ```
//!
//! - `specs/Explaining.antt`: the text, by the names and by the numbers of variables.
//! - `specs/Known.antt`: what facts have to be.
//! - [`laws`]: the text by numbers is that of the script's own events, the steps in it are those of the simplified script, and each domain in it holds
//!   the variable's value in every run.
#![tactic(auto)]

mod explain;
pub mod laws;
mod text;

pub use explain::{explain_event, fresh_facts};
