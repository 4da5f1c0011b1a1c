//! A law of what runs give, whose function is empty: what it ensures is the law. Beside it, a function that shows that rows, machines and outcomes may
//! go to other threads.

ghost use Rattle.pay_machine.specs.RunLaws.{NumbersAreNames};

use crate::machine::Machine;
use crate::outcome::Outcome;
use crate::row::Row;

/// What a run gave by number is the outcome of what is meant by name.
pub fn numbers_are_names()
    ensures { NumbersAreNames }
{}

/// Rows, machines and outcomes may be sent to other threads, and these may share them.
pub fn threads_may_share() {
    is_sent::<Row>();
    is_sent::<Machine>();
    is_sent::<Outcome>();
    is_shared::<Row>();
    is_shared::<Machine>();
    is_shared::<Outcome>();
}

/// Its values may be sent to other threads.
fn is_sent<T: Send>() {}

/// Its values may be shared by threads.
fn is_shared<T: Sync>() {}
