//! Laws of flat code and of its runs. The functions do nothing: what one ensures is the law. That programs can be shared by threads is seen by
//! the calls that the last one makes.

ghost use Rattle.pay_code.specs.BoundLaws.{FlatCodeIsBounded, PartsAreCounted, RunsAreBounded, StepsAddAtMost, StepsPassWithin};
ghost use Rattle.pay_code.specs.CodeLaws.{CodeMeans};

use crate::program::Program;

/// The flat code of events does what the events mean, and evaluates as many parts.
pub fn code_means()
    ensures { CodeMeans }
{}

/// An operation of any code adds at most one entry to each stack, one choice and one evaluated part, and the payments and saved values that
/// are said of it.
pub fn steps_add_at_most()
    ensures { StepsAddAtMost }
{}

/// An operation whose target lies ahead passes over at most the operations that are left.
pub fn steps_pass_within()
    ensures { StepsPassWithin }
{}

/// A run of any code makes at most as many payments as it has `Pay`s, each on a leg that one of them names, and evaluates at most as many
/// parts as it has operations.
pub fn runs_are_bounded()
    ensures { RunsAreBounded }
{}

/// All targets of flat code lie ahead and within it, and it saves at most twice as many values as its table has.
pub fn flat_code_is_bounded()
    ensures { FlatCodeIsBounded }
{}

/// A run of events evaluates at most as many parts as they have.
pub fn parts_are_counted()
    ensures { PartsAreCounted }
{}

/// Several threads can read one program at once, and a thread can give it to another.
pub fn programs_are_shared() {
    is_shared::<Program>();
    is_sent::<Program>();
}

/// Several threads can read a value of such a type at once.
fn is_shared<T: Sync>() {}

/// A thread can give a value of such a type to another.
fn is_sent<T: Send>() {}
