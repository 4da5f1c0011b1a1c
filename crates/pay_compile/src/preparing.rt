//! A trade made of a script.

ghost use Rattle.std.specs.Prelude.{◌≡◌, ◌<◌, ◌^◌, IfOk, IfErr, None, length, map};
ghost use Rattle.pay_compile.specs.Preparing.{compile_refusal, IsRefusalOf};
ghost use Rattle.pay_meaning.specs.Events.{events_of};
ghost use Rattle.pay_meaning.specs.Parts.{as_leg, as_variable, names_of};
ghost use Rattle.pay_passes.specs.Terms.{at_own_terms};
ghost use Rattle.pay_passes.specs.Trades.{IsGood, spelled_trade};
ghost use Rattle.pay_tree.specs.Views as view;

use crate::refusal::CompileRefusal;
use pay_passes::{Trade, index};
use pay_roll::roll;
use pay_tree::Script;
use std::alloc::Global;

/// The trade of a script: its events in order of date, with variables and legs by their numbers of first appearance in its text, and with `period()`
/// and `days()` as literals.
///
/// # Errors
///
/// The first of these that there is a cause for: `BadSchedule` with the first item whose schedule is bad; `TooMany` events (more than 4,096);
/// `SameDate` with the earliest date that two of them share; `TooMany` nodes of the events (262,144), payments (16,384), variables (1,024) or legs
/// (256). `NoMemory` where there was no memory.
pub fn prepare(alloc: Global, script: &Script) -> Result<Trade, CompileRefusal>
    requires { length script.now.items.items < 2 ^ 32 }
    ensures names { IfOk result (λ trade. trade.names.items ≡ names_of as_variable (view.script script.now)) }
    ensures legs { IfOk result (λ trade. trade.legs.items ≡ names_of as_leg (view.script script.now)) }
    ensures spelled { IfOk result (λ trade. spelled_trade trade ≡ map at_own_terms (events_of (view.script script.now))) }
    ensures good { IfOk result IsGood }
    ensures accepted { IfOk result (λ trade. compile_refusal (view.script script.now) ≡ None) }
    ensures refused { IfErr result (IsRefusalOf (view.script script.now)) }
{
    let events = roll(alloc, script)?;
    Ok(index(alloc, script, events)?)
}
