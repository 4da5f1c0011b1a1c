//! A program made of a trade.

ghost use Rattle.std.specs.Prelude.{◌≡◌, ◌≤◌, false, IfOk, length};
ghost use Rattle.pay_code.specs.Bounds.{pays_in};
ghost use Rattle.pay_code.specs.Programs.{StandsFor};
ghost use Rattle.pay_compile.specs.Compiling.{CountsNodes, dates_of, events_until, HasOwnLegs, MeansDirectly};
ghost use Rattle.pay_compile.specs.Prepared.{no_values, prepared};
ghost use Rattle.pay_facts.specs.Facts.{no_facts};
ghost use Rattle.pay_passes.specs.Trades.{IsGood, spelled_trade};
ghost use Rattle.pay_simplified.specs.Simplified.{simplified};

use crate::events::prepared_events;
use crate::laws::prepared_is_simplified;
use pay_code::{Program, lower};
use pay_dates::Day;
use pay_fixed::{Fixed, NoMemory};
use pay_passes::Trade;
use pay_tree::Name;
use std::alloc::Global;

/// What a run starts from.
#[derive(Clone, Copy, PartialEq, Eq, Debug)]
pub enum Start {
    /// No event has run: each variable is 0.
    Fresh,
}

/// How the conditions of a run are taken.
#[derive(Clone, Copy, PartialEq, Eq, Debug)]
pub enum Mode {
    /// Each is true or false.
    Crisp,
}

/// The program of a trade, which has to be good, from this start: that of its events up to `until`, or of all of them, simplified by what is known of
/// them before any run. A number that is known to have one value, and not to fault, is that number; an `if` whose condition is known to be true, or to
/// be false, is the branch that runs, and where the condition can fault it stays with that branch alone. What a run pays, how it ends and its fault are
/// as they were, under fixings within the limit of a fixing, 10^15 raws. It starts from the values of `start`.
///
/// # Errors
///
/// [`NoMemory`] where there was no memory for the program or for what it is made of.
pub fn compile(
    alloc: Global,
    trade: &Trade,
    start: &Start,
    until: Option<Day>,
    mode: Mode,
) -> Result<Program, NoMemory>
    requires { IsGood trade.now }
    ensures stands { IfOk result (λ program. StandsFor program (prepared until trade.now)) }
    ensures dates { IfOk result (λ program. program.dates ≡ dates_of (events_until until (spelled_trade trade.now))) }
    ensures start { IfOk result (λ program. program.start ≡ no_values trade.now.names.items) }
    ensures crisp { IfOk result (λ program. program.fuzzy ≡ false) }
    ensures legs { IfOk result (HasOwnLegs (length trade.now.legs.items)) }
    ensures pays { IfOk result (λ program. pays_in program.code ≤ 16_384) }
    ensures counts { IfOk result (CountsNodes (simplified (events_until until (spelled_trade trade.now)) no_facts)) }
    ensures means { IfOk result (MeansDirectly trade.now.names.items trade.now.legs.items (events_until until (spelled_trade trade.now))) }
{
    prepared_is_simplified();
    let values = start_values(alloc, start, &trade.names)?;
    let events = prepared_events(alloc, &trade.events, until, &values)?;
    lower(alloc, &events, &values, is_fuzzy(mode))
}

/// Whether the runs of this mode read the smoothings of comparisons.
fn is_fuzzy(mode: Mode) -> bool
    ensures { result ≡ false }
{
    match mode {
        Mode::Crisp => false,
    }
}

/// The values that the variables of these names start from.
fn start_values(alloc: Global, start: &Start, names: &Vec<Name>) -> Result<Vec<Fixed>, NoMemory>
    ensures { IfOk result (λ values. values.items ≡ no_values names.now.items) }
{
    match start {
        Start::Fresh => zeros(alloc, names),
    }
}

/// A 0 for each of these names.
fn zeros(alloc: Global, names: &Vec<Name>) -> Result<Vec<Fixed>, NoMemory>
    ensures { IfOk result (λ values. values.items ≡ no_values names.now.items) }
{
    let mut values = Vec::new(alloc);
    for _name in names {
        values.push(Fixed::from_raw(0).unwrap())?;
    }
    Ok(values)
}
