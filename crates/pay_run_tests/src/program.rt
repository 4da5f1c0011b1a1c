//! Trades of scripts that are read from texts, and their runs. What can't be had is `None`: a test that meets it fails.

ghost use Rattle.std.specs.Prelude.{IfSome};
ghost use Rattle.pay_machine.specs.Rows.{IsCell};
ghost use Rattle.pay_passes.specs.Trades.{IsGood};

use pay_code::Program;
use pay_compile::{Mode, Start, compile, prepare};
use pay_dates::Day;
use pay_fixed::Fixed;
use pay_lexer::lex;
use pay_machine::{Machine, Outcome, Row};
use pay_parser::parse;
use pay_passes::Trade;
use std::alloc::Global;

/// The trade of a script's text.
pub fn trade_of(alloc: Global, text: &[u8]) -> Option<Trade>
    ensures { IfSome result IsGood }
{
    if text.len() > 1_048_576 {
        return None;
    }
    let tokens = lex(alloc, text).ok()?;
    let script = parse(alloc, &tokens).ok()?;
    if script.items.len() > 1_000 {
        return None;
    }
    prepare(alloc, &script).ok()
}

/// The program of a trade, of its events up to a date or of all.
pub fn program_of(alloc: Global, trade: &Trade, until: Option<Day>) -> Option<Program>
    requires { IsGood trade.now }
{
    compile(alloc, trade, &Start::Fresh, until, Mode::Crisp).ok()
}

/// A row of these cells, by their raws.
fn row_of(alloc: Global, cells: &[Option<i64>]) -> Option<Row> {
    let mut row = Row::new(alloc);
    for cell in cells {
        row.push(fixing_of(*cell)?).ok()?;
    }
    Some(row)
}

/// The fixing of this raw, which can be one; or no fixing.
fn fixing_of(cell: Option<i64>) -> Option<Option<Fixed>>
    ensures { IfSome result IsCell }
{
    match cell {
        Some(raw) if raw.unsigned_abs() <= 1_000_000_000_000_000 => Some(Some(Fixed::from_raw(
            raw,
        )?)),
        Some(_) => None,
        None => Some(None),
    }
}

/// The outcome of a trade's run over these cells, one for each event.
pub fn outcome_of(alloc: Global, trade: &Trade, cells: &[Option<i64>]) -> Option<Outcome>
    requires { IsGood trade.now }
{
    let program = program_of(alloc, trade, None)?;
    let row = row_of(alloc, cells)?;
    if row.cells().len() != program.dates().len() {
        return None;
    }
    let mut outcome = Outcome::prepare(alloc, &program).ok()?;
    let mut machine = Machine::prepare(alloc, &program).ok()?;
    machine.run(&program, &row, &mut outcome);
    Some(outcome)
}
