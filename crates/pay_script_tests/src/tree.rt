//! Tests of what is asked of a script's tree, of trees that are read from a text.

use crate::script::script_of;
use crate::text::put_names;
use pay_dates::Day;
use pay_fixed::NoMemory;
use pay_text::print_script;
use pay_tree::{Item, Script, Stmt, copy_body, legs, pays, size, variables};
use std::alloc::Global;
use std::test::Fail;

/// A canonical text with each number, condition and statement.
pub const LINES: &[u8] = b"@2024-06-28
  x = ((-(1 + 2) * x) - 3);
  x = --0.5;
  x = min(min(a, 12.5), 0.0001);
  x = max(abs(spot()), 0);
  x = (period() / days());
  x pays 1;
  if not (x < 1 and (x < 0 or x > 2)) then
    if spot() = 1 then
      a pays 1;
    endif
  else
    a pays 2;
  endif
  if x < 1 then
  endif
  if x <= 1 then
  endif
  if x > 1 then
  endif
  if x >= 1 then
  endif
  if x = 1 then
  endif
  if x != 1 then
  endif
";

// The canonical text of one plain item with a copy of these statements.
fn copied(alloc: Global, date: Day, body: &[Stmt]) -> Result<Vec<u8>, NoMemory> {
    let mut items = Vec::new(alloc);
    let body = copy_body(alloc, body)?;
    items.push(Item::Plain { date, body })?;
    print_script(alloc, &Script { items })
}

#[test]
fn a_copy_is_printed_the_same(rt: HostRuntime) -> Result<(), Fail> {
    let script = script_of(rt.alloc(), LINES)??;
    let [Item::Plain { date, body }] = script.items.as_slice() else {
        return Err(Fail::new("one plain item"));
    };
    let text = copied(rt.alloc(), *date, body)?;
    assert_eq!(rt; text.as_slice(), LINES);
    Ok(())
}

// The `if`, its condition and two numbers, a payment and its number, an assignment and two numbers; and a schedule.
const BRANCHES: &[u8] = b"@2024-01-31 if z = 1 then x pays 1 else y = -x endif
schedule from @2024-01-31 to @2024-05-15 every 1 m do a = z b pays y a pays a x pays x end";

#[test]
fn bodies_are_counted(rt: HostRuntime) -> Result<(), Fail> {
    let script = script_of(rt.alloc(), BRANCHES)??;
    let [Item::Plain { body, .. }, _] = script.items.as_slice() else {
        return Err(Fail::new("a plain item and one more"));
    };
    assert_eq!(rt; (size(body), pays(body)), (9, 1));
    assert_eq!(rt; (size(&[]), pays(&[])), (0, 0));
    Ok(())
}

// The names of the variables, and those of the legs.
fn names_of(alloc: Global, script: &Script) -> Result<Vec<u8>, NoMemory> {
    let mut text = Vec::new(alloc);
    put_names(&mut text, &variables(alloc, script)?)?;
    text.extend_from_slice(b";")?;
    put_names(&mut text, &legs(alloc, script)?)?;
    Ok(text)
}

#[test]
fn names_stand_in_order_of_first_appearance(rt: HostRuntime) -> Result<(), Fail> {
    let script = script_of(rt.alloc(), BRANCHES)??;
    let text = names_of(rt.alloc(), &script)?;
    assert_eq!(rt; text.as_slice(), b" z y x a; x b a".as_slice());
    Ok(())
}
