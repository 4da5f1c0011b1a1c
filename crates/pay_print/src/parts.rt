//! Names, numbers and tests.

ghost use Rattle.std.specs.Prelude.{◌≡◌, ◌++◌, None, OnOk};
ghost use Rattle.pay_tree.specs.Owned.{name_at, spelled_number, spelled_test};
ghost use Rattle.pay_tree.specs.OwnedViews.{number_tree, test_kind_tree, test_tree};
ghost use Rattle.pay_text.specs.Text.{condition_text, number_text};

use crate::words::{between, comparing, opening, truth};
use pay_fixed::NoMemory;
use pay_tree::{Name, Node, NodeKind, Test, TestKind, Unary};

/// The name of a number; past the end of the names there is none.
pub fn name_at(names: &[Name], number: u32) -> &[u8]
    ensures { result.now ≡ name_at names.now number }
{
    match names.get(number as usize) {
        Some(name) => name.bytes(),
        None => b"",
    }
}

/// Appends a number.
pub fn print_number(names: &[Name], node: &Node, text: &mut Vec<u8>) -> Result<(), NoMemory>
    ensures { OnOk result (text.new.items ≡ text.old.items ++ number_text (spelled_number names.now (number_tree node.now))) }
{
    match &node.kind {
        NodeKind::Number(literal) => literal.write_decimal(text)?,
        NodeKind::Slot(slot) => text.extend_from_slice(name_at(names, *slot))?,
        NodeKind::Spot => text.extend_from_slice(b"spot()")?,
        NodeKind::Unary(Unary::Neg, side) => {
            text.extend_from_slice(b"-")?;
            print_number(names, side, text)?;
        }
        NodeKind::Unary(Unary::Abs, side) => {
            text.extend_from_slice(b"abs(")?;
            print_number(names, side, text)?;
            text.extend_from_slice(b")")?;
        }
        NodeKind::Binary(op, left, right) => {
            text.extend_from_slice(opening(*op))?;
            print_number(names, left, text)?;
            text.extend_from_slice(between(*op))?;
            print_number(names, right, text)?;
            text.extend_from_slice(b")")?;
        }
    }
    Ok(())
}

/// Appends a test; in `sure`, with its answer, where it is asked for its fault alone.
#[cycle(condition)]
pub fn print_test(names: &[Name], test: &Test, text: &mut Vec<u8>) -> Result<(), NoMemory>
    ensures { OnOk result (text.new.items ≡ text.old.items ++ condition_text (spelled_test names.now (test_tree test.now))) }
{
    match test.sure {
        None => print_test_kind(names, &test.kind, text),
        Some(answer) => {
            text.extend_from_slice(b"sure(")?;
            text.extend_from_slice(truth(answer))?;
            text.extend_from_slice(b", ")?;
            print_test_kind(names, &test.kind, text)?;
            text.extend_from_slice(b")")?;
            Ok(())
        }
    }
}

/// Appends a test of this kind, which is not sure of its answer.
#[cycle(condition)]
fn print_test_kind(names: &[Name], kind: &TestKind, text: &mut Vec<u8>) -> Result<(), NoMemory>
    ensures { OnOk result (text.new.items ≡ text.old.items ++ condition_text (spelled_test names.now (test_kind_tree kind.now 0 None))) }
{
    match kind {
        TestKind::Truth(answer) => text.extend_from_slice(truth(*answer))?,
        TestKind::Compare {
            op,
            left,
            right,
            ..
        } => {
            print_number(names, left, text)?;
            text.extend_from_slice(comparing(*op))?;
            print_number(names, right, text)?;
        }
        TestKind::Not(side) => {
            text.extend_from_slice(b"not ")?;
            print_test(names, side, text)?;
        }
        TestKind::And(left, right) => {
            text.extend_from_slice(b"(")?;
            print_test(names, left, text)?;
            text.extend_from_slice(b" and ")?;
            print_test(names, right, text)?;
            text.extend_from_slice(b")")?;
        }
        TestKind::Or(left, right) => {
            text.extend_from_slice(b"(")?;
            print_test(names, left, text)?;
            text.extend_from_slice(b" or ")?;
            print_test(names, right, text)?;
            text.extend_from_slice(b")")?;
        }
    }
    Ok(())
}
