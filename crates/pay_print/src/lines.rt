//! Single lines.

ghost use Rattle.std.specs.Prelude.{◌≡◌, ◌++◌, codes, map, IfOk, OnOk};
ghost use Rattle.pay_print.specs.StepText as text_of;
ghost use Rattle.pay_print.specs.TreeText.{indent_at};
ghost use Rattle.pay_tree.specs.Owned.{name_at, spelled_number, spelled_test};
ghost use Rattle.pay_tree.specs.OwnedViews.{number_tree, test_tree};
ghost use Rattle.pay_text.specs.Text.{condition_text, deeper, line_text, word_line};

use crate::parts::{name_at, print_number, print_test};
use pay_fixed::NoMemory;
use pay_tree::{Name, Node, Test};
use std::alloc::Global;

/// The indent at a depth.
pub fn indent_at(alloc: Global, depth: u32) -> Result<Vec<u8>, NoMemory>
    ensures { IfOk result (λ indent. indent.items ≡ indent_at depth) }
{
    let mut indent = Vec::new(alloc);
    for _ in 0..depth {
        indent.extend_from_slice(b"  ")?;
    }
    Ok(indent)
}

/// The indent of the branches of an `if`: two spaces more.
pub fn deeper(alloc: Global, indent: &[u8]) -> Result<Vec<u8>, NoMemory>
    ensures { IfOk result (λ inner. inner.items ≡ deeper indent.now) }
{
    let mut inner = Vec::from_slice(alloc, indent)?;
    inner.extend_from_slice(b"  ")?;
    Ok(inner)
}

/// Appends a line: the indent, a name, the text between it and its number, the number and `;`.
pub fn print_line(
    indent: &[u8],
    name: &[u8],
    middle: &[u8],
    names: &[Name],
    number: &Node,
    text: &mut Vec<u8>,
) -> Result<(), NoMemory>
    ensures { OnOk result (text.new.items ≡ text.old.items
        ++ line_text indent.now name.now middle.now (spelled_number names.now (number_tree number.now))) }
{
    text.extend_from_slice(indent)?;
    text.extend_from_slice(name)?;
    text.extend_from_slice(middle)?;
    print_number(names, number, text)?;
    text.extend_from_slice(b";\n")?;
    Ok(())
}

/// Appends a line: the indent and a word.
pub fn print_word_line(indent: &[u8], word: &[u8], text: &mut Vec<u8>) -> Result<(), NoMemory>
    ensures { OnOk result (text.new.items ≡ text.old.items ++ word_line indent.now word.now) }
{
    text.extend_from_slice(indent)?;
    text.extend_from_slice(word)?;
    text.extend_from_slice(b"\n")?;
    Ok(())
}

/// Appends the line of an `if`: the indent, the test, and the names of the variables that the branches change.
pub fn print_choice_line(
    indent: &[u8],
    names: &[Name],
    test: &Test,
    changes: &[u32],
    text: &mut Vec<u8>,
) -> Result<(), NoMemory>
    ensures { OnOk result (text.new.items ≡ text.old.items
        ++ text_of.choice_line indent.now (spelled_test names.now (test_tree test.now)) (map (name_at names.now) changes.now)) }
{
    text.extend_from_slice(indent)?;
    text.extend_from_slice(b"if ")?;
    print_test(names, test, text)?;
    text.extend_from_slice(b" then // changes ")?;
    print_changes(names, changes, text)
}

/// Appends the names of variables, with `, ` between them, and the end of the line; `nothing` where there are no variables.
fn print_changes(names: &[Name], changes: &[u32], text: &mut Vec<u8>) -> Result<(), NoMemory>
    ensures { OnOk result (text.new.items ≡ text.old.items ++ (text_of.names_text (map (name_at names.now) changes.now) ++ codes "\n")) }
{
    match changes {
        [] => text.extend_from_slice(b"nothing\n")?,
        [first, further @ ..] => {
            text.extend_from_slice(name_at(names, *first))?;
            print_further_changes(names, further, text)?;
            text.extend_from_slice(b"\n")?;
        }
    }
    Ok(())
}

/// Appends the names of further variables, each after `, `.
fn print_further_changes(
    names: &[Name],
    changes: &[u32],
    text: &mut Vec<u8>,
) -> Result<(), NoMemory>
    ensures { OnOk result (text.new.items ≡ text.old.items ++ text_of.further_names_text (map (name_at names.now) changes.now)) }
{
    for slot in changes {
        text.extend_from_slice(b", ")?;
        text.extend_from_slice(name_at(names, *slot))?;
    }
    Ok(())
}
