//! The signs and words between the parts of a text.

ghost use Rattle.std.specs.Prelude.{◌≡◌};
ghost use Rattle.pay_text.specs.Text as text_of;
ghost use Rattle.pay_tree.specs.Views as view;

use pay_tree::{Binary, Compare};

/// What stands before two numbers under an operator.
pub fn opening(op: Binary) -> &'static [u8]
    ensures { result.now ≡ text_of.opening (view.operator op) }
{
    match op {
        Binary::Add | Binary::Sub | Binary::Mul | Binary::Div => b"(",
        Binary::Min => b"min(",
        Binary::Max => b"max(",
    }
}

/// What stands between two numbers under an operator.
pub fn between(op: Binary) -> &'static [u8]
    ensures { result.now ≡ text_of.between (view.operator op) }
{
    match op {
        Binary::Add => b" + ",
        Binary::Sub => b" - ",
        Binary::Mul => b" * ",
        Binary::Div => b" / ",
        Binary::Min | Binary::Max => b", ",
    }
}

/// The sign of a comparison, as it stands between two numbers.
pub fn comparing(op: Compare) -> &'static [u8]
    ensures { result.now ≡ text_of.comparing (view.comparison op) }
{
    match op {
        Compare::Less => b" < ",
        Compare::LessEq => b" <= ",
        Compare::More => b" > ",
        Compare::MoreEq => b" >= ",
        Compare::Same => b" = ",
        Compare::Differs => b" != ",
    }
}

/// The word of a truth.
pub fn truth(answer: bool) -> &'static [u8]
    ensures { result.now ≡ text_of.truth_text answer }
{
    if answer { b"true" } else { b"false" }
}
