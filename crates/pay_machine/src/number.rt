//! What operations make of numbers, or their faults.

ghost use Rattle.std.specs.Prelude.{◌≡◌, Ok, Err, IfOk, IsErrOf};
ghost use Rattle.pay_meaning.specs.Meaning as meant;
ghost use Rattle.pay_runs.specs.Slots.{signed_value};
ghost use Rattle.pay_tree.specs.Views.{operator};

use pay_fixed::{Arith, Fixed};
use pay_meaning::FaultKind;
use pay_tree::{Binary, Unary};

/// The number that a number is under an operator.
pub(crate) fn signed(op: Unary, number: Fixed) -> Fixed
    ensures { result ≡ signed_value op number }
{
    match op {
        Unary::Neg => number.neg(),
        Unary::Abs => number.abs(),
    }
}

/// The number of two numbers under an operator.
///
/// # Errors
///
/// `ZeroDivisor` for a quotient by zero, else `Overflow` where it is beyond the limit.
pub(crate) fn calculated(op: Binary, left: Fixed, right: Fixed) -> Result<Fixed, FaultKind>
    ensures { result ≡ meant.calculated (operator op) left right }
{
    match op {
        Binary::Add => limited(left.add(right)),
        Binary::Sub => limited(left.sub(right)),
        Binary::Mul => limited(left.mul(right)),
        Binary::Div => limited(left.div(right)),
        Binary::Min => Ok(left.min(right)),
        Binary::Max => Ok(left.max(right)),
    }
}

/// A fixing.
///
/// # Errors
///
/// `MissingFixing` where there is none.
pub(crate) fn known(fixing: Option<Fixed>) -> Result<Fixed, FaultKind>
    ensures { result ≡ meant.known fixing }
{
    fixing.ok_or(FaultKind::MissingFixing)
}

/// The answer of a calculation, with the fault that its error is.
fn limited(answer: Result<Fixed, Arith>) -> Result<Fixed, FaultKind>
    ensures ok { IfOk answer (λ number. result ≡ Ok number) }
    ensures overflow { IsErrOf answer Arith.Overflow → result ≡ Err FaultKind.Overflow }
    ensures zero_divisor { IsErrOf answer Arith.ZeroDivisor → result ≡ Err FaultKind.ZeroDivisor }
{
    match answer {
        Ok(number) => Ok(number),
        Err(Arith::Overflow) => Err(FaultKind::Overflow),
        Err(Arith::ZeroDivisor) => Err(FaultKind::ZeroDivisor),
    }
}
