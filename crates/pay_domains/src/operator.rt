//! The operators with two sides.

ghost use Rattle.std.specs.Prelude.{◌≡◌};
ghost use Rattle.pay_domains.specs.Operators.{is_quotient};
ghost use Rattle.pay_domains.specs.Pairs.{meant};

/// An operator with two sides.
#[derive(Clone, Copy, PartialEq, Eq, Debug)]
pub enum Operator {
    /// The sum.
    Add,
    /// The difference.
    Subtract,
    /// The product.
    Multiply,
    /// The quotient.
    Divide,
    /// The lesser.
    Least,
    /// The greater.
    Greatest,
}

impl Operator {
    /// Whether it is the quotient.
    pub fn is_quotient(self) -> bool
        ensures { result ≡ is_quotient (meant self) }
    {
        match self {
            Operator::Divide => true,
            Operator::Add
            | Operator::Subtract
            | Operator::Multiply
            | Operator::Least
            | Operator::Greatest => false,
        }
    }
}
