//! A piece of a domain.

ghost use Rattle.std.specs.Prelude.{◌≡◌};
ghost use Rattle.pay_domains.specs.Queries.{is_within, is_point};

/// A stretch of raws: all from `low` to `high`, both of them included.
#[derive(Clone, Copy, PartialEq, Eq, Debug)]
pub struct Piece {
    /// The least raw, in raws of 1/10,000.
    pub low: i64,
    /// The greatest raw, in raws of 1/10,000.
    pub high: i64,
}

impl Piece {
    /// Whether a raw lies in it.
    pub fn holds(self, raw: i64) -> bool
        ensures { result ≡ is_within raw self }
    {
        self.low <= raw && raw <= self.high
    }

    /// Whether it has one raw.
    pub fn is_point(self) -> bool
        ensures { result ≡ is_point self }
    {
        self.low == self.high
    }
}
