//! What can be asked of pieces.

ghost use Rattle.std.specs.Prelude.{◌≡◌};
ghost use Rattle.std.specs.List.{list_all};
ghost use Rattle.pay_domains.specs.Queries.{is_held, is_none, is_point, point_of, is_discrete, last_below, first_above};

use crate::piece::Piece;

/// Whether a raw lies in one of the pieces.
pub fn holds(pieces: &[Piece], raw: i64) -> bool
    ensures { result ≡ is_held raw pieces.now }
{
    pieces.iter().any(|piece| piece.holds(raw))
}

/// Whether there are no pieces.
pub fn is_empty(pieces: &[Piece]) -> bool
    ensures { result ≡ is_none pieces.now }
{
    pieces.is_empty()
}

/// The raw of the pieces, if they have one alone.
pub fn single(pieces: &[Piece]) -> Option<i64>
    ensures { result ≡ point_of pieces.now }
{
    match pieces {
        [piece] if piece.is_point() => Some(piece.low),
        _ => None,
    }
}

/// Whether each of the pieces has one raw.
fn are_points(pieces: &[Piece]) -> bool
    ensures { result ≡ list_all is_point pieces.now }
{
    pieces.iter().all(|piece| piece.is_point())
}

/// Whether there are pieces, and each has one raw.
pub fn is_discrete(pieces: &[Piece]) -> bool
    ensures { result ≡ is_discrete pieces.now }
{
    match pieces {
        [] => false,
        [_, ..] => are_points(pieces),
    }
}

/// The greatest raw under a limit, if there is one; the pieces rise.
pub fn below(pieces: &[Piece], limit: i64) -> Option<i64>
    ensures { result ≡ last_below limit pieces.now }
{
    let mut last = None;
    for piece in pieces {
        if limit <= piece.low {
            return last;
        }
        last = Some(piece.high.min(limit - 1));
    }
    last
}

/// The least raw over a limit, if there is one; the pieces rise.
pub fn above(pieces: &[Piece], limit: i64) -> Option<i64>
    ensures { result ≡ first_above limit pieces.now }
{
    for piece in pieces {
        if limit < piece.high {
            return Some(piece.low.max(limit + 1));
        }
    }
    None
}
