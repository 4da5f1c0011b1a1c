//! Pieces put in order, joined and capped.

ghost use Rattle.std.specs.Prelude.{◌≡◌, ◌↔◌, nat_lt, ◌&&◌, not, ℤ, IfOk};
ghost use Rattle.pay_domains.specs.Pieces.{Held, AreProper, touches, joined, normal};
ghost use Rattle.pay_domains.specs.Merging.{AreInOrder, merged};

use crate::domain::MOST_PIECES;
use crate::piece::Piece;
use pay_fixed::NoMemory;
use std::alloc::Global;

/// Puts pieces in order of their lows.
fn sort_pieces(pieces: &mut Vec<Piece>)
    requires { AreProper pieces.old.items }
    ensures order { AreInOrder pieces.new.items }
    ensures held { (x : ℤ) → Held x pieces.new.items ↔ Held x pieces.old.items }
{
    pieces.sort_unstable_by_key(|piece| piece.low);
}

/// Whether no raw lies between two pieces, the second of which doesn't begin before the first.
fn touches(first: Piece, second: Piece) -> bool
    ensures { result ≡ touches first second }
{
    second.low <= first.high || second.low - 1 == first.high
}

/// Two pieces in one, the second of which doesn't begin before the first.
fn joined(first: Piece, second: Piece) -> Piece
    ensures { result ≡ joined first second }
{
    Piece {
        low: first.low,
        high: first.high.max(second.high),
    }
}

/// Whether a piece stands alone after the one before it, where so many are done before that one.
fn begins(done: usize, last: Piece, piece: Piece) -> bool
    ensures { result ≡ (nat_lt done 15 && not (touches last piece)) }
{
    done < MOST_PIECES - 1 && !touches(last, piece)
}

/// The pieces that others make with a first one, by their lows: where no raw lies between two they are one, and so are all from the sixteenth.
fn merged(alloc: Global, first: Piece, rest: &[Piece]) -> Result<Vec<Piece>, NoMemory>
    ensures { IfOk result (λ pieces. pieces.items ≡ merged first rest.now 15) }
{
    let mut pieces = Vec::with_capacity(alloc, rest.len().min(MOST_PIECES - 1) + 1)?;
    let mut last = first;
    for piece in rest {
        if begins(pieces.len(), last, *piece) {
            pieces.push(last)?;
            last = *piece;
        } else {
            last = joined(last, *piece);
        }
    }
    pieces.push(last)?;
    Ok(pieces)
}

/// The one list of pieces for the raws of pieces: they rise, with at least one raw between neighbours, and where there would be more than sixteen
/// all from the sixteenth are one.
pub fn normal(alloc: Global, pieces: &mut Vec<Piece>) -> Result<Vec<Piece>, NoMemory>
    requires { AreProper pieces.old.items }
    ensures { IfOk result (λ domain. domain.items ≡ normal pieces.old.items) }
{
    sort_pieces(pieces);
    match pieces.as_slice() {
        [] => Ok(Vec::new(alloc)),
        [first, rest @ ..] => merged(alloc, *first, rest),
    }
}
