//! Unions and intersections of pieces, and pieces with other signs.

ghost use Rattle.std.specs.Prelude.{◌≡◌, ◌≤◌, ◌++◌, length, map, OnOk, IfOk};
ghost use Rattle.std.specs.List.{All, flat_map};
ghost use Rattle.pay_domains.specs.Operators.{turned, magnitude, common};
ghost use Rattle.pay_domains.specs.Pairs.{IsRawPiece};

use crate::piece::Piece;
use pay_fixed::NoMemory;
use std::alloc::Global;

/// The pieces of two lists.
pub fn both(alloc: Global, left: &[Piece], right: &[Piece]) -> Result<Vec<Piece>, NoMemory>
    requires few_left { length left.now ≤ 16 }
    requires few_right { length right.now ≤ 16 }
    ensures { IfOk result (λ pieces. pieces.items ≡ left.now ++ right.now) }
{
    let mut pieces = Vec::with_capacity(alloc, left.len() + right.len())?;
    pieces.extend_from_slice(left)?;
    pieces.extend_from_slice(right)?;
    Ok(pieces)
}

/// Adds what two pieces have in common, if they do.
fn add_common(left: Piece, right: Piece, into: &mut Vec<Piece>) -> Result<(), NoMemory>
    ensures { OnOk result (into.new.items ≡ into.old.items ++ common left right) }
{
    let low = left.low.max(right.low);
    let high = left.high.min(right.high);
    if low <= high {
        into.push(Piece { low, high })?;
    }
    Ok(())
}

/// Adds what a piece has in common with each of others.
fn add_commons(left: Piece, right: &[Piece], into: &mut Vec<Piece>) -> Result<(), NoMemory>
    ensures { OnOk result (into.new.items ≡ into.old.items ++ flat_map (common left) right.now) }
{
    for piece in right {
        add_common(left, *piece, into)?;
    }
    Ok(())
}

/// What the pieces of two lists have in common.
pub fn commons(alloc: Global, left: &[Piece], right: &[Piece]) -> Result<Vec<Piece>, NoMemory>
    requires few_left { length left.now ≤ 16 }
    requires few_right { length right.now ≤ 16 }
    ensures { IfOk result (λ pieces. pieces.items ≡ flat_map (λ p. flat_map (common p) right.now) left.now) }
{
    let mut pieces = Vec::with_capacity(alloc, left.len() + right.len())?;
    for piece in left {
        add_commons(*piece, right, &mut pieces)?;
    }
    Ok(pieces)
}

/// A piece with the other sign.
fn turned(piece: Piece) -> Piece
    requires { IsRawPiece piece }
    ensures { result ≡ turned piece }
{
    Piece {
        low: -piece.high,
        high: -piece.low,
    }
}

/// The pieces with the other sign.
pub fn all_turned(alloc: Global, pieces: &[Piece]) -> Result<Vec<Piece>, NoMemory>
    requires { All IsRawPiece pieces.now }
    ensures { IfOk result (λ all. all.items ≡ map turned pieces.now) }
{
    let mut all = Vec::with_capacity(alloc, pieces.len())?;
    for piece in pieces {
        all.push(turned(*piece))?;
    }
    Ok(all)
}

/// The magnitudes of the raws of a piece.
fn magnitude(piece: Piece) -> Piece
    requires { IsRawPiece piece }
    ensures { result ≡ magnitude piece }
{
    if 0 <= piece.low {
        piece
    } else if piece.high <= 0 {
        turned(piece)
    } else {
        Piece {
            low: 0,
            high: (-piece.low).max(piece.high),
        }
    }
}

/// The magnitudes of the raws of pieces.
pub fn magnitudes(alloc: Global, pieces: &[Piece]) -> Result<Vec<Piece>, NoMemory>
    requires { All IsRawPiece pieces.now }
    ensures { IfOk result (λ all. all.items ≡ map magnitude pieces.now) }
{
    let mut all = Vec::with_capacity(alloc, pieces.len())?;
    for piece in pieces {
        all.push(magnitude(*piece))?;
    }
    Ok(all)
}
