//! Tests of the calls on domains.

use pay_domains::{Domain, Flags, Piece};
use std::test::Fail;

// No fault.
const NONE: Flags = Flags {
    overflow: false,
    zero: false,
    missing: false,
};

#[test]
fn meet_has_what_both_have(rt: HostRuntime) -> Result<(), Fail> {
    let alloc = rt.alloc();
    let points = Domain::point(alloc, 10_000)?.union(&Domain::point(alloc, 30_000)?)?;
    let stretch = Domain::interval(alloc, 20_000, 50_000)?;
    let both = points.meet(&stretch)?;
    assert!(rt;
        both.pieces()
            == [Piece {
                low: 30_000,
                high: 30_000
            }]
            .as_slice()
    );
    assert_eq!(rt; both.single(), Some(30_000));
    Ok(())
}

#[test]
fn a_product_lies_between_its_four_corners(rt: HostRuntime) -> Result<(), Fail> {
    let alloc = rt.alloc();
    let left = Domain::interval(alloc, -10_000, 20_000)?;
    let right = Domain::interval(alloc, -30_000, 40_000)?;
    let product = left.mul(&right)?;
    assert!(rt;
        product.domain.pieces()
            == [Piece {
                low: -60_000,
                high: 80_000
            }]
            .as_slice()
    );
    assert_eq!(rt; product.flags, NONE);
    Ok(())
}

// 1 over the numbers from -0.0002 to 0.0001 and those from 2 to 4: the first are cut at 0, which is flagged.
#[test]
fn a_divisor_is_cut_at_zero(rt: HostRuntime) -> Result<(), Fail> {
    let alloc = rt.alloc();
    let one = Domain::point(alloc, 10_000)?;
    let divisor = Domain::interval(alloc, -2, 1)?.union(&Domain::interval(alloc, 20_000, 40_000)?)?;
    let quotient = one.div(&divisor)?;
    let pieces = [
        Piece {
            low: -100_000_000,
            high: -50_000_000,
        },
        Piece {
            low: 2_500,
            high: 5_000,
        },
        Piece {
            low: 100_000_000,
            high: 100_000_000,
        },
    ];
    assert!(rt; quotient.domain.pieces() == pieces.as_slice());
    assert_eq!(rt; quotient.flags, Flags { zero: true, ..NONE });
    Ok(())
}

// Neighbours are one piece, and a gap of one raw parts two.
#[test]
fn neighbours_are_joined(rt: HostRuntime) -> Result<(), Fail> {
    let alloc = rt.alloc();
    let low = Domain::interval(alloc, 1, 3)?;
    let joined = low.union(&Domain::interval(alloc, 4, 6)?)?;
    assert!(rt; joined.pieces() == [Piece { low: 1, high: 6 }].as_slice());
    let parted = low.union(&Domain::point(alloc, 5)?)?;
    assert!(rt;
        parted.pieces() == [Piece { low: 1, high: 3 }, Piece { low: 5, high: 5 }].as_slice()
    );
    assert_eq!(rt; parted.below(5), Some(3));
    assert_eq!(rt; parted.above(3), Some(5));
    assert!(rt; !parted.holds(4) && !parted.is_discrete() && !parted.is_empty());
    Ok(())
}
