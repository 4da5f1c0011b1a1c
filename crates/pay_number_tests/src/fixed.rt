//! Tests of the calls on numbers.

use pay_fixed::{
    Arith, Fixed, LIMIT, NumberFault, Smooth, WHOLE, blend, laws, read_decimal, scale, weight,
};
use std::cmp::Ordering;
use std::test::Fail;

// A text, and the raw that it spells or why there is none.
const TEXTS: &[(&[u8], Result<i64, NumberFault>)] = &[
    (b"100.123456789012345", Ok(1_001_235)),
    (b"12.5", Ok(125_000)),
    (b"0", Ok(0)),
    (b" \t+7 \t", Ok(70_000)),
    (b"1e-05", Ok(0)),
    (b"5e-05", Ok(1)),
    (b"-0.00005", Ok(-1)),
    (b"-0.0001", Ok(-1)),
    (b"0.00004999999999999999999999999999999999", Ok(0)),
    (b"1E+2", Ok(1_000_000)),
    (b"1e11", Ok(1_000_000_000_000_000)),
    (b"0e99", Ok(0)),
    (b"100000000000000", Ok(1_000_000_000_000_000_000)),
    (b"100000000000000.00004", Ok(1_000_000_000_000_000_000)),
    (b"100000000000000.0001", Err(NumberFault::TooLarge)),
    (b"-1e99", Err(NumberFault::TooLarge)),
    (b"-100000000000000", Ok(-1_000_000_000_000_000_000)),
    (b"-100000000000000.0001", Err(NumberFault::TooLarge)),
    (b"", Err(NumberFault::NotNumber)),
    (b" ", Err(NumberFault::NotNumber)),
    (b".5", Err(NumberFault::NotNumber)),
    (b"1.", Err(NumberFault::NotNumber)),
    (b"1e", Err(NumberFault::NotNumber)),
    (b"1e123", Err(NumberFault::NotNumber)),
    // 40 bytes between blanks, and 41
    (b" 1.00000000000000000000000000000000000000 ", Ok(10_000)),
    (
        b" 1.000000000000000000000000000000000000000 ",
        Err(NumberFault::NotNumber),
    ),
];

// A raw, and the text that is written for it.
const RAWS: &[(i64, &[u8])] = &[
    (125_000, b"12.5"),
    (0, b"0"),
    (-1, b"-0.0001"),
    (10_000, b"1"),
    (-1_000_000_000_000_000_000, b"-100000000000000"),
    (1_203, b"0.1203"),
];

// Two raws, and the raw of their product or why there is none.
const PRODUCTS: &[(i64, i64, Result<i64, Arith>)] = &[
    (20_000, 30_000, Ok(60_000)),
    (12_500, -20_000, Ok(-25_000)),
    (-1_000_000_000_000_000_000, 0, Ok(0)),
    // 0.0001 by a half, and by a little less
    (1, 5_000, Ok(1)),
    (-1, 5_000, Ok(-1)),
    (1, -5_000, Ok(-1)),
    (-1, -5_000, Ok(1)),
    (1, 4_999, Ok(0)),
    (-1, 4_999, Ok(0)),
    // two and a half raws
    (5, 5_000, Ok(3)),
    (-5, 5_000, Ok(-3)),
    // the limit exactly, and a hundredth of a raw above it
    (
        1_000_000_000_000_000_000,
        -10_000,
        Ok(-1_000_000_000_000_000_000),
    ),
    (
        999_900_009_999_000_100,
        10_001,
        Ok(1_000_000_000_000_000_000),
    ),
    // half a raw above the limit, and a whole one
    (666_666_666_666_666_667, 15_000, Err(Arith::Overflow)),
    (666_666_666_666_666_667, -15_000, Err(Arith::Overflow)),
    (10_000_010_000, 999_999_000_001, Err(Arith::Overflow)),
    (-10_000_010_000, 999_999_000_001, Err(Arith::Overflow)),
    (
        -1_000_000_000_000_000_000,
        -1_000_000_000_000_000_000,
        Err(Arith::Overflow),
    ),
];

// A dividend and a divisor, and the raw of their quotient or why there is none.
const QUOTIENTS: &[(i64, i64, Result<i64, Arith>)] = &[
    (10_000, 30_000, Ok(3_333)),
    (20_000, 30_000, Ok(6_667)),
    (-20_000, 30_000, Ok(-6_667)),
    (20_000, -30_000, Ok(-6_667)),
    (-20_000, -30_000, Ok(6_667)),
    (0, -30_000, Ok(0)),
    // half a raw, a little less, and two and a half
    (1, 20_000, Ok(1)),
    (-1, 20_000, Ok(-1)),
    (1, 20_001, Ok(0)),
    (5, 20_000, Ok(3)),
    (5, -20_000, Ok(-3)),
    // the limit, and one raw above it
    (
        1_000_000_000_000_000_000,
        10_000,
        Ok(1_000_000_000_000_000_000),
    ),
    (
        999_900_000_000_000_000,
        -9_999,
        Ok(-1_000_000_000_000_000_000),
    ),
    (999_900_000_000_000_001, 9_999, Err(Arith::Overflow)),
    (999_900_000_000_000_001, -9_999, Err(Arith::Overflow)),
    (-1_000_000_000_000_000_000, 1, Err(Arith::Overflow)),
    // no divisor, under a dividend that overflows over the least one, and under others
    (1_000_000_000_000_000_000, 0, Err(Arith::ZeroDivisor)),
    (-1, 0, Err(Arith::ZeroDivisor)),
    (0, 0, Err(Arith::ZeroDivisor)),
];

// Two raws, the smaller and the greater of them, and the magnitude and the negative of the first.
const PAIRS: &[(i64, i64, i64, i64, i64, i64)] = &[
    (1, 2, 1, 2, 1, -1),
    (2, 1, 1, 2, 2, -2),
    (-2, -1, -2, -1, 2, 2),
    (-1, 2, -1, 2, 1, 1),
    (0, -3, -3, 0, 0, 0),
    (
        -1_000_000_000_000_000_000,
        1_000_000_000_000_000_000,
        -1_000_000_000_000_000_000,
        1_000_000_000_000_000_000,
        1_000_000_000_000_000_000,
        1_000_000_000_000_000_000,
    ),
];

#[test]
fn texts_are_read(rt: HostRuntime) -> Result<(), Fail> {
    for &(text, wanted) in TEXTS {
        assert_eq!(rt; read_decimal(text).map(Fixed::raw), wanted);
    }
    Ok(())
}

#[test]
fn raws_are_written(rt: HostRuntime) -> Result<(), Fail> {
    for &(raw, wanted) in RAWS {
        let number = Fixed::from_raw(raw).ok_or("within the limit")?;
        let mut text = Vec::new(rt.alloc());
        number.write_decimal(&mut text)?;
        assert_eq!(rt; text.as_slice(), wanted);
    }
    Ok(())
}

#[test]
fn sums_at_the_limit(rt: HostRuntime) -> Result<(), Fail> {
    let most = Fixed::from_raw(1_000_000_000_000_000_000).ok_or("the limit")?;
    let one = Fixed::from_raw(1).ok_or("one")?;
    assert_eq!(rt; most.add(one), Err(Arith::Overflow));
    assert_eq!(rt; most.sub(one).map(Fixed::raw), Ok(999_999_999_999_999_999));
    let next = Fixed::from_raw(999_999_999_999_999_999).ok_or("below the limit")?;
    assert_eq!(rt;
        next.add(one).map(Fixed::raw),
        Ok(1_000_000_000_000_000_000)
    );
    let least = Fixed::from_raw(-1_000_000_000_000_000_000).ok_or("the negative limit")?;
    assert_eq!(rt; least.sub(one), Err(Arith::Overflow));
    assert!(rt; Fixed::from_raw(-1_000_000_000_000_000_001).is_none());
    Ok(())
}

#[test]
fn products_are_rounded(rt: HostRuntime) -> Result<(), Fail> {
    for &(first, second, wanted) in PRODUCTS {
        let first = Fixed::from_raw(first).ok_or("within the limit")?;
        let second = Fixed::from_raw(second).ok_or("within the limit")?;
        assert_eq!(rt; first.mul(second).map(Fixed::raw), wanted);
    }
    Ok(())
}

#[test]
fn quotients_are_rounded(rt: HostRuntime) -> Result<(), Fail> {
    for &(dividend, divisor, wanted) in QUOTIENTS {
        let dividend = Fixed::from_raw(dividend).ok_or("within the limit")?;
        let divisor = Fixed::from_raw(divisor).ok_or("within the limit")?;
        assert_eq!(rt; dividend.div(divisor).map(Fixed::raw), wanted);
    }
    Ok(())
}

#[test]
fn the_smaller_the_greater_and_signs(rt: HostRuntime) -> Result<(), Fail> {
    for &(first, second, smaller, greater, magnitude, negative) in PAIRS {
        let first = Fixed::from_raw(first).ok_or("within the limit")?;
        let second = Fixed::from_raw(second).ok_or("within the limit")?;
        assert_eq!(rt; first.min(second).raw(), smaller);
        assert_eq!(rt; first.max(second).raw(), greater);
        assert_eq!(rt; first.abs().raw(), magnitude);
        assert_eq!(rt; first.neg().raw(), negative);
    }
    Ok(())
}

#[test]
fn numbers_are_compared(rt: HostRuntime) -> Result<(), Fail> {
    let less = Fixed::from_raw(-2).ok_or("within the limit")?;
    let greater = Fixed::from_raw(1).ok_or("within the limit")?;
    assert_eq!(rt; laws::numbers_compare_by_raw(less, greater), Ordering::Less);
    assert_eq!(rt; laws::numbers_compare_by_raw(less, less), Ordering::Equal);
    assert_eq!(rt;
        laws::numbers_compare_by_raw(greater, less),
        Ordering::Greater
    );
    Ok(())
}

// The laws ask nothing of their caller.
#[test]
fn laws_are_called(_rt: HostRuntime) -> Result<(), Fail> {
    laws::round_is_nearest();
    laws::decimal_is_spelled();
    laws::decimal_reads_back();
    laws::decimal_has_fewest_places();
    Ok(())
}

const PEAK: Smooth = Smooth::Peak {
    below: Some(-3),
    above: Some(4),
};

const LEFT_OPEN: Smooth = Smooth::Peak {
    below: None,
    above: Some(3),
};

const RISE: Smooth = Smooth::Rise { low: -3, high: 3 };

// Smoothings, gaps and weights. The last rise is as wide as there is one.
const WEIGHTS: &[(Smooth, i64, u32)] = &[
    (RISE, -3, 0),
    (RISE, -2, 166_667),
    (RISE, 0, 500_000),
    (RISE, 1, 666_667),
    (RISE, 3, 1_000_000),
    (PEAK, -3, 0),
    (PEAK, -2, 333_333),
    (PEAK, 0, 1_000_000),
    (PEAK, 1, 750_000),
    (PEAK, 4, 0),
    (LEFT_OPEN, 1, 666_667),
    (LEFT_OPEN, -9, 1_000_000),
    (
        Smooth::Rise {
            low: 0,
            high: 2_000_001,
        },
        1,
        0,
    ),
    (
        Smooth::Rise {
            low: -2_000_000_000_000_000_000,
            high: 2_000_000_000_000_000_000,
        },
        0,
        500_000,
    ),
];

#[test]
fn comparisons_have_weights(rt: HostRuntime) -> Result<(), Fail> {
    for &(smooth, gap, wanted) in WEIGHTS {
        assert_eq!(rt; weight(smooth, gap), wanted);
    }
    Ok(())
}

// A weight, the numbers of the true and of the false branch, and their blend.
const BLENDS: &[(u32, i64, i64, i64)] = &[
    (500_000, 3, 0, 2),
    (500_000, -3, 0, -2),
    (250_000, 100, -100, -50),
    (0, 7, -7, -7),
    (WHOLE, 7, -7, 7),
    (
        999_999,
        LIMIT as i64,
        -(LIMIT as i64),
        999_998_000_000_000_000,
    ),
];

// A weight, an amount, and what it is scaled to.
const SCALED: &[(u32, i64, i64)] = &[
    (333_333, 30_000, 10_000),
    (500_000, -5, -3),
    (1, 499_999, 0),
    (1, -500_000, -1),
];

#[test]
fn numbers_are_blended_and_scaled(rt: HostRuntime) -> Result<(), Fail> {
    for &(share, yes, no, wanted) in BLENDS {
        let yes = Fixed::from_raw(yes).ok_or("within the limit")?;
        let no = Fixed::from_raw(no).ok_or("within the limit")?;
        assert_eq!(rt; blend(share, yes, no).raw(), wanted);
    }
    for &(share, amount, wanted) in SCALED {
        let amount = Fixed::from_raw(amount).ok_or("within the limit")?;
        assert_eq!(rt; scale(share, amount).raw(), wanted);
    }
    Ok(())
}
