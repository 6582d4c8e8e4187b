ghost use Rattle.std.specs.Prelude.{◌≢◌, pos};

use super::*;
use std::process::Abort;
use word_base::{Overflow, Weight};

fn weight(rt: &impl Abort, value: i128) -> Weight {
    Weight::new(value).expect(rt, "a number in range")
}

#[test]
fn divisors(rt: HostRuntime) {
    // 2^127-1 is a prime number
    for (first, second, third, signed) in [
        (0, 0, 0, 0),
        (0, 0, -5, -5),
        (0, -4, 6, -2),
        (-12, 18, 0, -6),
        (12, -18, 8, 2),
        (i128::MAX, -i128::MAX, 0, i128::MAX),
        (-i128::MAX, i128::MAX - 1, 0, -1),
        (1, i128::MAX, 6, 1),
        // 2^100 and 3 * 2^70, in more than 64 bits and with a divisor of more
        (-(1 << 100), 3 << 70, 0, -(1 << 70)),
        (3 << 70, 6, 9, 3),
        (600_851_475_143, -6857, 0, 6857),
    ] {
        let (first, second, third) = (weight(&rt, first), weight(&rt, second), weight(&rt, third));
        let signed = weight(&rt, signed);
        assert_eq!(rt; signed_gcd(first, second, third), signed);
        assert_eq!(rt; gcd3(first, second, third), magnitude(signed));
    }
    assert_eq!(rt; gcd(weight(&rt, -12), weight(&rt, 18)), weight(&rt, 6));
}

/// A multiple of the number, divided by it.
fn divided_back(factor: Weight, by: Weight) -> Result<Weight, Overflow>
    requires { by ≢ pos 0 }
{
    Ok(exact_div(by.mul(factor)?, by))
}

#[test]
fn quotients(rt: HostRuntime) {
    let (minus_one, least) = (Weight::ONE.neg(), Weight::MAX.neg());
    for number in [Weight::ZERO, Weight::TWO, Weight::MAX, least] {
        assert_eq!(rt; divided_back(number, minus_one), Ok(number));
        assert_eq!(rt;
            magnitude(number),
            if number == least { Weight::MAX } else { number }
        );
    }
    assert_eq!(rt; divided_back(minus_one, Weight::MAX), Ok(minus_one));
    assert_eq!(rt; divided_back(Weight::TWO, least), Err(Overflow));
}

#[test]
fn quotients_in_64_bits_and_in_more(rt: HostRuntime) {
    let least = i128::from(i64::MIN);
    for (quotient, by) in [
        (least, 1),
        (-(1 << 62), 2),
        (1, least),
        (-3, -5),
        (0, -7),
        // a multiple of more than 64 bits
        (least, -1),
        (-1, least),
        (least, least),
        (1 << 64, 3),
        (3, -(1 << 64)),
    ] {
        let (quotient, by) = (weight(&rt, quotient), weight(&rt, by));
        assert!(rt; by != Weight::ZERO);
        assert_eq!(rt; divided_back(quotient, by), Ok(quotient));
    }
}

#[test]
fn exact_products(rt: HostRuntime) {
    let (least, most) = (i128::from(i64::MIN), i128::from(i64::MAX));
    for (first, second, exact) in [
        (0, i128::MAX, 0),
        (-3, 5, -15),
        (least, least, 1 << 126),
        (least, most, (1 << 63) - (1 << 126)),
        (most, most, (1 << 126) - (1 << 64) + 1),
        // more than 64 bits
        (1 << 63, 1 << 63, 1 << 126),
        (1 << 63, least - 1, -(1 << 126) - (1 << 63)),
        (1 << 64, most, i128::MAX - (1 << 64) + 1),
        (i128::MAX, -1, -i128::MAX),
    ] {
        let (first, second) = (weight(&rt, first), weight(&rt, second));
        assert_eq!(rt; product(first, second), Ok(weight(&rt, exact)));
    }
    for (first, second) in [
        (1 << 64, 1 << 63),
        (-(1 << 64), 1 << 63),
        (i128::MAX, 2),
        (i128::MAX, -i128::MAX),
    ] {
        let (first, second) = (weight(&rt, first), weight(&rt, second));
        assert_eq!(rt; product(first, second), Err(Overflow));
    }
}

#[test]
fn powers_of_two(rt: HostRuntime) {
    assert_eq!(rt; power_of_two(0), Ok(Weight::ONE));
    assert_eq!(rt; power_of_two(126), Ok(weight(&rt, 1 << 126)));
    assert_eq!(rt; power_of_two(127), Err(Overflow));
    assert_eq!(rt; power_of_two(u32::MAX), Err(Overflow));
}
