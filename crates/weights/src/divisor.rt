ghost use Rattle.std.specs.Prelude.{◌≡◌, ◌<◌, ◌^◌, ◌↔◌, pos, unsigned_abs, IsTrue};
ghost use Rattle.integers.specs.Gcd.{gcd as divisor, gcd3 as divisor_of_three, leads_negative, signed_gcd as signed_divisor};

use word_base::Weight;

/// The greatest common divisor of two magnitudes, 0 where both are 0.
pub fn gcd(first: Weight, second: Weight) -> Weight
    ensures { result ≡ pos (divisor (unsigned_abs first) (unsigned_abs second)) }
{
    let magnitude = divisor_of(first.get().unsigned_abs(), second.get().unsigned_abs());
    Weight::new(magnitude.cast_signed()).unwrap()
}

/// The greatest common divisor of three magnitudes, 0 where all are 0.
pub fn gcd3(first: Weight, second: Weight, third: Weight) -> Weight
    ensures { result ≡ pos (divisor_of_three first second third) }
{
    gcd(gcd(first, second), third)
}

/// The greatest common divisor of three magnitudes, with the sign of the first number that is not 0.
pub fn signed_gcd(first: Weight, second: Weight, third: Weight) -> Weight
    ensures { result ≡ signed_divisor first second third }
{
    if is_unit(first) {
        return first;
    }
    let magnitude = gcd3(first, second, third);
    if is_led_by_negative(first, second, third) {
        magnitude.neg()
    } else {
        magnitude
    }
}

/// Whether a number is 1 or -1.
fn is_unit(number: Weight) -> bool
    ensures { IsTrue result ↔ unsigned_abs number ≡ 1 }
{
    number == Weight::ONE || number.get() == -1
}

/// Whether the first number that is not 0 is negative.
fn is_led_by_negative(first: Weight, second: Weight, third: Weight) -> bool
    ensures { result ≡ leads_negative first second third }
{
    if first != Weight::ZERO {
        first.get() < 0
    } else if second != Weight::ZERO {
        second.get() < 0
    } else {
        third.get() < 0
    }
}

/// The greatest common divisor of two numbers: at once where one of them is 0 or 1, and in 64 bits where both have no more.
fn divisor_of(first: u128, second: u128) -> u128
    requires first { first < 2 ^ 127 }
    requires second { second < 2 ^ 127 }
    ensures divisor { result ≡ divisor first second }
    ensures fits { result < 2 ^ 127 }
{
    if first == 0 {
        return second;
    }
    if second == 0 {
        return first;
    }
    if first == 1 || second == 1 {
        return 1;
    }
    match (u64::try_from(first), u64::try_from(second)) {
        (Ok(first), Ok(second)) => u128::from(narrow_divisor(first, second)),
        _ => wide_divisor(first, second),
    }
}

/// The same by Euclid's algorithm, in 64 bits as soon as both numbers have no more.
fn wide_divisor(first: u128, second: u128) -> u128
    requires first { first < 2 ^ 127 }
    requires second { second < 2 ^ 127 }
    ensures divisor { result ≡ divisor first second }
    ensures fits { result < 2 ^ 127 }
{
    let mut a = first;
    let mut b = second;
    while b > u128::from(u64::MAX) {
        let rest = a % b;
        a = b;
        b = rest;
    }
    if b == 0 {
        return a;
    }
    u128::from(narrow_divisor(b as u64, (a % b) as u64))
}

/// The same in 64 bits.
fn narrow_divisor(first: u64, second: u64) -> u64
    ensures { result ≡ divisor first second }
{
    let mut a = first;
    let mut b = second;
    while b != 0 {
        let rest = a % b;
        a = b;
        b = rest;
    }
    a
}
