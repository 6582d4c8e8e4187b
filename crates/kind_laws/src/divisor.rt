ghost use Rattle.std.specs.Prelude.{◌≡◌, ◌<◌, ◌^◌, pos, unsigned_abs};
ghost use Rattle.integers.specs.Gcd.{gcd as divisor};

use word_base::Weight;

/// The greatest common divisor of two magnitudes, 0 where both are 0.
pub fn gcd(first: Weight, second: Weight) -> Weight
    ensures { result ≡ pos (divisor (unsigned_abs first) (unsigned_abs second)) }
{
    let magnitude = euclid(first.get().unsigned_abs(), second.get().unsigned_abs());
    Weight::new(magnitude.cast_signed()).unwrap()
}

/// The greatest common divisor of two numbers, 0 where both are 0.
fn euclid(first: u128, second: u128) -> u128
    requires first { first < 2 ^ 127 }
    requires second { second < 2 ^ 127 }
    ensures divisor { result ≡ divisor first second }
    ensures fits { result < 2 ^ 127 }
{
    let mut a = first;
    let mut b = second;
    while b != 0 {
        let rest = a % b;
        a = b;
        b = rest;
    }
    a
}

/// The magnitude of a weight.
pub fn magnitude(weight: Weight) -> Weight
    ensures { result ≡ pos (unsigned_abs weight) }
{
    Weight::new(weight.get().abs()).unwrap()
}
