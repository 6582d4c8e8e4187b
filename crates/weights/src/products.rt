ghost use Rattle.std.specs.Prelude.{◌≡◌, ◌*ℤ◌};
ghost use Rattle.std.specs.Result.{OkIff};
ghost use Rattle.word_base.specs.Range.{InRange};

use word_base::{Overflow, Weight};

/// The exact product, as `Weight::mul` has it: by one multiplication where both numbers have no more than 64 bits.
pub fn product(first: Weight, second: Weight) -> Result<Weight, Overflow>
    ensures { OkIff result (InRange (first *ℤ second)) (first *ℤ second) }
{
    match (i64::try_from(first.get()), i64::try_from(second.get())) {
        (Ok(first), Ok(second)) => Ok(narrow_product(first, second)),
        _ => first.mul(second),
    }
}

/// The product of two numbers of 64 bits, whose magnitude is at most `2^126`.
fn narrow_product(first: i64, second: i64) -> Weight
    ensures { result ≡ first *ℤ second }
{
    Weight::new(i128::from(first) * i128::from(second)).unwrap()
}
