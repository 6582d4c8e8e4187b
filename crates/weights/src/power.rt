ghost use Rattle.std.specs.Prelude.{◌≤◌, ◌^◌, pos, IsErr, MatchOption};
ghost use Rattle.std.specs.Result.{OkIff};
ghost use Rattle.word_base.specs.Range.{InRange};

use num_traits::checked_pow;
use word_base::{Overflow, Weight};

/// The power of 2, which is a weight up to `2^126`.
pub fn power_of_two(exponent: u32) -> Result<Weight, Overflow>
    ensures { OkIff result (exponent ≤ 126) (pos (2 ^ exponent)) }
{
    checked(checked_pow(2, exponent as usize))
}

/// An exact result as a weight: `None` where it has more than 128 bits.
fn checked(exact: Option<i128>) -> Result<Weight, Overflow>
    ensures { MatchOption exact (IsErr result) (λ z. OkIff result (InRange z) z) }
{
    match exact {
        Some(value) => Weight::new(value).ok_or(Overflow),
        None => Err(Overflow),
    }
}
