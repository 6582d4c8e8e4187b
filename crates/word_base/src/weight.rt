ghost use Rattle.std.specs.Prelude.{◌≡◌, ◌↔◌, ◌-◌, ◌^◌, pos, ◌+ℤ◌, ◌-ℤ◌, ◌*ℤ◌, neg_ℤ, IsSome, IfSome, IsErr, MatchOption};
ghost use Rattle.std.specs.Result.{OkIff};
ghost use Rattle.word_base.specs.Range.{InRange};

use std::fmt;
use std::marker::Model;

/// A number of a diagram: from `-(2^127-1)` to `2^127-1`, so that each one has a negative. It stands in two words, so that an edge is copied in few moves.
#[derive(Clone, Copy)]
pub struct Weight {
    /// The lower word of its two's complement.
    low: u64,
    high: u64,
}

impl Model for Weight {
    ghost use Rattle.std.specs.Prelude.{ℤ};
    ghost use Rattle.word_base.specs.Words.{value_of, low_word, high_word, AreWords};

    ghost Value = { ℤ };

    ghost view = { λ w. value_of w.low w.high };

    ghost invariant = { λ w. AreWords w.low w.high };

    ghost inverse = { λ z. record { low = low_word z; high = high_word z } };
}

impl PartialEq for Weight {
    ghost use Rattle.std.specs.Ordering.{int_eq};
    ghost use Rattle.std.specs.Cmp.Rules.{comparing};
    ghost use Rattle.std.proofs.Common.{rules};

    ghost eq = { int_eq };

    ghost laws = { Prim.search (comparing, rules) };

    fn eq(&self, other: &Weight) -> bool {
        self.get() == other.get()
    }
}

impl Eq for Weight {
    ghost use Rattle.std.specs.Cmp.Rules.{comparing};
    ghost use Rattle.std.proofs.Common.{rules};

    ghost laws = { Prim.search (comparing, rules) };
}

impl fmt::Debug for Weight {
    fn fmt<W: fmt::Write>(&self, f: &mut fmt::Formatter<W>) -> fmt::Result {
        f.debug_tuple("Weight").field(&self.get()).finish()
    }
}

/// A result is no `Weight`: its magnitude is `2^127` or more.
#[derive(Clone, Copy, Debug, PartialEq, Eq)]
pub struct Overflow;

impl fmt::Display for Overflow {
    ghost use Rattle.std.specs.Prelude.{Some, codes};

    ghost output = { λ _. Some (codes "the result needs more than 127 bits") };

    fn fmt<W: fmt::Write>(&self, f: &mut fmt::Formatter<W>) -> fmt::Result {
        write!(f, "the result needs more than 127 bits")
    }
}

impl std::error::Error for Overflow {}

impl Weight {
    /// 0.
    pub const ZERO: Weight = Weight { low: 0, high: 0 };

    /// 1.
    pub const ONE: Weight = Weight { low: 1, high: 0 };

    /// 2.
    pub const TWO: Weight = Weight { low: 2, high: 0 };

    /// `2^127-1`, the greatest weight; the least is its negative.
    pub const MAX: Weight = Weight {
        low: u64::MAX,
        high: (1 << 63) - 1,
    };

    /// `ZERO`, `ONE`, `TWO` and `MAX`, whose values a contract tells here.
    pub fn constants() -> (Weight, Weight, Weight, Weight)
        ensures zero { result.0 ≡ pos 0 }
        ensures one { result.1 ≡ pos 1 }
        ensures two { result.2 ≡ pos 2 }
        ensures max { result.3 ≡ pos (2 ^ 127 - 1) }
    {
        (Self::ZERO, Self::ONE, Self::TWO, Self::MAX)
    }

    /// The number as a weight: `None` for `-2^127` alone.
    pub fn new(value: i128) -> Option<Weight>
        ensures valid { IsSome result ↔ InRange value }
        ensures value { IfSome result (λ w. w ≡ value) }
    {
        if value == i128::MIN {
            None
        } else {
            Some(of_value(value))
        }
    }

    /// The weight as a number.
    pub fn get(self) -> i128
        ensures value { result ≡ self }
        ensures in_range { InRange result }
    {
        let bits = (u128::from(self.high) << 64) + u128::from(self.low);
        bits.cast_signed()
    }

    /// The exact sum.
    pub fn add(self, other: Weight) -> Result<Weight, Overflow>
        ensures { OkIff result (InRange (self +ℤ other)) (self +ℤ other) }
    {
        checked(self.get().checked_add(other.get()))
    }

    /// The exact difference.
    pub fn sub(self, other: Weight) -> Result<Weight, Overflow>
        ensures { OkIff result (InRange (self -ℤ other)) (self -ℤ other) }
    {
        checked(self.get().checked_sub(other.get()))
    }

    /// The exact product.
    pub fn mul(self, other: Weight) -> Result<Weight, Overflow>
        ensures { OkIff result (InRange (self *ℤ other)) (self *ℤ other) }
    {
        checked(self.get().checked_mul(other.get()))
    }

    /// The negative, which each weight has.
    pub fn neg(self) -> Weight
        ensures { result ≡ neg_ℤ self }
    {
        of_value(-self.get())
    }
}

/// An exact result as a weight: `None` where it has more than 128 bits.
fn checked(exact: Option<i128>) -> Result<Weight, Overflow>
    ensures { MatchOption exact (IsErr result) (λ z. OkIff result (InRange z) z) }
{
    match exact {
        Some(value) => Weight::new(value).ok_or(Overflow),
        None => Err(Overflow),
    }
}

/// The weight of a number in range.
fn of_value(value: i128) -> Weight
    requires { InRange value }
    ensures { result ≡ value }
{
    let bits = value.cast_unsigned();
    Weight {
        low: (bits % (1 << 64)) as u64,
        high: (bits >> 64) as u64,
    }
}
