ghost use Rattle.std.specs.Prelude.{◌≡◌, ◌+◌, ◌*◌, ◌/◌, ◌%◌, ◌^◌, ℤ};
ghost use Rattle.std.specs.Int.{w128, cast_unsigned};
ghost use Rattle.word_base.specs.Range.{InRange};

use word_base::Weight;

/// A weight as two words, the lower first: its two's complement in 128 bits.
pub(crate) fn words_of(weight: Weight) -> (u64, u64)
    ensures in_range { InRange weight }
    ensures low { result.0 ≡ cast_unsigned w128 weight % 2 ^ 64 }
    ensures high { result.1 ≡ cast_unsigned w128 weight / 2 ^ 64 }
{
    let bits = weight.get().cast_unsigned();
    ((bits % (1 << 64)) as u64, (bits >> 64) as u64)
}

/// The weight of two words that a weight made.
pub(crate) fn weight_of(low: u64, high: u64) -> Weight
    requires { (z : ℤ) × InRange z × (cast_unsigned w128 z ≡ low + 2 ^ 64 * high) }
    ensures { (z : ℤ) → InRange z → cast_unsigned w128 z ≡ low + 2 ^ 64 * high → result ≡ z }
{
    let bits = (u128::from(high) << 64) + u128::from(low);
    Weight::new(bits.cast_signed()).unwrap()
}
