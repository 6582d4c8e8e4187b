ghost use Rattle.std.specs.Prelude.{◌≡◌};
ghost use Rattle.kind_laws.specs.Body.{body_of, FitsBody, IsBody, Reads};

use crate::fields::Fields;
use crate::words::{weight_of, words_of};
use word_base::Weight;

/// The body of a node.
pub fn pack_body(fields: Fields) -> [u64; 8]
    ensures body { result ≡ body_of fields }
    ensures fits { FitsBody fields }
{
    let first = words_of(fields.low_weight);
    let second = words_of(fields.added);
    let third = words_of(fields.high_weight);
    [
        u64::from(fields.level) + 1,
        u64::from(fields.low) + (u64::from(fields.high) << 32),
        first.0,
        first.1,
        second.0,
        second.1,
        third.0,
        third.1,
    ]
}

/// The level of a node.
pub fn level_of(body: &[u64; 8]) -> u16
    requires { IsBody body.now }
    ensures { Reads body.now (λ f. result ≡ f.level) }
{
    (body[0] - 1) as u16
}

/// The ids of the low and the high child.
pub fn children(body: &[u64; 8]) -> (u32, u32)
    requires { IsBody body.now }
    ensures low { Reads body.now (λ f. result.0 ≡ f.low) }
    ensures high { Reads body.now (λ f. result.1 ≡ f.high) }
{
    ((body[1] % (1 << 32)) as u32, (body[1] >> 32) as u32)
}

/// The weight of the low edge, 0 where a kind has none.
pub fn low_weight_of(body: &[u64; 8]) -> Weight
    requires { IsBody body.now }
    ensures { Reads body.now (λ f. result ≡ f.low_weight) }
{
    weight_of(body[2], body[3])
}

/// The weight that is added at the high edge, 0 where a kind has none.
pub fn added_of(body: &[u64; 8]) -> Weight
    requires { IsBody body.now }
    ensures { Reads body.now (λ f. result ≡ f.added) }
{
    weight_of(body[4], body[5])
}

/// The weight of the high edge, 0 where a kind has none.
pub fn high_weight_of(body: &[u64; 8]) -> Weight
    requires { IsBody body.now }
    ensures { Reads body.now (λ f. result ≡ f.high_weight) }
{
    weight_of(body[6], body[7])
}
