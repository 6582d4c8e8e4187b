ghost use Rattle.std.specs.Prelude.{◌≡◌, ◌<◌, ◌≤◌, ◌^◌, length, pos, IsTrue, ◌&&◌};
ghost use Rattle.std.specs.Result.{OkIff};
ghost use Rattle.circuits.specs.Valuation.{bit_of};
ghost use Rattle.spec_lang.specs.Formula.{formula_of};
ghost use Rattle.spec_lang.specs.Value.{nets_of, word_value, value, all_in_range};
ghost use Rattle.spec_lang.specs.declared.limits.TheConstants.{MOST_NETS_OF_WORD};
ghost use Rattle.word_base.specs.Range.{in_range};

use crate::expr::Expr;
use crate::word::Word;
use word_base::{Overflow, Weight};

fn bit(values: &[bool], net: u32) -> bool
    ensures { result ≡ bit_of values.now net }
{
    match values.get(net as usize) {
        Some(bit) => *bit,
        None => false,
    }
}

/// The nets of a word, and none where there is no such word.
pub(crate) fn nets_at(words: &[Word], word: u32) -> &[u32]
    ensures nets { result.now ≡ nets_of words.now word }
    ensures few { length result.now ≤ MOST_NETS_OF_WORD }
{
    match words.get(word as usize) {
        Some(word) => word.nets(),
        None => &[],
    }
}

fn value_of_nets(nets: &[u32], values: &[bool]) -> u128
    requires { length nets.now ≤ MOST_NETS_OF_WORD }
    ensures value { result ≡ word_value values.now nets.now }
    ensures below { result < 2 ^ 127 }
{
    let mut total = 0u128;
    let mut weight = 1u128;
    for net in nets {
        if bit(values, *net) {
            total += weight;
        }
        weight *= 2;
    }
    total
}

fn value_of_word(nets: &[u32], values: &[bool]) -> Weight
    requires { length nets.now ≤ MOST_NETS_OF_WORD }
    ensures { result ≡ pos (word_value values.now nets.now) }
{
    Weight::new(value_of_nets(nets, values) as i128).unwrap()
}

/// The same number, of which a caller learns that it is in range.
fn in_range(number: Weight) -> Weight
    ensures same { result ≡ number }
    ensures in_range { IsTrue (in_range result) }
{
    let _value = number.get();
    number
}

/// The value of an expression at given values of the nets.
pub(crate) fn value_of(expr: &Expr, words: &[Word], values: &[bool]) -> Result<Weight, Overflow>
    ensures { OkIff result (IsTrue (all_in_range words.now values.now (formula_of expr.now)))
        (value words.now values.now (formula_of expr.now)) }
{
    match expr {
        Expr::Number(number) => Ok(in_range(*number)),
        Expr::Word(word) => Ok(value_of_word(nets_at(words, *word), values)),
        Expr::Neg(a) => Ok(value_of(a.get(), words, values)?.neg()),
        Expr::Add(a, b) => {
            value_of(a.get(), words, values)?.add(value_of(b.get(), words, values)?)
        }
        Expr::Sub(a, b) => {
            value_of(a.get(), words, values)?.sub(value_of(b.get(), words, values)?)
        }
        Expr::Mul(a, b) => {
            value_of(a.get(), words, values)?.mul(value_of(b.get(), words, values)?)
        }
    }
}

/// The values of two expressions.
pub(crate) fn values_of(
    left: &Expr,
    right: &Expr,
    words: &[Word],
    values: &[bool],
) -> Result<(Weight, Weight), Overflow>
    ensures { OkIff result
        (IsTrue (all_in_range words.now values.now (formula_of left.now)
        && all_in_range words.now values.now (formula_of right.now))) (
          value words.now values.now (formula_of left.now),
          value words.now values.now (formula_of right.now),
        ) }
{
    let left = value_of(left, words, values)?;
    let right = value_of(right, words, values)?;
    Ok((left, right))
}
