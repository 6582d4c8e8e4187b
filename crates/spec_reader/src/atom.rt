ghost use Rattle.std.specs.Prelude.{◌≡◌, ◌<◌, ◌≤◌, ◌&&◌, map, length, nat_lt, nat_le, position, true, false, pos, ◌^◌, if◌then◌else◌, Some, None};
ghost use Rattle.std.specs.List.{list_any};
ghost use Rattle.std.specs.Str.{bytes_eq};
ghost use Rattle.std.specs.Str.Parse.{digits_value};
ghost use Rattle.spec_grammar.specs.Faults.{is_word};
ghost use Rattle.spec_grammar.specs.Trees.{word_number};
ghost use Rattle.spec_lang.specs.Formula.{formula_of, number, word};
ghost use Rattle.spec_lang.specs.declared.limits.TheConstants.{MOST_WORDS};
ghost use Rattle.spec_reader.specs.Good.{are_digits};

use spec_lang::{Expr, Word};
use word_base::Weight;

/// The number that digits write, where it is a weight.
fn value_of(digits: &[u8]) -> Option<i128>
    requires { are_digits digits.now ≡ true }
    ensures { result ≡ (if nat_lt (digits_value 10 digits.now) (2 ^ 127)
        then Some (pos (digits_value 10 digits.now)) else None) }
{
    str::from_utf8(digits).unwrap().parse::<i128>().ok()
}

/// Whether a number is above the greatest weight.
pub(crate) fn is_great(digits: &[u8]) -> bool
    requires { are_digits digits.now ≡ true }
    ensures { result ≡ nat_le (2 ^ 127) (digits_value 10 digits.now) }
{
    value_of(digits).is_none()
}

/// A number that is no greater.
pub(crate) fn number(digits: &[u8]) -> Expr
    requires digits { are_digits digits.now ≡ true }
    requires small { digits_value 10 digits.now < 2 ^ 127 }
    ensures { formula_of result ≡ number (pos (digits_value 10 digits.now)) }
{
    Expr::Number(Weight::new(value_of(digits).unwrap()).unwrap())
}

fn place_of(words: &[Word], name: &[u8]) -> Option<usize>
    ensures { result ≡ position (λ w. bytes_eq name.now w.name) words.now }
{
    words.iter().position(|word| name == word.name().as_bytes())
}

/// Whether a word has this name.
pub(crate) fn is_word(words: &[Word], name: &[u8]) -> bool
    ensures { result ≡ is_word words.now name.now }
{
    words.iter().any(|word| name == word.name().as_bytes())
}

/// The word of this name.
pub(crate) fn word(words: &[Word], name: &[u8]) -> Expr
    requires words { length words.now ≤ MOST_WORDS }
    requires known { is_word words.now name.now ≡ true }
    ensures { formula_of result ≡ word (word_number words.now name.now) }
{
    Expr::Word(place_of(words, name).unwrap() as u32)
}
