ghost use Rattle.std.specs.Prelude.{◌≡◌};
ghost use Rattle.std.specs.List.{list_all};
ghost use Rattle.std.specs.Char.{is_ascii_digit};
ghost use Rattle.settings.specs.Numbers.{is_number, number_of, size_of};

use crate::limits::MOST_DIGITS;
use multiplier::{LEAST_SIZE, MOST_SIZE};

fn has_digits_only(word: &[u8]) -> bool
    ensures { result ≡ list_all is_ascii_digit word.now }
{
    word.iter().all(|b| b.is_ascii_digit())
}

fn is_number(word: &[u8]) -> bool
    ensures { result ≡ is_number word.now }
{
    match word {
        [] => false,
        [first, more @ ..] => {
            has_digits_only(word) && more.len() < MOST_DIGITS && (more.is_empty() || *first != b'0')
        }
    }
}

/// The number that a word writes.
pub(crate) fn number_of(word: &str) -> Option<u32>
    ensures { result ≡ number_of word.now }
{
    if is_number(word.as_bytes()) {
        word.parse::<u32>().ok()
    } else {
        None
    }
}

/// The size that a word writes.
pub(crate) fn size_of(word: &str) -> Option<u32>
    ensures { result ≡ size_of word.now }
{
    let size = number_of(word)?;
    if LEAST_SIZE <= size && size <= MOST_SIZE {
        Some(size)
    } else {
        None
    }
}
