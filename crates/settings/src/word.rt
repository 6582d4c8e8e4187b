ghost use Rattle.std.specs.Prelude.{◌≡◌};
ghost use Rattle.settings.specs.Words.{is_name, kind_of, method_of};

use checks::Method;
use word_base::KindName;

/// Whether a word may name a file.
pub(crate) fn is_name(word: &str) -> bool
    ensures { result ≡ is_name word.now }
{
    match word.as_bytes() {
        [] => false,
        [first, ..] => *first != b'-',
    }
}

/// The kind that a word names.
pub(crate) fn kind_of(word: &str) -> Option<KindName>
    ensures { result ≡ kind_of word.now }
{
    if word == "evbdd" {
        Some(KindName::Evbdd)
    } else if word == "star_bmd" {
        Some(KindName::StarBmd)
    } else if word == "hdd" {
        Some(KindName::Hdd)
    } else if word == "k_star_bmd" {
        Some(KindName::KStarBmd)
    } else {
        None
    }
}

/// The method that a word names.
pub(crate) fn method_of(word: &str) -> Option<Method>
    ensures { result ≡ method_of word.now }
{
    if word == "forward" {
        Some(Method::Forward)
    } else if word == "backward" {
        Some(Method::Backward)
    } else {
        None
    }
}
