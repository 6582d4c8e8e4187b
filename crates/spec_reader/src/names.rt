ghost use Rattle.std.specs.Prelude.{◌≡◌, true, false};
ghost use Rattle.std.specs.List.{list_all};
ghost use Rattle.std.specs.Str.{bytes_eq};
ghost use Rattle.spec_grammar.specs.Names.{is_first_byte, is_later_byte, is_identifier, is_keyword, is_word_name, letter};

use word_base::Decomp;

/// Whether the byte is a letter or `_`.
pub(crate) fn is_first_byte(byte: u8) -> bool
    ensures { result ≡ is_first_byte byte }
{
    byte.is_ascii_alphabetic() || byte == b'_'
}

/// Whether the byte is a letter, a digit or `_`.
pub(crate) fn is_later_byte(byte: u8) -> bool
    ensures { result ≡ is_later_byte byte }
{
    is_first_byte(byte) || byte.is_ascii_digit()
}

fn has_later_bytes_only(name: &[u8]) -> bool
    ensures { result ≡ list_all is_later_byte name.now }
{
    name.iter().all(|b| is_later_byte(*b))
}

fn is_identifier(name: &[u8]) -> bool
    ensures { result ≡ is_identifier name.now }
{
    match name.split_first() {
        Some((first, more)) => is_first_byte(*first) && has_later_bytes_only(more),
        None => false,
    }
}

/// Whether a text is this one.
pub(crate) fn is(part: &[u8], text: &str) -> bool
    ensures { result ≡ bytes_eq part.now text.now }
{
    part == text.as_bytes()
}

/// Whether a name is a word of the language.
pub(crate) fn is_keyword(name: &[u8]) -> bool
    ensures { result ≡ is_keyword name.now }
{
    is(name, "order")
        || is(name, "split")
        || is(name, "word")
        || is(name, "check")
        || is(name, "mod")
        || is(name, "when")
        || is(name, "signed")
}

/// Whether a word may have this name, its length apart.
pub(crate) fn is_word_name(name: &[u8]) -> bool
    ensures { result ≡ is_word_name name.now }
{
    is_identifier(name) && !is_keyword(name)
}

/// The decomposition that a text names.
pub(crate) fn letter_of(text: &[u8]) -> Option<Decomp>
    ensures { result ≡ letter text.now }
{
    if is(text, "S") {
        Some(Decomp::S)
    } else if is(text, "P") {
        Some(Decomp::P)
    } else if is(text, "N") {
        Some(Decomp::N)
    } else {
        None
    }
}
