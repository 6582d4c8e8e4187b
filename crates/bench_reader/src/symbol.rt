ghost use Rattle.std.specs.Prelude.{◌≡◌, ◌<◌, ◌≤◌, ◌∷◌, [], length, false, true, slice_index, IfSome, MatchOption, option_map};
ghost use Rattle.bench_reader.specs.Symbols.{name, sign, symbols};
ghost use Rattle.circuits.specs.Names.{is_name_byte};
ghost use Rattle.bench_reader.specs.Views.{name_text, seen_symbol};
ghost use Rattle.texts.specs.White.{is_white};

use texts::{behind_white, is_name_byte, split_name};

/// A name or a sign of a line. A stray byte is none of them and no white space.
#[derive(Clone, Copy)]
pub(crate) enum Symbol<'a> {
    Name(&'a str),
    Opening,
    Closing,
    Comma,
    Equals,
    Stray,
}

impl<'a> Symbol<'a> {
    /// The text of a name.
    pub(crate) fn text(self) -> Option<&'a str>
        ensures { option_map (λ text. text.now) result ≡ name_text (seen_symbol self.entry) }
    {
        match self {
            Symbol::Name(text) => Some(text),
            _ => None,
        }
    }
}

fn skip_white(text: &[u8]) -> &[u8]
    ensures same { symbols result.now ≡ symbols text.now }
    ensures first { is_white (slice_index result.now 0) ≡ false }
    ensures no_longer { length result.now ≤ length text.now }
{
    behind_white(text)
}

/// The name at the front, as long as it can be, and the text after it.
fn first_name(text: &[u8]) -> (&str, &[u8])
    requires { is_name_byte (slice_index text.now 0) ≡ true }
    ensures symbol { symbols text.now ≡ name result.0.now ∷ symbols result.1.now }
    ensures shorter { length result.1.now < length text.now }
{
    split_name(text)
}

fn sign_of<'a>(byte: u8) -> Symbol<'a>
    requires { is_white byte ≡ false }
    ensures { seen_symbol result ≡ sign byte }
{
    match byte {
        b'(' => Symbol::Opening,
        b')' => Symbol::Closing,
        b',' => Symbol::Comma,
        b'=' => Symbol::Equals,
        _ => Symbol::Stray,
    }
}

/// The first symbol, and the text after it.
pub(crate) fn next_symbol(text: &[u8]) -> Option<(Symbol<'_>, &[u8])>
    ensures symbol { MatchOption result (symbols text.now ≡ [])
        (λ found. symbols text.now ≡ seen_symbol found.0 ∷ symbols found.1.now) }
    ensures shorter { IfSome result (λ found. length found.1.now < length text.now) }
{
    let text = skip_white(text);
    if text.is_empty() {
        return None;
    }
    let first = text[0];
    if is_name_byte(first) {
        let (name, rest) = first_name(text);
        return Some((Symbol::Name(name), rest));
    }
    Some((sign_of(first), &text[1..]))
}
