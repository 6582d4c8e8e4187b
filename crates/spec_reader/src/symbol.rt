ghost use Rattle.std.specs.Prelude.{◌≡◌, ◌<◌, ◌≤◌, ◌∷◌, ◌++◌, ◌==◌, [], not, ◌&&◌, length, true, false, position, slice_index, map, IfSome, IfOk, MatchOption};
ghost use Rattle.std.specs.Char.{is_ascii_digit};
ghost use Rattle.std.specs.List.{position_or_len};
ghost use Rattle.spec_grammar.specs.Names.{is_first_byte, is_later_byte, is_keyword};
ghost use Rattle.spec_grammar.specs.Symbols.{digits, name, half, settled, sign, symbols};
ghost use Rattle.std.specs.Str.{bytes_eq};
ghost use Rattle.spec_reader.specs.Views.{seen_symbol};
ghost use Rattle.texts.specs.White.{is_white};

use crate::names::{is_first_byte, is_keyword, is_later_byte};
use std::alloc::{AllocError, Global};
use texts::behind_white;

/// A symbol of a check. The last three are no symbols of an expression.
#[derive(Clone, Copy)]
pub(crate) enum Symbol<'a> {
    Digits(&'a [u8]),
    Name(&'a [u8]),
    Plus,
    Minus,
    Times,
    Opening,
    Closing,
    Equality,
    /// A word of the language.
    Keyword,
    /// An equals sign alone.
    Half,
    /// Another byte.
    Stray,
}

fn end_of_digits(text: &[u8]) -> Option<usize>
    ensures { result ≡ position (λ b. not (is_ascii_digit b)) text.now }
{
    text.iter().position(|b| !b.is_ascii_digit())
}

fn end_of_name(text: &[u8]) -> Option<usize>
    ensures { result ≡ position (λ b. not (is_later_byte b)) text.now }
{
    text.iter().position(|b| !is_later_byte(*b))
}

fn digits_len(text: &[u8]) -> usize
    ensures exact { result ≡ position_or_len (λ b. not (is_ascii_digit b)) text.now }
    ensures within { result ≤ length text.now }
{
    match end_of_digits(text) {
        Some(end) => end,
        None => text.len(),
    }
}

fn name_len(text: &[u8]) -> usize
    ensures exact { result ≡ position_or_len (λ b. not (is_later_byte b)) text.now }
    ensures within { result ≤ length text.now }
{
    match end_of_name(text) {
        Some(end) => end,
        None => text.len(),
    }
}

fn skip_white(text: &[u8]) -> &[u8]
    ensures same { symbols result.now ≡ symbols text.now }
    ensures first { is_white (slice_index result.now 0) ≡ false }
    ensures no_longer { length result.now ≤ length text.now }
{
    behind_white(text)
}

/// The digits at the front, and the text after them.
fn first_digits(text: &[u8]) -> (&[u8], &[u8])
    requires { is_ascii_digit (slice_index text.now 0) ≡ true }
    ensures symbol { symbols text.now ≡ digits result.0.now ∷ symbols result.1.now }
    ensures shorter { length result.1.now < length text.now }
{
    text.split_at(digits_len(text))
}

/// The name at the front, as long as it can be, and the text after it.
fn first_name(text: &[u8]) -> (&[u8], &[u8])
    requires no_digit { is_ascii_digit (slice_index text.now 0) ≡ false }
    requires first_byte { is_first_byte (slice_index text.now 0) ≡ true }
    ensures symbol { symbols text.now ≡ settled (name result.0.now) ∷ symbols result.1.now }
    ensures shorter { length result.1.now < length text.now }
{
    text.split_at(name_len(text))
}

/// The symbol that a name is.
fn settled(text: &[u8]) -> Symbol<'_>
    ensures { seen_symbol result ≡ settled (name text.now) }
{
    if is_keyword(text) {
        Symbol::Keyword
    } else {
        Symbol::Name(text)
    }
}

/// The sign that a byte is, equals signs apart.
fn sign_of<'a>(byte: u8) -> Symbol<'a>
    requires no_white { is_white byte ≡ false }
    requires no_equals { (byte == 61) ≡ false }
    ensures { seen_symbol result ≡ sign byte }
{
    match byte {
        b'+' => Symbol::Plus,
        b'-' => Symbol::Minus,
        b'*' => Symbol::Times,
        b'(' => Symbol::Opening,
        b')' => Symbol::Closing,
        _ => Symbol::Stray,
    }
}

/// The symbol that begins with an equals sign, and the text after it.
fn first_equals(text: &[u8]) -> (Symbol<'_>, &[u8])
    requires some { 0 < length text.now }
    requires equals { slice_index text.now 0 ≡ 61 }
    ensures symbol { symbols text.now ≡ seen_symbol result.0 ∷ symbols result.1.now }
    ensures shorter { length result.1.now < length text.now }
{
    if text.len() > 1 && text[1] == b'=' {
        (Symbol::Equality, &text[2..])
    } else {
        (Symbol::Half, &text[1..])
    }
}

/// The sign at the front, equals signs apart, and the text after it.
fn first_sign(text: &[u8]) -> (Symbol<'_>, &[u8])
    requires some { 0 < length text.now }
    requires no_digit { is_ascii_digit (slice_index text.now 0) ≡ false }
    requires no_name { is_first_byte (slice_index text.now 0) ≡ false }
    requires no_white { is_white (slice_index text.now 0) ≡ false }
    requires no_equals { (slice_index text.now 0 == 61) ≡ false }
    ensures symbol { symbols text.now ≡ seen_symbol result.0 ∷ symbols result.1.now }
    ensures shorter { length result.1.now < length text.now }
{
    (sign_of(text[0]), &text[1..])
}

/// The first symbol, and the text after it.
fn next_symbol(text: &[u8]) -> Option<(Symbol<'_>, &[u8])>
    ensures symbol { MatchOption result (symbols text.now ≡ [])
        (λ found. symbols text.now ≡ seen_symbol found.0 ∷ symbols found.1.now) }
    ensures shorter { IfSome result (λ found. length found.1.now < length text.now) }
{
    let text = skip_white(text);
    if text.is_empty() {
        return None;
    }
    let first = text[0];
    if first.is_ascii_digit() {
        let (digits, rest) = first_digits(text);
        Some((Symbol::Digits(digits), rest))
    } else if is_first_byte(first) {
        let (name, rest) = first_name(text);
        Some((settled(name), rest))
    } else if first == b'=' {
        Some(first_equals(text))
    } else {
        Some(first_sign(text))
    }
}

/// The symbols of a text.
pub(crate) fn symbols(alloc: Global, text: &[u8]) -> Result<Vec<Symbol<'_>>, AllocError>
    ensures { IfOk result (λ found. map seen_symbol found.items ≡ symbols text.now) }
{
    let mut found = Vec::new(alloc);
    let mut rest = text;
    while let Some((symbol, after)) = next_symbol(rest) {
        found.push(symbol)?;
        rest = after;
    }
    Ok(found)
}
