ghost use Rattle.std.specs.Prelude.{◌≡◌, length, map, IfOk, option_map};
ghost use Rattle.bench_reader.specs.Forms.{names, names_or_none};
ghost use Rattle.bench_reader.specs.Symbols.{symbols};

use crate::symbol::{Symbol, next_symbol};
use std::alloc::{AllocError, Global};
use std::marker::Model;

/// The inputs of a gate as they are written, up to the closing parenthesis that ends the line. Contracts
/// see them as a list of names.
#[derive(Drop)]
pub(crate) struct Inputs<'a> {
    text: &'a [u8],
    count: usize,
}

impl<'a> Model for Inputs<'a> {
    ghost use Rattle.std.specs.Prelude.{◌≡◌, ℕ, List, [], length, option_map, unwrap_or, Some};
    ghost use Rattle.bench_reader.specs.Forms.{names_or_none};
    ghost use Rattle.bench_reader.specs.Symbols.{symbols};

    ghost Value = { List (List ℕ) };

    ghost view = { λ inputs. unwrap_or (names_or_none (symbols inputs.text.now)) [] };

    ghost invariant = { λ inputs.
        option_map length (names_or_none (symbols inputs.text.now)) ≡ Some inputs.count };
}

impl<'a> Inputs<'a> {
    /// The inputs that a text is, where it is of their form.
    pub(crate) fn read(text: &'a [u8]) -> Option<Inputs<'a>>
        ensures { result ≡ names_or_none (symbols text.now) }
    {
        match count_or_none(text) {
            Some(count) => Some(Inputs { text, count }),
            None => None,
        }
    }

    /// How many they are.
    pub(crate) fn len(&self) -> usize
        ensures { result ≡ length self.now }
    {
        self.count
    }

    /// Their names, in order.
    pub(crate) fn names(&self, alloc: Global) -> Result<Vec<&'a str>, AllocError>
        ensures { IfOk result (λ found. map (λ name. name.now) found.items ≡ self.now) }
    {
        let mut found = Vec::with_capacity(alloc, self.count)?;
        let mut rest = self.text;
        while let Some((symbol, after)) = next_symbol(rest) {
            if let Some(name) = symbol.text() {
                found.push(name)?;
            }
            rest = after;
        }
        Ok(found)
    }
}

/// How many names, one or more, stand in front of the closing parenthesis that ends the text.
fn count_of(text: &[u8]) -> Option<usize>
    ensures { result ≡ option_map length (names (symbols text.now)) }
{
    let mut count = 0;
    let mut rest = text;
    loop {
        let Some((Symbol::Name(_), after)) = next_symbol(rest) else {
            return None;
        };
        count += 1;
        match next_symbol(after) {
            Some((Symbol::Comma, more)) => rest = more,
            Some((Symbol::Closing, end)) => {
                return if next_symbol(end).is_none() {
                    Some(count)
                } else {
                    None
                };
            }
            _ => return None,
        }
    }
}

/// The same, or none.
fn count_or_none(text: &[u8]) -> Option<usize>
    ensures { result ≡ option_map length (names_or_none (symbols text.now)) }
{
    match next_symbol(text) {
        Some((Symbol::Closing, end)) => {
            if next_symbol(end).is_none() {
                Some(0)
            } else {
                None
            }
        }
        _ => count_of(text),
    }
}
