ghost use Rattle.std.specs.Prelude.{◌≡◌, ◌≤◌, ◌||◌, map, length, true, false, nat_lt, nat_le, position, is_some, Some, IfOk};
ghost use Rattle.std.specs.List.{list_all, list_any, before_first, after_first};
ghost use Rattle.spec_grammar.specs.Faults.{has_long_name, is_great, is_unknown_name};
ghost use Rattle.spec_grammar.specs.Forms.{is_equality, check_form};
ghost use Rattle.spec_grammar.specs.Parsing.{parsed};
ghost use Rattle.spec_grammar.specs.Symbols.{symbols};
ghost use Rattle.spec_grammar.specs.declared.limits.TheConstants.{MOST_NESTING};
ghost use Rattle.spec_lang.specs.declared.limits.TheConstants.{MOST_WORDS, MOST_CHECKS, MOST_SYMBOLS};
ghost use Rattle.spec_reader.specs.Good.{has_digits, is_good};
ghost use Rattle.spec_reader.specs.Steps.{Tells, check_fault, check_said, sides_said};
ghost use Rattle.spec_reader.specs.Views.{seen_symbol};

use crate::atom::{is_great, is_word};
use crate::expression::expression;
use crate::line_error::LineError;
use crate::survey::nesting;
use crate::symbol::{Symbol, symbols};
use circuits::LONGEST_NAME;
use spec_grammar::{MOST_NESTING, SpecCause};
use spec_lang::{Check, MOST_CHECKS, MOST_SYMBOLS, Word};
use std::alloc::{AllocError, Global};

fn is_equality(symbol: Symbol<'_>) -> bool
    ensures { result ≡ is_equality (seen_symbol symbol.entry) }
{
    matches!(symbol, Symbol::Equality)
}

fn place_of_equality(symbols: &[Symbol<'_>]) -> Option<usize>
    ensures { result ≡ position (λ s. is_equality (seen_symbol s)) symbols.now }
{
    symbols.iter().position(|symbol| is_equality(*symbol))
}

/// The symbols in front of the first `==`, and those behind it.
fn split_equality<'s, 'a>(symbols: &'s [Symbol<'a>]) -> (&'s [Symbol<'a>], &'s [Symbol<'a>])
    ensures left { map seen_symbol result.0.now
        ≡ before_first is_equality (map seen_symbol symbols.now) }
    ensures right { map seen_symbol result.1.now
        ≡ after_first is_equality (map seen_symbol symbols.now) }
{
    match place_of_equality(symbols) {
        Some(at) => (&symbols[..at], &symbols[at + 1..]),
        None => symbols.split_at(symbols.len()),
    }
}

fn is_long_name(symbol: Symbol<'_>) -> bool
    ensures { result ≡ has_long_name (seen_symbol symbol.entry) }
{
    match symbol {
        Symbol::Name(name) => name.len() > LONGEST_NAME,
        _ => false,
    }
}

fn is_some_long(symbols: &[Symbol<'_>]) -> bool
    ensures { result ≡ list_any (λ s. has_long_name (seen_symbol s)) symbols.now }
{
    symbols.iter().any(|symbol| is_long_name(*symbol))
}

fn has_long_name(symbols: &[Symbol<'_>]) -> bool
    ensures { result ≡ list_any has_long_name (map seen_symbol symbols.now) }
{
    is_some_long(symbols)
}

fn is_too_large(symbols: &[Symbol<'_>], checks: usize, left: usize, right: usize) -> bool
    ensures { let line = map seen_symbol symbols.now
        in result ≡ (list_any has_long_name line
        || nat_lt MOST_SYMBOLS (length line) || nat_le MOST_CHECKS checks
        || nat_lt MOST_NESTING left || nat_lt MOST_NESTING right) }
{
    has_long_name(symbols)
        || symbols.len() > MOST_SYMBOLS
        || checks >= MOST_CHECKS
        || left > MOST_NESTING
        || right > MOST_NESTING
}

fn is_great_number(symbol: Symbol<'_>) -> bool
    requires { has_digits (seen_symbol symbol) ≡ true }
    ensures { result ≡ is_great (seen_symbol symbol.entry) }
{
    match symbol {
        Symbol::Digits(digits) => is_great(digits),
        _ => false,
    }
}

fn has_great_number(symbols: &[Symbol<'_>]) -> bool
    requires { list_all has_digits (map seen_symbol symbols.now) ≡ true }
    ensures { result ≡ list_any is_great (map seen_symbol symbols.now) }
{
    for symbol in symbols {
        if is_great_number(*symbol) {
            return true;
        }
    }
    false
}

fn is_unknown_name(words: &[Word], symbol: Symbol<'_>) -> bool
    ensures { result ≡ is_unknown_name words.now (seen_symbol symbol.entry) }
{
    match symbol {
        Symbol::Name(name) => !is_word(words, name),
        _ => false,
    }
}

fn is_some_unknown(words: &[Word], symbols: &[Symbol<'_>]) -> bool
    ensures { result ≡ list_any (λ s. is_unknown_name words.now (seen_symbol s)) symbols.now }
{
    symbols.iter().any(|symbol| is_unknown_name(words, *symbol))
}

fn has_unknown_name(words: &[Word], symbols: &[Symbol<'_>]) -> bool
    ensures { result ≡ list_any (is_unknown_name words.now) (map seen_symbol symbols.now) }
{
    is_some_unknown(words, symbols)
}

/// The check of two sides that are expressions.
fn sides(
    alloc: Global,
    words: &[Word],
    left: &[Symbol<'_>],
    right: &[Symbol<'_>],
) -> Result<Check, AllocError>
    requires words { length words.now ≤ MOST_WORDS }
    requires left { is_some (parsed (map seen_symbol left.now)) ≡ true }
    requires right { is_some (parsed (map seen_symbol right.now)) ≡ true }
    requires left_good { list_all (is_good words.now) (map seen_symbol left.now) ≡ true }
    requires right_good { list_all (is_good words.now) (map seen_symbol right.now) ≡ true }
    ensures { IfOk result (λ check. sides_said words.now (parsed (map seen_symbol left.now))
        (parsed (map seen_symbol right.now)) ≡ Some check) }
{
    let left = expression(alloc, words, left)?.unwrap();
    let right = expression(alloc, words, right)?.unwrap();
    Ok(Check::new(left, right))
}

/// The check that symbols are, after so many others.
fn check_of(
    alloc: Global,
    words: &[Word],
    checks: usize,
    symbols: &[Symbol<'_>],
) -> Result<Check, LineError>
    requires words { length words.now ≤ MOST_WORDS }
    requires digits { list_all has_digits (map seen_symbol symbols.now) ≡ true }
    ensures { let form = check_form (map seen_symbol symbols.now)
        in Tells result (check_fault words.now checks form)
        (λ check. check_said words.now form ≡ Some check) }
{
    let (left, right) = split_equality(symbols);
    let Some(left_nesting) = nesting(alloc, left)? else {
        return Err(LineError::Fault(SpecCause::BadLine));
    };
    let Some(right_nesting) = nesting(alloc, right)? else {
        return Err(LineError::Fault(SpecCause::BadLine));
    };
    if is_too_large(symbols, checks, left_nesting, right_nesting) {
        return Err(LineError::Fault(SpecCause::TooLarge));
    }
    if has_great_number(symbols) {
        return Err(LineError::Fault(SpecCause::NumberTooLarge));
    }
    if has_unknown_name(words, symbols) {
        return Err(LineError::Fault(SpecCause::UnknownWord));
    }
    Ok(sides(alloc, words, left, right)?)
}

/// The check of a line `check EXPR == EXPR`, by what stands behind its keyword, after so many others.
pub(crate) fn check_line(
    alloc: Global,
    words: &[Word],
    checks: usize,
    text: &[u8],
) -> Result<Check, LineError>
    requires { length words.now ≤ MOST_WORDS }
    ensures { let form = check_form (symbols text.now)
        in Tells result (check_fault words.now checks form)
        (λ check. check_said words.now form ≡ Some check) }
{
    let symbols = symbols(alloc, text)?;
    check_of(alloc, words, checks, &symbols)
}
