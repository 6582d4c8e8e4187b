ghost use Rattle.std.specs.Prelude.{◌≡◌, ◌≤◌, ◌&&◌, ◌||◌, map, length, true, nat_lt, nat_le, Some, IfOk};
ghost use Rattle.std.specs.List.{list_any, before_first, after_first};
ghost use Rattle.circuits.specs.Limits.{is_long};
ghost use Rattle.spec_grammar.specs.Fields.{fields};
ghost use Rattle.spec_grammar.specs.Forms.{order_form, split_form, word_form, is_equals_sign};
ghost use Rattle.spec_grammar.specs.Names.{letter, is_word_name};
ghost use Rattle.spec_lang.specs.Specification.{named_word};
ghost use Rattle.spec_lang.specs.WellFormed.{IsSizedWord};
ghost use Rattle.spec_lang.specs.declared.limits.TheConstants.{MOST_WORDS, MOST_NETS_OF_WORD};
ghost use Rattle.spec_reader.specs.Steps.{Tells, order_fault, order_said, split_fault, split_said, split_named, word_fault, word_said};

use crate::atom::is_word;
use crate::fields::{fields, split_equals};
use crate::line_error::LineError;
use crate::names::{is_word_name, letter_of};
use crate::nets::{has_long_name, is_bad_order, is_long, is_net_list, is_no_split, net_numbers};
use netlist::Netlist;
use spec_grammar::SpecCause;
use spec_lang::{MOST_NETS_OF_WORD, MOST_WORDS, Word};
use std::alloc::{AllocError, Global};
use word_base::{Decomp, KindName, allows};

fn order_of(
    alloc: Global,
    netlist: &Netlist,
    given: bool,
    nets: &[&[u8]],
) -> Result<Vec<u32>, LineError>
    ensures { let form = order_form (map (λ net. net.now) nets.now)
        in Tells result (order_fault netlist.now given form)
        (λ order. order.items ≡ order_said netlist.now form) }
{
    if !is_net_list(nets) {
        return Err(LineError::Fault(SpecCause::BadLine));
    }
    if has_long_name(nets) {
        return Err(LineError::Fault(SpecCause::TooLarge));
    }
    let Some(numbers) = net_numbers(alloc, netlist, nets)? else {
        return Err(LineError::Fault(SpecCause::UnknownNet));
    };
    if is_bad_order(given, netlist.inputs(), &numbers) {
        return Err(LineError::Fault(SpecCause::BadOrder));
    }
    Ok(numbers)
}

/// The order of a line `order NET .. NET`, by what stands behind its keyword, where one was given or not.
pub(crate) fn order_line(
    alloc: Global,
    netlist: &Netlist,
    given: bool,
    text: &[u8],
) -> Result<Vec<u32>, LineError>
    ensures { let form = order_form (fields text.now)
        in Tells result (order_fault netlist.now given form)
        (λ order. order.items ≡ order_said netlist.now form) }
{
    let nets = fields(alloc, text)?;
    order_of(alloc, netlist, given, &nets)
}

fn split_with(
    alloc: Global,
    netlist: &Netlist,
    kind: KindName,
    letters: &[(u32, Decomp)],
    text: &[u8],
    nets: &[&[u8]],
) -> Result<(Decomp, Vec<u32>), LineError>
    ensures { let form = split_named (letter text.now) (map (λ net. net.now) nets.now)
        in Tells result (split_fault netlist.now kind letters.now form)
        (λ split. Some (split.0, split.1.items) ≡ split_said netlist.now form) }
{
    let Some(letter) = letter_of(text) else {
        return Err(LineError::Fault(SpecCause::BadLine));
    };
    if !is_net_list(nets) {
        return Err(LineError::Fault(SpecCause::BadLine));
    }
    if has_long_name(nets) {
        return Err(LineError::Fault(SpecCause::TooLarge));
    }
    let Some(numbers) = net_numbers(alloc, netlist, nets)? else {
        return Err(LineError::Fault(SpecCause::UnknownNet));
    };
    if is_no_split(netlist.inputs(), letters, &numbers) {
        return Err(LineError::Fault(SpecCause::BadSplit));
    }
    if !allows(kind, letter) {
        return Err(LineError::Fault(SpecCause::SplitNotForKind));
    }
    Ok((letter, numbers))
}

fn split_of(
    alloc: Global,
    netlist: &Netlist,
    kind: KindName,
    letters: &[(u32, Decomp)],
    texts: &[&[u8]],
) -> Result<(Decomp, Vec<u32>), LineError>
    ensures { let form = split_form (map (λ text. text.now) texts.now)
        in Tells result (split_fault netlist.now kind letters.now form)
        (λ split. Some (split.0, split.1.items) ≡ split_said netlist.now form) }
{
    match texts.split_first() {
        Some((text, nets)) => split_with(alloc, netlist, kind, letters, text, nets),
        None => Err(LineError::Fault(SpecCause::BadLine)),
    }
}

/// The letter and the inputs of a line `split LETTER NET .. NET`, by what stands behind its keyword, after these
/// letters.
pub(crate) fn split_line(
    alloc: Global,
    netlist: &Netlist,
    kind: KindName,
    letters: &[(u32, Decomp)],
    text: &[u8],
) -> Result<(Decomp, Vec<u32>), LineError>
    ensures { let form = split_form (fields text.now)
        in Tells result (split_fault netlist.now kind letters.now form)
        (λ split. Some (split.0, split.1.items) ≡ split_said netlist.now form) }
{
    let texts = fields(alloc, text)?;
    split_of(alloc, netlist, kind, letters, &texts)
}

fn made_word(alloc: Global, name: &[u8], nets: Vec<u32>) -> Result<Word, AllocError>
    requires name { is_word_name name.now ≡ true }
    requires sized { IsSizedWord (named_word name.now nets.items) }
    ensures { IfOk result (λ word. word ≡ named_word name.now nets.items) }
{
    let name = String::from_str(alloc, str::from_utf8(name).unwrap())?;
    Ok(Word::new(name, nets))
}

fn is_too_large(words: &[Word], name: &[u8], nets: &[&[u8]]) -> bool
    ensures { let names = map (λ net. net.now) nets.now
        in result ≡ (is_long name.now || list_any is_long names
        || nat_lt MOST_NETS_OF_WORD (length names) || nat_le MOST_WORDS (length words.now)) }
{
    is_long(name)
        || has_long_name(nets)
        || nets.len() > MOST_NETS_OF_WORD
        || words.len() >= MOST_WORDS
}

fn word_of(
    alloc: Global,
    netlist: &Netlist,
    words: &[Word],
    names: &[&[u8]],
    nets: &[&[u8]],
) -> Result<Word, LineError>
    ensures { let form = word_form (map (λ name. name.now) names.now) (map (λ net. net.now) nets.now)
        in Tells result (word_fault netlist.now words.now form)
        (λ word. Some word ≡ word_said netlist.now form) }
{
    if names.len() != 1 {
        return Err(LineError::Fault(SpecCause::BadLine));
    }
    let name = names[0];
    if !is_word_name(name) {
        return Err(LineError::Fault(SpecCause::BadLine));
    }
    if !is_net_list(nets) {
        return Err(LineError::Fault(SpecCause::BadLine));
    }
    if is_too_large(words, name, nets) {
        return Err(LineError::Fault(SpecCause::TooLarge));
    }
    if is_word(words, name) {
        return Err(LineError::Fault(SpecCause::DuplicateWord));
    }
    let Some(numbers) = net_numbers(alloc, netlist, nets)? else {
        return Err(LineError::Fault(SpecCause::UnknownNet));
    };
    Ok(made_word(alloc, name, numbers)?)
}

/// The word of a line `word NAME = NET .. NET`, by what stands behind its keyword, after these words.
pub(crate) fn word_line(
    alloc: Global,
    netlist: &Netlist,
    words: &[Word],
    text: &[u8],
) -> Result<Word, LineError>
    ensures { let form = word_form (fields (before_first is_equals_sign text.now))
        (fields (after_first is_equals_sign text.now))
        in Tells result (word_fault netlist.now words.now form)
        (λ word. Some word ≡ word_said netlist.now form) }
{
    let (front, rest) = split_equals(text);
    let names = fields(alloc, front)?;
    let nets = fields(alloc, rest)?;
    word_of(alloc, netlist, words, &names, &nets)
}
