ghost use Rattle.std.specs.Prelude.{◌≡◌, ◌≤◌, ◌++◌, map, length, is_some, OnOk};
ghost use Rattle.spec_grammar.specs.Faults.{empty_draft, with_form, line_fault};
ghost use Rattle.spec_grammar.specs.Fields.{fields};
ghost use Rattle.spec_grammar.specs.Forms.{order_form, split_form, word_form, check_form, is_equals_sign, form_of};
ghost use Rattle.spec_grammar.specs.Symbols.{symbols};
ghost use Rattle.spec_lang.specs.declared.limits.TheConstants.{MOST_WORDS};
ghost use Rattle.spec_reader.specs.Steps.{Tells, order_fault, split_fault, word_fault, check_fault};
ghost use Rattle.spec_reader.specs.Views.{seen_draft};
ghost use Rattle.std.specs.List.{before_first, after_first};

use crate::check_line::check_line;
use crate::fields::split_keyword;
use crate::line_error::LineError;
use crate::names::is;
use crate::net_lines::{order_line, split_line, word_line};
use netlist::Netlist;
use spec_grammar::SpecCause;
use spec_lang::{Check, Word};
use std::alloc::{AllocError, Global};
use texts::before_comment;
use word_base::{Decomp, KindName};

/// What the lines of a text say, from the first one up to some line.
#[derive(Drop)]
pub(crate) struct Draft {
    /// The inputs of an order line.
    pub(crate) order: Option<Vec<u32>>,
    /// The inputs of split lines with their letters.
    pub(crate) letters: Vec<(u32, Decomp)>,
    pub(crate) words: Vec<Word>,
    pub(crate) checks: Vec<Check>,
}

pub(crate) fn empty_draft(alloc: Global) -> Draft
    ensures { seen_draft result ≡ empty_draft }
{
    Draft {
        order: None,
        letters: Vec::new(alloc),
        words: Vec::new(alloc),
        checks: Vec::new(alloc),
    }
}

fn with_order(
    alloc: Global,
    netlist: &Netlist,
    mut draft: Draft,
    text: &[u8],
) -> Result<Draft, LineError>
    ensures { let form = order_form (fields text.now)
        in Tells result (order_fault netlist.now (is_some (seen_draft draft).order) form)
        (λ next. seen_draft next ≡ with_form netlist.now (seen_draft draft) form) }
{
    let order = order_line(alloc, netlist, draft.order.is_some(), text)?;
    draft.order = Some(order);
    Ok(draft)
}

/// Gives the letter to each of the inputs.
fn put_letters(
    letters: &mut Vec<(u32, Decomp)>,
    letter: Decomp,
    nets: &[u32],
) -> Result<(), AllocError>
    ensures { OnOk result
        (letters.new.items ≡ letters.old.items ++ map (λ n. (n, letter)) nets.now) }
{
    for net in nets {
        letters.push((*net, letter))?;
    }
    Ok(())
}

fn with_split(
    alloc: Global,
    netlist: &Netlist,
    kind: KindName,
    mut draft: Draft,
    text: &[u8],
) -> Result<Draft, LineError>
    ensures { let form = split_form (fields text.now)
        in Tells result (split_fault netlist.now kind (seen_draft draft).letters form)
        (λ next. seen_draft next ≡ with_form netlist.now (seen_draft draft) form) }
{
    let (letter, nets) = split_line(alloc, netlist, kind, &draft.letters, text)?;
    put_letters(&mut draft.letters, letter, &nets)?;
    Ok(draft)
}

fn with_word(
    alloc: Global,
    netlist: &Netlist,
    mut draft: Draft,
    text: &[u8],
) -> Result<Draft, LineError>
    ensures { let form = word_form (fields (before_first is_equals_sign text.now))
        (fields (after_first is_equals_sign text.now))
        in Tells result (word_fault netlist.now (seen_draft draft).words form)
        (λ next. seen_draft next ≡ with_form netlist.now (seen_draft draft) form) }
{
    let word = word_line(alloc, netlist, &draft.words, text)?;
    draft.words.push(word)?;
    Ok(draft)
}

fn with_check(
    alloc: Global,
    netlist: &Netlist,
    mut draft: Draft,
    text: &[u8],
) -> Result<Draft, LineError>
    requires { length draft.words.items ≤ MOST_WORDS }
    ensures { let form = check_form (symbols text.now)
        in Tells result (check_fault (seen_draft draft).words (length (seen_draft draft).checks) form)
        (λ next. seen_draft next ≡ with_form netlist.now (seen_draft draft) form) }
{
    let check = check_line(alloc, &draft.words, draft.checks.len(), text)?;
    draft.checks.push(check)?;
    Ok(draft)
}

/// What lines say with a line more.
pub(crate) fn with_line(
    alloc: Global,
    netlist: &Netlist,
    kind: KindName,
    draft: Draft,
    line: &[u8],
) -> Result<Draft, LineError>
    requires { length draft.words.items ≤ MOST_WORDS }
    ensures { Tells result (line_fault netlist.now kind (seen_draft draft) line.now)
        (λ next. seen_draft next ≡ with_form netlist.now (seen_draft draft) (form_of line.now)) }
{
    let (keyword, rest) = split_keyword(before_comment(line));
    if keyword.is_empty() {
        Ok(draft)
    } else if is(keyword, "order") {
        with_order(alloc, netlist, draft, rest)
    } else if is(keyword, "split") {
        with_split(alloc, netlist, kind, draft, rest)
    } else if is(keyword, "word") {
        with_word(alloc, netlist, draft, rest)
    } else if is(keyword, "check") {
        with_check(alloc, netlist, draft, rest)
    } else {
        Err(LineError::Fault(SpecCause::BadLine))
    }
}
