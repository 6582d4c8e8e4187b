ghost use Rattle.std.specs.Prelude.{◌≡◌, ◌==◌, ◌≤◌, map, find, length, unwrap_or, option_map, Ok, IfOk, IfErr};
ghost use Rattle.std.specs.List.{range_with_len};
ghost use Rattle.std.specs.Option.{option_map_or};
ghost use Rattle.circuits.specs.Circuit.{input_count};
ghost use Rattle.spec_grammar.specs.GoodDraft.{IsGood};
ghost use Rattle.spec_grammar.specs.Reading.{IsFaultOf, reading, at_end, specified};
ghost use Rattle.spec_grammar.specs.ReadFor.{IsReadFor};
ghost use Rattle.spec_reader.specs.AtLine.{IsAtLine};
ghost use Rattle.spec_reader.specs.Views.{seen_draft};
ghost use Rattle.texts.specs.declared.limits.TheConstants.{MOST_BYTES};
ghost use Rattle.word_base.specs.Kind.{usual_letter};

use crate::draft::{Draft, empty_draft, with_line};
use crate::line_error::LineError;
use netlist::Netlist;
use spec_grammar::{SpecCause, SpecError, SpecFault};
use spec_lang::{Spec, input_order};
use std::alloc::{AllocError, Global};
use texts::split_line;
use word_base::{Decomp, KindName, usual};

fn letter_of(letters: &[(u32, Decomp)], kind: KindName, net: u32) -> Decomp
    ensures { result ≡ option_map_or (λ p. p.1) (find (λ p. p.0 == net) letters.now) (usual_letter kind) }
{
    for given in letters {
        if given.0 == net {
            return given.1;
        }
    }
    usual(kind)
}

/// The letter that was asked for, or the usual one, of each input.
fn letters_of(
    alloc: Global,
    letters: &[(u32, Decomp)],
    kind: KindName,
    order: &[u32],
) -> Result<Vec<Decomp>, AllocError>
    ensures { IfOk result (λ found. found.items
        ≡ map (λ n. option_map_or (λ p. p.1) (find (λ p. p.0 == n) letters.now) (usual_letter kind)) order.now) }
{
    order
        .iter()
        .map(|net| letter_of(letters, kind, *net))
        .collect(alloc)
}

/// The order that was asked for, or that of the inputs by number.
fn order_of(
    alloc: Global,
    netlist: &Netlist,
    order: Option<Vec<u32>>,
) -> Result<Vec<u32>, AllocError>
    ensures { IfOk result (λ found. found.items
        ≡ unwrap_or (option_map (λ order. order.items) order) (range_with_len 0 (input_count netlist.now))) }
{
    match order {
        Some(order) => Ok(order),
        None => input_order(alloc, netlist.inputs()),
    }
}

fn at_line(line: u32, error: LineError) -> SpecError
    ensures { IsAtLine line error result }
{
    match error {
        LineError::Fault(cause) => SpecError::Fault(SpecFault { line, cause }),
        LineError::Memory => SpecError::Memory,
    }
}

/// The specification of what all lines say, if one is a check.
fn finished(
    alloc: Global,
    netlist: &Netlist,
    kind: KindName,
    draft: Draft,
) -> Result<Spec, SpecError>
    requires { IsGood netlist.now kind (seen_draft draft) }
    ensures spec { IfOk result (λ spec.
        at_end (seen_draft draft).checks (specified netlist.now kind (seen_draft draft)) ≡ Ok spec) }
    ensures fault { IfErr result (λ error. IsFaultOf error
        (at_end (seen_draft draft).checks (specified netlist.now kind (seen_draft draft)))) }
{
    let Draft {
        order,
        letters,
        words,
        checks,
    } = draft;
    if checks.is_empty() {
        return Err(SpecError::Fault(SpecFault {
            line: 0,
            cause: SpecCause::NoCheck,
        }));
    }
    let order = order_of(alloc, netlist, order)?;
    let letters = letters_of(alloc, &letters, kind, &order)?;
    Ok(Spec::new(order, letters, words, checks))
}

/// The specification that the bytes say over the netlist, for the kind of diagram, or their first fault.
pub fn read(
    alloc: Global,
    bytes: &[u8],
    netlist: &Netlist,
    kind: KindName,
) -> Result<Spec, SpecError>
    requires { length bytes.now ≤ MOST_BYTES }
    ensures spec { IfOk result (λ spec. reading netlist.now kind bytes.now ≡ Ok spec) }
    ensures fault { IfErr result (λ error. IsFaultOf error (reading netlist.now kind bytes.now)) }
    ensures read_for { IfOk result (λ spec. IsReadFor netlist.now kind spec) }
{
    let mut draft = empty_draft(alloc);
    let mut rest = bytes;
    let mut line = 0u32;
    while !rest.is_empty() {
        let (text, more) = split_line(rest);
        line += 1;
        draft = match with_line(alloc, netlist, kind, draft, text) {
            Ok(next) => next,
            Err(error) => return Err(at_line(line, error)),
        };
        rest = more;
    }
    finished(alloc, netlist, kind, draft)
}
