ghost use Rattle.std.specs.Prelude.{◌≡◌, IfOk, List, OnErr, string_bytes, true};
ghost use Rattle.check_run.specs.Loading.{PutsText};
ghost use Rattle.check_run.specs.Outside.{seen, shelf_seen, sink_seen};
ghost use Rattle.check_run.specs.Run.{IsRefusalLine, IsReport, IsRun};
ghost use Rattle.check_run.specs.Sources.{heading, plain_source};
ghost use Rattle.check_run.specs.Verdicts.{AreReported};
ghost use Rattle.check_run.specs.Words.{is_built};
ghost use Rattle.checks.specs.declared.verdict.Verdict.{Verdict};
ghost use Rattle.settings.specs.Limits.{AreWithin};
ghost use Rattle.settings.specs.Words.{texts};
ghost use Rattle.spec_grammar.specs.ReadFor.{IsReadFor};

use crate::asked::{Asked, Source};
use crate::decide::decide_all;
use crate::load::load;
use crate::status::{Status, status_of};
use crate::stop::Stop;
use netlist::Netlist;
use outside::{Gate, PutFailed, Shelf, Sink};
use report::{Refusal, made_line, refusal_line, verdict_lines};
use spec_lang::Spec;
use std::alloc::{AllocError, Global};

/// A text to write, and the status that goes with it.
#[derive(Drop)]
struct Outcome {
    text: String,
    status: Status,
}

/// The line of a refusal.
fn refused(alloc: Global, refusal: &Refusal) -> Result<Outcome, AllocError>
    ensures { IfOk result (λ outcome.
        IsRefusalLine refusal.now (string_bytes outcome.text) outcome.status) }
{
    let text = refusal_line(alloc, refusal)?;
    let status = Status::Refused;
    Ok(Outcome { text, status })
}

/// What a report begins with: the line of a multiplier, or nothing.
fn heading(alloc: Global, source: Source<'_>, netlist: &Netlist) -> Result<String, AllocError>
    ensures { IfOk result (λ text. string_bytes text ≡ heading (plain_source source.entry) netlist.now) }
{
    match source {
        Source::Files { .. } => Ok(String::new(alloc)),
        Source::Multiplier { size } => made_line(alloc, size, netlist.inputs(), netlist.gates()),
    }
}

/// The heading and the lines of all checks.
fn checked<G: Gate>(
    alloc: Global,
    asked: Asked<'_>,
    netlist: &Netlist,
    spec: &Spec,
    gate: &G,
) -> Result<Outcome, AllocError>
    requires read_for { IsReadFor netlist.now asked.settings.kind spec.now }
    requires limits { AreWithin asked.settings }
    requires built { is_built asked.settings ≡ true }
    ensures { IfOk result (λ outcome. (verdicts : List Verdict)
        × AreReported asked.entry.settings.kind asked.entry.settings.cells netlist.now spec.now verdicts
        × IsReport (plain_source asked.entry.source) netlist.now spec.now verdicts (string_bytes outcome.text) outcome.status) }
{
    let verdicts = decide_all(alloc, netlist, spec, asked.settings, gate)?;
    let mut text = heading(alloc, asked.source, netlist)?;
    let lines = verdict_lines(alloc, netlist, spec.order(), &verdicts)?;
    text.push_str(&lines)?;
    let status = status_of(&verdicts);
    Ok(Outcome { text, status })
}

/// Puts out a text, where it was made.
fn put<O: Sink>(out: &mut O, outcome: Result<Outcome, AllocError>) -> Status
    ensures put { IfOk outcome (λ o. PutsText (sink_seen O.written O.faults out.old)
        (sink_seen O.written O.faults out.new) (string_bytes o.text) o.status result) }
    ensures not_made { OnErr outcome (result ≡ Status.NoMemory) }
    ensures nothing { OnErr outcome (sink_seen O.written O.faults out.new
        ≡ sink_seen O.written O.faults out.old) }
{
    let Ok(outcome) = outcome else {
        return Status::NoMemory;
    };
    match out.put(outcome.text.as_bytes()) {
        Ok(()) => outcome.status,
        Err(PutFailed) => Status::WriteFault,
    }
}

/// Runs a command, without the program's name: decides all checks of a specification's file over a netlist's
/// file, or the check of a multiplier that is made, also after one that met a limit, and puts out a line for each.
/// The gate is for runs of several workers.
pub fn run<'a, F: Shelf, O: Sink, G: Gate>(
    alloc: Global,
    words: &'a [&'a str],
    shelf: &mut F,
    out: &mut O,
    gate: &G,
) -> Status
    ensures { IsRun (texts words.entry.now)
        (seen (shelf_seen F.files F.fetches F.faults shelf.old)
        (sink_seen O.written O.faults out.old))
        (seen (shelf_seen F.files F.fetches F.faults shelf.new)
        (sink_seen O.written O.faults out.new))
        result }
{
    match load(alloc, words, shelf) {
        Ok((asked, netlist, spec)) => put(out, checked(alloc, asked, &netlist, &spec, gate)),
        Err(Stop::Refused(refusal)) => put(out, refused(alloc, &refusal)),
        Err(Stop::ReadFault) => Status::ReadFault,
        Err(Stop::Memory) => Status::NoMemory,
    }
}
