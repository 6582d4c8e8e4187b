ghost use Rattle.std.specs.Prelude.{◌≡◌, ◌≤◌, ◌++◌, length, None, IfOk, OnOk, IfErr, option_map};
ghost use Rattle.bench_reader.specs.Gathered.{Gathers, IsAtLine, number_more};
ghost use Rattle.bench_reader.specs.Steps.{Adds, IsSized, HasCause, RefusesLine, cause_of, statement_fault, with_statement};
ghost use Rattle.bench_reader.specs.Views.{seen_statement};
ghost use Rattle.texts.specs.Lines.{lines};
ghost use Rattle.texts.specs.declared.limits.TheConstants.{MOST_BYTES};

use crate::fault::{BenchError, BenchFault};
use crate::line_error::LineError;
use crate::statement::{Statement, statement_of};
use netlist::NetlistMaker;
use std::alloc::{AllocError, Global};
use texts::split_line;

fn add(alloc: Global, maker: &mut NetlistMaker, statement: &Statement<'_>) -> Result<(), LineError>
    requires { IsSized (seen_statement statement.now) }
    ensures no_fault { OnOk result
        (statement_fault maker.old (seen_statement statement.now) ≡ None) }
    ensures added { OnOk result
        (maker.new ≡ with_statement maker.old (seen_statement statement.now)) }
    ensures fault { IfErr result (λ e. HasCause e
        (option_map (λ f. cause_of f.cause)
        (statement_fault maker.old (seen_statement statement.now)))) }
{
    match statement {
        Statement::AddsInput(net) => maker.add_input(net)?,
        Statement::AddsOutput(net) => maker.add_output(net)?,
        Statement::AddsGate(net, word, inputs) => {
            let inputs = inputs.names(alloc)?;
            maker.add_gate(net, *word, &inputs)?
        }
    }
    Ok(())
}

/// Adds what a line says, and tells whether it says anything.
fn add_line(alloc: Global, maker: &mut NetlistMaker, line: &[u8]) -> Result<bool, LineError>
    ensures added { IfOk result (λ says. Adds maker.old maker.new line.now says) }
    ensures fault { IfErr result (λ e. RefusesLine e maker.old line.now) }
{
    match statement_of(line)? {
        Some(statement) => {
            add(alloc, maker, &statement)?;
            Ok(true)
        }
        None => Ok(false),
    }
}

fn at_line(line: u32, error: LineError) -> BenchError
    ensures { IsAtLine line error result }
{
    match error {
        LineError::Fault(cause) => BenchError::Fault(BenchFault { line, cause }),
        LineError::Memory => BenchError::Memory,
    }
}

/// Notes the number of a line that says something.
fn note(saying: &mut Vec<u32>, line: u32, says: bool) -> Result<(), AllocError>
    ensures { OnOk result (saying.new.items ≡ saying.old.items ++ number_more line says) }
{
    if says {
        saying.push(line)?;
    }
    Ok(())
}

/// What the lines of a text say.
#[derive(Drop)]
pub(crate) struct Gathered {
    pub(crate) maker: NetlistMaker,
    /// The numbers of the lines that say something, in order.
    pub(crate) saying: Vec<u32>,
}

/// Adds what the lines of a text say, up to the first line with a fault.
pub(crate) fn gather(alloc: Global, bytes: &[u8]) -> Result<Gathered, BenchError>
    requires { length bytes.now ≤ MOST_BYTES }
    ensures { Gathers result (lines bytes.now) }
{
    let mut maker = NetlistMaker::new(alloc);
    let mut saying = Vec::new(alloc);
    let mut rest = bytes;
    let mut line = 0u32;
    while !rest.is_empty() {
        let (text, more) = split_line(rest);
        line += 1;
        match add_line(alloc, &mut maker, text) {
            Ok(says) => note(&mut saying, line, says)?,
            Err(error) => return Err(at_line(line, error)),
        }
        rest = more;
    }
    Ok(Gathered { maker, saying })
}
