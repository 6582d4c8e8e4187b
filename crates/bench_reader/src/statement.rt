ghost use Rattle.std.specs.Prelude.{◌≡◌};
ghost use Rattle.circuits.specs.Limits.{takes};
ghost use Rattle.bench_reader.specs.Forms.{gate};
ghost use Rattle.bench_reader.specs.Steps.{TellsForm, TellsLine};

use crate::fault::BenchCause;
use crate::form::{Form, form_of};
use crate::inputs::Inputs;
use crate::word::{gate_of, is_word};
use netlist::GateWord;
use texts::{before_comment, has_byte_above_127};

/// What a line adds to a netlist.
#[derive(Drop)]
pub(crate) enum Statement<'a> {
    AddsInput(&'a str),
    AddsOutput(&'a str),
    /// The name of the gate's net, what it computes and its inputs.
    AddsGate(&'a str, GateWord, Inputs<'a>),
}

/// Whether a gate with this word may have so many inputs, the limit apart.
fn accepts(word: GateWord, inputs: usize) -> bool
    ensures { result ≡ takes word inputs }
{
    match word {
        GateWord::Not | GateWord::Buff => inputs == 1,
        _ => inputs > 0,
    }
}

fn gate_statement<'a>(
    net: &'a str,
    word: &str,
    inputs: Inputs<'a>,
) -> Result<Option<Statement<'a>>, BenchCause>
    ensures { TellsForm result (gate net.now word.now inputs.entry) }
{
    if is_word(word, "DFF") {
        return Err(BenchCause::Sequential);
    }
    let Some(word) = gate_of(word) else {
        return Err(BenchCause::UnknownGate);
    };
    if !accepts(word, inputs.len()) {
        return Err(BenchCause::BadArity);
    }
    Ok(Some(Statement::AddsGate(net, word, inputs)))
}

/// What a line says, if anything, or what is wrong with it by itself.
pub(crate) fn statement_of(line: &[u8]) -> Result<Option<Statement<'_>>, BenchCause>
    ensures { TellsLine result line.now }
{
    let text = before_comment(line);
    if has_byte_above_127(text) {
        return Err(BenchCause::NotAscii);
    }
    match form_of(text) {
        Form::Empty => Ok(None),
        Form::Input(net) => Ok(Some(Statement::AddsInput(net))),
        Form::Output(net) => Ok(Some(Statement::AddsOutput(net))),
        Form::Gate(net, word, inputs) => gate_statement(net, word, inputs),
        Form::NoForm => Err(BenchCause::BadLine),
    }
}
