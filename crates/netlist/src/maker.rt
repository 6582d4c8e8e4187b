ghost use Rattle.std.specs.Prelude.{◌≡◌, ℕ, ◌<◌, false, true, List, [], ◌∷◌, ◌++◌, length, map, IfOk, OnOk, OnErr, None, ◌||◌, nat_lt, nat_le, string_bytes, vec_len, if◌then◌else◌};
ghost use Rattle.std.specs.HashMap.{get_by_text};
ghost use Rattle.std.specs.HashSet.{contains_text};
ghost use Rattle.std.specs.List.{list_any};
ghost use Rattle.std.specs.Str.{bytes_eq};
ghost use Rattle.netlist.specs.Draft.{nothing, counted, with_input, with_gate, with_output, input_fault, gate_fault, output_fault, net_fault, gate_line, output_line};
ghost use Rattle.netlist.specs.Fault.{Answers, AnswersInMemory};
ghost use Rattle.netlist.specs.Finish.{circuit_of, finish_fault, undefined_fault};
ghost use Rattle.circuits.specs.Limits.{AcceptsArity, is_long};
ghost use Rattle.netlist.specs.Inside.Maker.{gate_kept, output_kept};
ghost use Rattle.netlist.specs.Inside.Source.{FindsOneMore};

use crate::draft::{DraftGate, DraftOutput};
use crate::fault::{NetCause, NetError, NetFault};
use crate::finish::{first_unknown, nets_of, order_and_cycle, without_cycle};
use crate::netlist::Netlist;
use crate::source::Source;
use circuits::{GateWord, LONGEST_NAME, MOST_FANIN, MOST_GATES, MOST_INPUTS};
use std::alloc::{AllocError, Global};
use std::collections::{HashMap, HashSet};
use std::marker::Model;

/// Takes a netlist call by call, by names.
#[derive(Drop)]
pub struct NetlistMaker {
    calls: u32,
    inputs: Vec<String>,
    gates: Vec<DraftGate>,
    outputs: Vec<DraftOutput>,
    sources: HashMap<String, Source>,
    named: HashSet<String>,
}

impl Model for NetlistMaker {
    ghost use Rattle.std.specs.HashMap.{get_by_text};
    ghost use Rattle.std.specs.HashSet.{contains_text};
    ghost use Rattle.netlist.specs.Draft.{Draft};
    ghost use Rattle.netlist.specs.Inside.Maker.{drafted, IsKept};

    ghost Value = { Draft };

    ghost view = { λ m. drafted m.calls m.inputs.items m.gates.items m.outputs.items };

    ghost invariant = { λ m. IsKept (drafted m.calls m.inputs.items m.gates.items m.outputs.items) (get_by_text m.sources) (contains_text m.named) };
}

impl NetlistMaker {
    /// A maker of the empty netlist, to which no call was made.
    pub fn new(alloc: Global) -> NetlistMaker
        ensures { result ≡ nothing }
    {
        NetlistMaker {
            calls: 0,
            inputs: Vec::new(alloc),
            gates: Vec::new(alloc),
            outputs: Vec::new(alloc),
            sources: HashMap::new(alloc),
            named: HashSet::new(alloc),
        }
    }

    /// Adds an input. The name is too large above `LONGEST_NAME` bytes, and so is one input more than
    /// `MOST_INPUTS`. A refused call changes nothing but the number of calls.
    pub fn add_input(&mut self, name: &str) -> Result<(), NetError>
        ensures fault { Answers result (input_fault self.old name.now) }
        ensures ok { OnOk result (self.new ≡ with_input self.old name.now) }
        ensures err { OnErr result (self.new ≡ counted self.old) }
    {
        self.calls = self.calls.saturating_add(1);
        let too_large = is_too_large_input(name, self.inputs.len());
        if let Some(fault) = net_fault(self.calls, too_large, self.sources.contains_key(name)) {
            return Err(NetError::Fault(fault));
        }
        put_input(&mut self.inputs, &mut self.sources, name)?;
        Ok(())
    }

    /// Adds a gate. An input may be named before it is defined. Too large are a name above `LONGEST_NAME`
    /// bytes, more inputs than `MOST_FANIN`, and one gate more than `MOST_GATES`. A refused call changes
    /// nothing but the number of calls.
    pub fn add_gate(&mut self, name: &str, word: GateWord, inputs: &[&str]) -> Result<(), NetError>
        requires { AcceptsArity word (length inputs.now) }
        ensures fault { Answers result (gate_fault self.old name.now (map (λ input. input.now) inputs.now)) }
        ensures ok { OnOk result (self.new ≡ with_gate self.old name.now word (map (λ input. input.now) inputs.now)) }
        ensures err { OnErr result (self.new ≡ counted self.old) }
    {
        self.calls = self.calls.saturating_add(1);
        let too_large = is_too_large_gate(name, inputs, self.gates.len());
        if let Some(fault) = net_fault(self.calls, too_large, self.sources.contains_key(name)) {
            return Err(NetError::Fault(fault));
        }
        let gate = own_gate(*self.gates.allocator(), self.calls, name, word, inputs)?;
        put_gate(&mut self.gates, &mut self.sources, name, gate)?;
        Ok(())
    }

    /// Adds an output. One that was named before is kept at the call that named it first. A refused
    /// call changes nothing but the number of calls.
    pub fn add_output(&mut self, name: &str) -> Result<(), NetError>
        ensures fault { Answers result (output_fault self.old name.now) }
        ensures ok { OnOk result (self.new ≡ with_output self.old name.now) }
        ensures err { OnErr result (self.new ≡ counted self.old) }
    {
        self.calls = self.calls.saturating_add(1);
        if is_too_long(name) {
            return Err(NetError::Fault(NetFault {
                at: self.calls,
                cause: NetCause::TooLarge,
            }));
        }
        if self.named.contains(name) {
            return Ok(());
        }
        put_output(&mut self.outputs, &mut self.named, self.calls, name)?;
        Ok(())
    }

    /// The netlist of all that was added. An undefined net is told before a cycle.
    pub fn finish(self) -> Result<Netlist, NetError>
        ensures circuit { IfOk result (λ netlist. netlist ≡ circuit_of self) }
        ensures fault { AnswersInMemory result (finish_fault self) }
        ensures undefined { result ≡ Err NetError.Memory → undefined_fault self ≡ None }
    {
        if let Some(at) = first_unknown(&self.gates, &self.outputs, &self.sources) {
            let cause = NetCause::UndefinedNet;
            return Err(NetError::Fault(NetFault { at, cause }));
        }
        let alloc = *self.inputs.allocator();
        let inputs = self.inputs;
        let nets = nets_of(inputs, &self.gates, &self.outputs, &self.sources)?;
        let (order, on_cycle) = order_and_cycle(alloc, &nets, &self.gates)?;
        let sources = self.sources;
        Ok(without_cycle(nets, order, sources, on_cycle)?)
    }
}

fn is_too_long(name: &str) -> bool
    ensures { result ≡ is_long name.now }
{
    name.len() > LONGEST_NAME
}

fn any_is_too_long(names: &[&str]) -> bool
    ensures { result ≡ list_any (λ name. is_long name.now) names.now }
{
    names.iter().any(|name| is_too_long(name))
}

fn is_too_large_input(name: &str, inputs: usize) -> bool
    ensures { result ≡ (is_long name.now || nat_le MOST_INPUTS inputs) }
{
    is_too_long(name) || inputs >= MOST_INPUTS
}

fn is_too_large_gate(name: &str, inputs: &[&str], gates: usize) -> bool
    ensures { result ≡ (is_long name.now || list_any (λ input. is_long input.now) inputs.now || nat_lt MOST_FANIN (length inputs.now) || nat_le MOST_GATES gates) }
{
    is_too_long(name) || any_is_too_long(inputs) || inputs.len() > MOST_FANIN || gates >= MOST_GATES
}

/// The fault of a net that is too large, or whose name is taken.
fn net_fault(at: u32, too_large: bool, taken: bool) -> Option<NetFault>
    ensures { result ≡ net_fault at too_large taken }
{
    let cause = if too_large {
        NetCause::TooLarge
    } else if taken {
        NetCause::DuplicateNet
    } else {
        return None;
    };
    Some(NetFault { at, cause })
}

/// Adds a name to the inputs, and where it is found.
fn put_input(
    inputs: &mut Vec<String>,
    sources: &mut HashMap<String, Source>,
    name: &str,
) -> Result<(), AllocError>
    requires { vec_len inputs.old < MOST_INPUTS }
    ensures inputs { OnOk result (map string_bytes inputs.new.items ≡ map string_bytes inputs.old.items ++ name.now ∷ []) }
    ensures sources { OnOk result (FindsOneMore (get_by_text sources.old) name.now (Source.Input (length inputs.old.items)) (get_by_text sources.new)) }
    ensures inputs_stay { OnErr result (inputs.new.items ≡ inputs.old.items) }
    ensures sources_stay { OnErr result (sources.new.entries ≡ sources.old.entries) }
{
    let alloc = *inputs.allocator();
    let kept = String::from_str(alloc, name)?;
    let key = String::from_str(alloc, name)?;
    inputs.reserve(1)?;
    sources.insert(key, Source::Input(inputs.len() as u32))?;
    inputs.push_reserved(kept);
    Ok(())
}

/// The gate with names of its own.
fn own_gate(
    alloc: Global,
    call: u32,
    name: &str,
    word: GateWord,
    inputs: &[&str],
) -> Result<DraftGate, AllocError>
    ensures { IfOk result (λ gate. gate_kept gate ≡ gate_line call name.now word (map (λ input. input.now) inputs.now)) }
{
    Ok(DraftGate {
        call,
        name: String::from_str(alloc, name)?,
        word,
        inputs: own_names(alloc, inputs)?,
    })
}

fn own_names(alloc: Global, names: &[&str]) -> Result<Vec<String>, AllocError>
    ensures { IfOk result (λ own. map string_bytes own.items ≡ map (λ name. name.now) names.now) }
{
    let mut own = Vec::with_capacity(alloc, names.len())?;
    for name in names {
        own.push(String::from_str(alloc, name)?)?;
    }
    Ok(own)
}

/// Adds a gate, and where its name is found.
fn put_gate(
    gates: &mut Vec<DraftGate>,
    sources: &mut HashMap<String, Source>,
    name: &str,
    gate: DraftGate,
) -> Result<(), AllocError>
    requires { vec_len gates.old < MOST_GATES }
    ensures gates { OnOk result (gates.new.items ≡ gates.old.items ++ gate ∷ []) }
    ensures sources { OnOk result (FindsOneMore (get_by_text sources.old) name.now (Source.Gate (length gates.old.items)) (get_by_text sources.new)) }
    ensures gates_stay { OnErr result (gates.new.items ≡ gates.old.items) }
    ensures sources_stay { OnErr result (sources.new.entries ≡ sources.old.entries) }
{
    let key = String::from_str(*gates.allocator(), name)?;
    gates.reserve(1)?;
    sources.insert(key, Source::Gate(gates.len() as u32))?;
    gates.push_reserved(gate);
    Ok(())
}

/// Adds an output, and that its name is one.
fn put_output(
    outputs: &mut Vec<DraftOutput>,
    named: &mut HashSet<String>,
    call: u32,
    name: &str,
) -> Result<(), AllocError>
    ensures outputs { OnOk result (map output_kept outputs.new.items ≡ map output_kept outputs.old.items ++ output_line call name.now ∷ []) }
    ensures named { OnOk result ((q : List ℕ) → contains_text named.new q ≡ (if bytes_eq name.now q then true else contains_text named.old q)) }
    ensures outputs_stay { OnErr result (outputs.new.items ≡ outputs.old.items) }
    ensures named_stay { OnErr result (named.new.keys ≡ named.old.keys) }
{
    let alloc = *outputs.allocator();
    let kept = String::from_str(alloc, name)?;
    let key = String::from_str(alloc, name)?;
    outputs.reserve(1)?;
    named.insert(key)?;
    outputs.push_reserved(DraftOutput { call, name: kept });
    Ok(())
}
