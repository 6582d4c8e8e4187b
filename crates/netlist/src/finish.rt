ghost use Rattle.std.specs.Prelude.{◌≡◌, ◌<◌, ◌^◌, min, length, map, IfOk, None, string_bytes, vec_len};
ghost use Rattle.std.specs.HashMap.{get_by_text};
ghost use Rattle.std.specs.List.{list_any, reduce};
ghost use Rattle.netlist.specs.Finish.{least, numbered_by, calls_on_cycles};
ghost use Rattle.std.specs.Option.{option_map};
ghost use Rattle.std.specs.Result.{result_err};
ghost use Rattle.circuits.specs.Order.{IsAccepted, topological};
ghost use Rattle.netlist.specs.Fault.{fault};
ghost use Rattle.netlist.specs.Inside.LookUp.{is_unknown, unknown_calls, earliest, number_in, circuit_in, HasSmallNets};
ghost use Rattle.netlist.specs.Inside.Kept.{net_gate_kept};
ghost use Rattle.netlist.specs.Inside.Maker.{gate_kept, output_kept, drafted};
ghost use Rattle.circuits.specs.Sound.{IsSound};
ghost use Rattle.netlist.specs.Inside.Source.{FindsNames};

use crate::cycle::cycle_of;
use crate::draft::{DraftGate, DraftOutput};
use crate::fault::{NetCause, NetFault};
use crate::netlist::Netlist;
use crate::nets::{NetGate, Nets};
use crate::order::order_of;
use crate::source::Source;
use std::alloc::{AllocError, Global};
use std::collections::HashMap;

/// The first call that named a net which was never added.
pub(crate) fn first_unknown(
    gates: &[DraftGate],
    outputs: &[DraftOutput],
    sources: &HashMap<String, Source>,
) -> Option<u32>
    ensures { result ≡ reduce min (unknown_calls (get_by_text sources.now) gates.now outputs.now) }
{
    let gates = gates
        .iter()
        .filter(|gate| reads_unknown(&gate.inputs, sources))
        .map(|gate| gate.call);
    let outputs = outputs
        .iter()
        .filter(|output| !sources.contains_key(output.name.as_str()))
        .map(|output| output.call);
    gates.chain(outputs).min()
}

fn reads_unknown(inputs: &[String], sources: &HashMap<String, Source>) -> bool
    ensures { result ≡ list_any (λ input. is_unknown (get_by_text sources.now) (string_bytes input)) inputs.now }
{
    inputs
        .iter()
        .any(|input| !sources.contains_key(input.as_str()))
}

pub(crate) fn earliest(a: Option<u32>, b: Option<u32>) -> Option<u32>
    ensures { result ≡ earliest a b }
{
    match (a, b) {
        (Some(a), Some(b)) => Some(a.min(b)),
        (Some(a), None) => Some(a),
        (None, b) => b,
    }
}

/// The number of the net of a name, and 0 where there is none.
fn net_number(name: &str, inputs: u32, sources: &HashMap<String, Source>) -> u32
    requires { HasSmallNets inputs (get_by_text sources.now) }
    ensures { result ≡ number_in inputs (get_by_text sources.now) name.now }
{
    match sources.get(name) {
        Some(source) => source.net(inputs),
        None => 0,
    }
}

fn numbers_of(
    alloc: Global,
    names: &[String],
    inputs: u32,
    sources: &HashMap<String, Source>,
) -> Result<Vec<u32>, AllocError>
    requires { HasSmallNets inputs (get_by_text sources.now) }
    ensures { IfOk result (λ numbers. numbers.items ≡ map (number_in inputs (get_by_text sources.now)) (map string_bytes names.now)) }
{
    let mut numbers = Vec::with_capacity(alloc, names.len())?;
    for name in names {
        numbers.push(net_number(name.as_str(), inputs, sources))?;
    }
    Ok(numbers)
}

/// The gates with numbers in place of names.
pub(crate) fn numbered_gates(
    alloc: Global,
    gates: &[DraftGate],
    inputs: u32,
    sources: &HashMap<String, Source>,
) -> Result<Vec<NetGate>, AllocError>
    requires { HasSmallNets inputs (get_by_text sources.now) }
    ensures { IfOk result (λ numbered. map net_gate_kept numbered.items ≡ map (numbered_by (number_in inputs (get_by_text sources.now))) (map gate_kept gates.now)) }
{
    let mut numbered = Vec::with_capacity(alloc, gates.len())?;
    for gate in gates {
        numbered.push(numbered_gate(alloc, gate, inputs, sources)?)?;
    }
    Ok(numbered)
}

fn numbered_gate(
    alloc: Global,
    gate: &DraftGate,
    inputs: u32,
    sources: &HashMap<String, Source>,
) -> Result<NetGate, AllocError>
    requires { HasSmallNets inputs (get_by_text sources.now) }
    ensures { IfOk result (λ numbered. net_gate_kept numbered ≡ numbered_by (number_in inputs (get_by_text sources.now)) (gate_kept gate.now)) }
{
    Ok(NetGate {
        name: String::from_str(alloc, gate.name.as_str())?,
        word: gate.word,
        inputs: numbers_of(alloc, &gate.inputs, inputs, sources)?,
    })
}

/// The numbers of the outputs.
pub(crate) fn numbered_outputs(
    alloc: Global,
    outputs: &[DraftOutput],
    inputs: u32,
    sources: &HashMap<String, Source>,
) -> Result<Vec<u32>, AllocError>
    requires { HasSmallNets inputs (get_by_text sources.now) }
    ensures { IfOk result (λ numbers. numbers.items ≡ map (λ line. number_in inputs (get_by_text sources.now) line.name) (map output_kept outputs.now)) }
{
    let mut numbers = Vec::with_capacity(alloc, outputs.len())?;
    for output in outputs {
        numbers.push(net_number(output.name.as_str(), inputs, sources))?;
    }
    Ok(numbers)
}

/// The nets of a draft in which every name is known.
pub(crate) fn nets_of(
    inputs: Vec<String>,
    gates: &[DraftGate],
    outputs: &[DraftOutput],
    sources: &HashMap<String, Source>,
) -> Result<Nets, AllocError>
    requires few { vec_len inputs < 2 ^ 32 }
    requires small { HasSmallNets (length inputs.items) (get_by_text sources.now) }
    requires sound { IsSound (circuit_in (drafted 0 inputs.items gates.now outputs.now) (get_by_text sources.now)) }
    ensures { IfOk result (λ nets. nets ≡ circuit_in (drafted 0 inputs.items gates.now outputs.now) (get_by_text sources.now)) }
{
    let alloc = *inputs.allocator();
    let count = inputs.len() as u32;
    let gates = numbered_gates(alloc, gates, count, sources)?;
    let outputs = numbered_outputs(alloc, outputs, count, sources)?;
    Ok(Nets {
        inputs,
        gates,
        outputs,
    })
}

/// The order of the nets, and the first call whose gate reaches itself, if there is one.
pub(crate) fn order_and_cycle(
    alloc: Global,
    nets: &Nets,
    gates: &[DraftGate],
) -> Result<(Vec<u32>, Option<u32>), AllocError>
    requires { length gates.now ≡ length nets.now.gates }
    ensures order { IfOk result (λ found. found.0.items ≡ topological nets.now) }
    ensures cycle { IfOk result (λ found. found.1 ≡ least (calls_on_cycles nets.now (map gate_kept gates.now))) }
{
    let order = order_of(alloc, nets)?;
    let on_cycle = cycle_of(alloc, nets, gates, &order)?;
    Ok((order, on_cycle))
}

/// The netlist of the nets and their order, unless a call stands on a cycle.
pub(crate) fn without_cycle(
    nets: Nets,
    order: Vec<u32>,
    sources: HashMap<String, Source>,
    on_cycle: Option<u32>,
) -> Result<Netlist, NetFault>
    requires sound { IsSound nets }
    requires order { order.items ≡ topological nets }
    requires sources { FindsNames nets.inputs (map (λ gate. gate.name) nets.gates) (get_by_text sources) }
    requires accepted { on_cycle ≡ None → IsAccepted nets }
    ensures circuit { IfOk result (λ netlist. netlist ≡ nets) }
    ensures fault { result_err result ≡ option_map (λ at. fault at NetCause.Cycle) on_cycle }
{
    match on_cycle {
        Some(at) => Err(NetFault {
            at,
            cause: NetCause::Cycle,
        }),
        None => Ok(Netlist::new(nets, order, sources)),
    }
}
