ghost use Rattle.std.specs.Prelude.{◌≡◌, ℕ, ◌<◌, not, length, map, IfOk};
ghost use Rattle.circuits.specs.Circuit.{net_count};
ghost use Rattle.circuits.specs.Cone.{reaches_itself};
ghost use Rattle.netlist.specs.Finish.{least, calls_on_cycles};
ghost use Rattle.netlist.specs.Inside.Maker.{gate_kept};
ghost use Rattle.circuits.specs.Order.{topological};
ghost use Rattle.circuits.specs.Valuation.{bit_of};

use crate::components::off_cycles;
use crate::draft::DraftGate;
use crate::finish::earliest;
use crate::nets::Nets;
use std::alloc::{AllocError, Global};

/// The first call whose gate reaches itself, if the order does not have all gates.
pub(crate) fn cycle_of(
    alloc: Global,
    nets: &Nets,
    gates: &[DraftGate],
    order: &[u32],
) -> Result<Option<u32>, AllocError>
    requires lines { length gates.now ≡ length nets.now.gates }
    requires order { order.now ≡ topological nets.now }
    ensures { IfOk result (λ first. first ≡ least (calls_on_cycles nets.now (map gate_kept gates.now))) }
{
    if order.len() == nets.gates() as usize {
        return Ok(None);
    }
    first_cycle(alloc, nets, gates)
}

/// The first call whose gate reaches itself, found in time that grows with the number of gate inputs.
fn first_cycle(alloc: Global, nets: &Nets, gates: &[DraftGate]) -> Result<Option<u32>, AllocError>
    requires { length gates.now ≡ length nets.now.gates }
    ensures { IfOk result (λ first. first ≡ least (calls_on_cycles nets.now (map gate_kept gates.now))) }
{
    let alone = off_cycles(alloc, nets)?;
    Ok(first_on_cycle(nets, gates, &alone))
}

/// The first call whose gate is not marked as off cycles.
fn first_on_cycle(nets: &Nets, gates: &[DraftGate], alone: &[bool]) -> Option<u32>
    requires lines { length gates.now ≡ length nets.now.gates }
    requires length { length alone.now ≡ net_count nets.now }
    requires marks { (net : ℕ) → net < net_count nets.now → bit_of alone.now net ≡ not (reaches_itself nets.now net) }
    ensures { result ≡ least (calls_on_cycles nets.now (map gate_kept gates.now)) }
{
    let inputs = nets.inputs() as usize;
    let mut first = None;
    for (place, gate) in gates.iter().enumerate() {
        if !alone[inputs + place] {
            first = earliest(first, Some(gate.call));
        }
    }
    first
}
