ghost use Rattle.std.specs.Prelude.{◌≡◌, ℕ, ◌<◌, ◌≤◌, ◌+◌, not, ◌&&◌, ◌||◌, length, All, IfOk, OnOk, count_by, filter};
ghost use Rattle.circuits.specs.Circuit.{net_count, gate_nets};
ghost use Rattle.circuits.specs.Cone.{is_in_cone, cone};
ghost use Rattle.circuits.specs.Order.{is_among, topological};
ghost use Rattle.circuits.specs.Valuation.{bit_of};

use crate::nets::Nets;
use std::alloc::{AllocError, Global};

/// The gates among the nets and those that they reach along gate inputs, in the order given.
pub(crate) fn cone_of(
    alloc: Global,
    nets: &Nets,
    order: &[u32],
    from: &[u32],
) -> Result<Vec<u32>, AllocError>
    requires order { order.now ≡ topological nets.now }
    requires from { All (λ net. net < net_count nets.now) from.now }
    ensures { IfOk result (λ gates. gates.items ≡ cone nets.now from.now) }
{
    let marks = reached_from(alloc, nets, from)?;
    let mut gates = Vec::new(alloc);
    for net in order {
        if marks[*net as usize] {
            gates.push(*net)?;
        }
    }
    Ok(gates)
}

/// Marks the nets and all that they reach along gate inputs, also in a netlist with cycles.
pub(crate) fn reached_from(
    alloc: Global,
    nets: &Nets,
    from: &[u32],
) -> Result<Vec<bool>, AllocError>
    requires { All (λ net. net < net_count nets.now) from.now }
    ensures length { IfOk result (λ marks. length marks.items ≡ net_count nets.now) }
    ensures marks { IfOk result (λ marks. (net : ℕ) → net < net_count nets.now → bit_of marks.items net ≡ is_in_cone nets.now from.now net) }
{
    let count = nets.count() as usize;
    let mut marks = vec![in alloc; false; count]?;
    let mut unvisited = Vec::with_capacity(alloc, count)?;
    mark_all(&mut marks, &mut unvisited, from)?;
    while let Some(net) = unvisited.pop() {
        mark_all(&mut marks, &mut unvisited, nets.fanin(net))?;
    }
    Ok(marks)
}

/// Marks the nets. Those that had no mark are put at the end of the unvisited ones.
pub(crate) fn mark_all(
    marks: &mut [bool],
    unvisited: &mut Vec<u32>,
    nets: &[u32],
) -> Result<(), AllocError>
    requires { All (λ net. net < length marks.old) nets.now }
    ensures marks { OnOk result ((net : ℕ) → net < length marks.old → bit_of marks.new net ≡ (bit_of marks.old net || is_among nets.now net)) }
    ensures unvisited { OnOk result ((net : ℕ) → is_among unvisited.new.items net ≡ (is_among unvisited.old.items net || (is_among nets.now net && not (bit_of marks.old net)))) }
    ensures work { OnOk result (length unvisited.new.items + count_by not marks.new ≡ length unvisited.old.items + count_by not marks.old) }
{
    for net in nets {
        let net = *net;
        if !marks[net as usize] {
            unvisited.push(net)?;
            marks[net as usize] = true;
        }
    }
    Ok(())
}
