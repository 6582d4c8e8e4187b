ghost use Rattle.std.specs.Prelude.{◌≡◌, ℕ, ◌<◌, ◌⊎◌, ◌↔◌, true, false, not, length, IfOk, OnOk};
ghost use Rattle.circuits.specs.Circuit.{net_count};
ghost use Rattle.circuits.specs.Cone.{reaches_itself};
ghost use Rattle.netlist.specs.Inside.Leads.{Leads, IsClosed};
ghost use Rattle.circuits.specs.Order.{is_among};
ghost use Rattle.netlist.specs.Inside.Postorder.{IsPostorder};
ghost use Rattle.circuits.specs.Valuation.{bit_of};
ghost use Rattle.netlist.specs.Inside.Waiting.{CountsReaders, list_at};

use crate::cone::mark_all;
use crate::nets::Nets;
use crate::order::readers_of;
use crate::postorder::postorder_of;
use std::alloc::{AllocError, Global};

/// Marks the nets that do not reach themselves, in time that grows with the number of gate inputs.
/// This is Kosaraju's algorithm for strongly connected components (Sharir 1981): a depth-first walk
/// along gate inputs gives an order of the nets. Then each net, from the last of the order to the
/// first, is walked from to its readers, as far as they are not settled, which finds one component.
pub(crate) fn off_cycles(alloc: Global, nets: &Nets) -> Result<Vec<bool>, AllocError>
    ensures length { IfOk result (λ alone. length alone.items ≡ net_count nets.now) }
    ensures marks { IfOk result (λ alone. (net : ℕ) → net < net_count nets.now → bit_of alone.items net ≡ not (reaches_itself nets.now net)) }
{
    let order = postorder_of(alloc, nets)?;
    let readers = readers_of(alloc, nets)?;
    settle_all(alloc, nets, &readers, order)
}

/// Settles all nets, from the last of the order to the first.
fn settle_all(
    alloc: Global,
    nets: &Nets,
    readers: &[Vec<u32>],
    mut order: Vec<u32>,
) -> Result<Vec<bool>, AllocError>
    requires in_order { IsPostorder nets.now order.items }
    requires each { (net : ℕ) → net < net_count nets.now → is_among order.items net ≡ true }
    requires within { (net : ℕ) → is_among order.items net ≡ true → net < net_count nets.now }
    requires long { length readers.now ≡ net_count nets.now }
    requires counts { CountsReaders nets.now readers.now }
    ensures length { IfOk result (λ alone. length alone.items ≡ net_count nets.now) }
    ensures marks { IfOk result (λ alone. (net : ℕ) → net < net_count nets.now → bit_of alone.items net ≡ not (reaches_itself nets.now net)) }
{
    let count = nets.count() as usize;
    let mut settled = vec![in alloc; false; count]?;
    let mut alone = vec![in alloc; false; count]?;
    while let Some(net) = order.pop() {
        settle(alloc, readers, &mut settled, &mut alone, net)?;
    }
    Ok(alone)
}

/// Settles a net and all that its list leads to. The net is alone if its list does not lead back to it.
fn settle(
    alloc: Global,
    lists: &[Vec<u32>],
    settled: &mut [bool],
    alone: &mut [bool],
    net: u32,
) -> Result<(), AllocError>
    requires net { net < length lists.now }
    requires long { length lists.now ≡ length settled.old }
    requires same { length alone.old ≡ length settled.old }
    requires closed { IsClosed (list_at lists.now) settled.old }
    ensures settled { OnOk result ((other : ℕ) → other < length settled.old → (bit_of settled.new other ≡ true) ↔ ((bit_of settled.old other ≡ true) ⊎ ((other ≡ net) ⊎ Leads (list_at lists.now) net other))) }
    ensures alone { OnOk result ((other : ℕ) → other < length settled.old → (bit_of alone.new other ≡ true) ↔ ((bit_of alone.old other ≡ true) ⊎ ((other ≡ net) × (bit_of settled.old net ≡ false) × ¬ Leads (list_at lists.now) net net))) }
{
    mark_from(alloc, lists, settled, net)?;
    if !settled[net as usize] {
        settled[net as usize] = true;
        alone[net as usize] = true;
    }
    Ok(())
}

/// Marks all that the list of a net leads to. What is marked before is passed over.
fn mark_from(
    alloc: Global,
    lists: &[Vec<u32>],
    marks: &mut [bool],
    net: u32,
) -> Result<(), AllocError>
    requires net { net < length lists.now }
    requires long { length lists.now ≡ length marks.old }
    requires closed { IsClosed (list_at lists.now) marks.old }
    ensures { OnOk result ((other : ℕ) → other < length marks.old → (bit_of marks.new other ≡ true) ↔ ((bit_of marks.old other ≡ true) ⊎ Leads (list_at lists.now) net other)) }
{
    let mut unvisited = Vec::new(alloc);
    mark_all(marks, &mut unvisited, &lists[net as usize])?;
    while let Some(other) = unvisited.pop() {
        mark_all(marks, &mut unvisited, &lists[other as usize])?;
    }
    Ok(())
}
