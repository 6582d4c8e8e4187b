ghost use Rattle.std.specs.Prelude.{◌≡◌, ◌==◌, ℕ, ◌+◌, ◌<◌, ◌≤◌, ◌&&◌, ◌||◌, [], length, All, IfOk, OnOk, nat_lt, nat_le, count_by, slice_index};
ghost use Rattle.std.specs.BTreeSet.{contains};
ghost use Rattle.std.specs.Ordering.{nat_cmp};
ghost use Rattle.circuits.specs.Circuit.{net_count};
ghost use Rattle.circuits.specs.declared.limits.TheConstants.{MOST_FANIN};
ghost use Rattle.circuits.specs.Order.{topological};
ghost use Rattle.netlist.specs.Inside.Waiting.{CountsReaders, HasReader, is_gate, open_inputs, count_of, list_at};

use crate::nets::Nets;
use std::alloc::{AllocError, Global};
use std::collections::BTreeSet;

/// The gates in topological order, as far as no cycle is in the way. Of the gates that may come next,
/// the one with the least number does. This is Kahn's algorithm (1962).
pub(crate) fn order_of(alloc: Global, nets: &Nets) -> Result<Vec<u32>, AllocError>
    ensures { IfOk result (λ order. order.items ≡ topological nets.now) }
{
    let readers = readers_of(alloc, nets)?;
    let mut waiting = waiting_of(alloc, nets)?;
    let mut ready = ready_at_first(alloc, nets, &waiting)?;
    let mut order = Vec::with_capacity(alloc, nets.gates() as usize)?;
    while let Some(net) = ready.pop_first() {
        order.push(net)?;
        release(&mut waiting, &mut ready, &readers[net as usize])?;
    }
    Ok(order)
}

/// For each net the gates that read it, once for each of their inputs that does.
pub(crate) fn readers_of(alloc: Global, nets: &Nets) -> Result<Vec<Vec<u32>>, AllocError>
    ensures length { IfOk result (λ readers. length readers.items ≡ net_count nets.now) }
    ensures counts { IfOk result (λ readers. CountsReaders nets.now readers.items) }
{
    let mut readers = empty_lists(alloc, nets.count())?;
    for net in 0..nets.count() {
        note_reader(&mut readers, net, nets.fanin(net))?;
    }
    Ok(readers)
}

fn empty_lists(alloc: Global, count: u32) -> Result<Vec<Vec<u32>>, AllocError>
    ensures length { IfOk result (λ lists. length lists.items ≡ count) }
    ensures empty { IfOk result (λ lists. (net : ℕ) → list_at lists.items net ≡ []) }
{
    let mut lists = Vec::with_capacity(alloc, count as usize)?;
    for _ in 0..count {
        lists.push(Vec::new(alloc))?;
    }
    Ok(lists)
}

/// Puts the reader onto the list of each input.
fn note_reader(readers: &mut [Vec<u32>], reader: u32, inputs: &[u32]) -> Result<(), AllocError>
    requires { All (λ input. input < length readers.old) inputs.now }
    ensures { OnOk result (HasReader readers.old readers.new reader inputs.now) }
{
    for input in inputs {
        readers[*input as usize].push(reader)?;
    }
    Ok(())
}

/// For each net how many of the inputs of its gate are gates.
fn waiting_of(alloc: Global, nets: &Nets) -> Result<Vec<u32>, AllocError>
    ensures length { IfOk result (λ waiting. length waiting.items ≡ net_count nets.now) }
    ensures counts { IfOk result (λ waiting. (net : ℕ) → net < net_count nets.now → slice_index waiting.items net ≡ open_inputs nets.now [] net) }
{
    let mut waiting = Vec::with_capacity(alloc, nets.count() as usize)?;
    for net in 0..nets.count() {
        waiting.push(count_gates(nets.fanin(net), nets.inputs()))?;
    }
    Ok(waiting)
}

fn count_gates(nets: &[u32], inputs: u32) -> u32
    requires { length nets.now ≤ MOST_FANIN }
    ensures { result ≡ count_by (λ net. nat_le inputs net) nets.now }
{
    nets.iter().filter(|net| **net >= inputs).count() as u32
}

/// The gates that read inputs alone.
fn ready_at_first(alloc: Global, nets: &Nets, waiting: &[u32]) -> Result<BTreeSet<u32>, AllocError>
    requires { length waiting.now ≡ net_count nets.now }
    ensures { IfOk result (λ ready. (net : ℕ) → contains nat_cmp ready net ≡ (is_gate nets.now net && slice_index waiting.now net == 0)) }
{
    let mut ready = BTreeSet::new(alloc);
    for net in nets.inputs()..nets.count() {
        if waiting[net as usize] == 0 {
            ready.insert(net)?;
        }
    }
    Ok(ready)
}

/// Takes one from what each reader waits for. Those that wait for nothing more are ready.
fn release(
    waiting: &mut [u32],
    ready: &mut BTreeSet<u32>,
    readers: &[u32],
) -> Result<(), AllocError>
    requires within { All (λ reader. reader < length waiting.old) readers.now }
    requires enough { (net : ℕ) → count_of readers.now net ≤ slice_index waiting.old net }
    ensures waiting { OnOk result ((net : ℕ) → slice_index waiting.new net + count_of readers.now net ≡ slice_index waiting.old net) }
    ensures ready { OnOk result ((net : ℕ) → contains nat_cmp ready.new net ≡ (contains nat_cmp ready.old net || (nat_lt 0 (count_of readers.now net) && slice_index waiting.new net == 0))) }
{
    for reader in readers {
        let reader = *reader;
        let left = waiting[reader as usize] - 1;
        waiting[reader as usize] = left;
        if left == 0 {
            ready.insert(reader)?;
        }
    }
    Ok(())
}
