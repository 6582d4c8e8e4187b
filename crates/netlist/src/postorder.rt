ghost use Rattle.std.specs.Prelude.{◌≡◌, ℕ, ◌<◌, true, [], ◌∷◌, ◌++◌, length, IfOk, OnOk, slice_set, if◌then◌else◌};
ghost use Rattle.circuits.specs.Circuit.{net_count};
ghost use Rattle.circuits.specs.Sound.{IsSound};
ghost use Rattle.circuits.specs.Order.{is_among};
ghost use Rattle.netlist.specs.Inside.Postorder.{IsPostorder, IsWalk};
ghost use Rattle.circuits.specs.Valuation.{bit_of};

use crate::nets::Nets;
use std::alloc::{AllocError, Global};

/// A net that a walk is at, and how many of its inputs the walk has looked at.
#[derive(Clone, Copy)]
pub(crate) struct Visit {
    pub(crate) net: u32,
    pub(crate) next: usize,
}

/// All nets, in the order in which a depth-first walk along gate inputs leaves them: each after what
/// it reads, except for what reaches it in turn.
pub(crate) fn postorder_of(alloc: Global, nets: &Nets) -> Result<Vec<u32>, AllocError>
    ensures in_order { IfOk result (λ order. IsPostorder nets.now order.items) }
    ensures each { IfOk result (λ order. (net : ℕ) → net < net_count nets.now → is_among order.items net ≡ true) }
    ensures within { IfOk result (λ order. (net : ℕ) → is_among order.items net ≡ true → net < net_count nets.now) }
{
    let count = nets.count() as usize;
    let mut seen = vec![in alloc; false; count]?;
    let mut order = Vec::with_capacity(alloc, count)?;
    for net in 0..nets.count() {
        walk_from(alloc, nets, &mut seen, &mut order, net)?;
    }
    Ok(order)
}

/// Walks along gate inputs from a net, and puts each net that is left at the end of the order.
fn walk_from(
    alloc: Global,
    nets: &Nets,
    seen: &mut [bool],
    order: &mut Vec<u32>,
    net: u32,
) -> Result<(), AllocError>
    requires sound { IsSound nets.now }
    requires net { net < net_count nets.now }
    requires walk { IsWalk nets.now seen.old order.old.items [] }
    ensures walk { OnOk result (IsWalk nets.now seen.new order.new.items []) }
    ensures seen { OnOk result (bit_of seen.new net ≡ true) }
    ensures kept { OnOk result ((other : ℕ) → bit_of seen.old other ≡ true → bit_of seen.new other ≡ true) }
{
    let mut visits = Vec::new(alloc);
    enter(seen, &mut visits, net)?;
    while let Some(visit) = visits.pop() {
        let inputs = nets.fanin(visit.net);
        if visit.next < inputs.len() {
            visits.push(Visit {
                net: visit.net,
                next: visit.next + 1,
            })?;
            enter(seen, &mut visits, inputs[visit.next])?;
        } else {
            order.push(visit.net)?;
        }
    }
    Ok(())
}

/// Comes to a net, unless it was seen before.
fn enter(seen: &mut [bool], visits: &mut Vec<Visit>, net: u32) -> Result<(), AllocError>
    requires { net < length seen.old }
    ensures seen { OnOk result (seen.new ≡ slice_set seen.old net true) }
    ensures visits { OnOk result (visits.new.items ≡ (if bit_of seen.old net then visits.old.items else visits.old.items ++ record { net = net; next = 0 } ∷ [])) }
{
    if !seen[net as usize] {
        visits.push(Visit { net, next: 0 })?;
    }
    seen[net as usize] = true;
    Ok(())
}
