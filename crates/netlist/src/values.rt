ghost use Rattle.std.specs.Prelude.{◌≡◌, ℕ, ◌<◌, ◌≤◌, length, map, All, IfOk, Some};
ghost use Rattle.std.specs.List.{list_all, list_any};
ghost use Rattle.circuits.specs.Circuit.{Gate, gate_of, input_count, net_count};
ghost use Rattle.circuits.specs.Limits.{AcceptsArity};
ghost use Rattle.circuits.specs.Order.{IsAccepted, topological};
ghost use Rattle.circuits.specs.Truth.{truth, an_odd_number_is_1};
ghost use Rattle.circuits.specs.Valuation.{bit_of, gate_value, valuation};

use crate::nets::Nets;
use circuits::GateWord;
use std::alloc::{AllocError, Global};
use word_base::Assign;

/// The value of each net at the bits of the inputs.
pub(crate) fn values_of(
    alloc: Global,
    nets: &Nets,
    order: &[u32],
    bits: &Assign,
) -> Result<Vec<bool>, AllocError>
    requires accepted { IsAccepted nets.now }
    requires order { order.now ≡ topological nets.now }
    requires bits { length bits.now ≡ input_count nets.now }
    ensures { IfOk result (λ values. values.items ≡ valuation nets.now bits.now) }
{
    let mut values = bits_and_zeros(alloc, bits, nets.count())?;
    settle(nets, order, &mut values);
    Ok(values)
}

/// The bits, and then zeros.
fn bits_and_zeros(alloc: Global, bits: &Assign, count: u32) -> Result<Vec<bool>, AllocError>
    requires { length bits.now ≤ count }
    ensures length { IfOk result (λ values. length values.items ≡ count) }
    ensures bits { IfOk result (λ values. (net : ℕ) → net < length bits.now → bit_of values.items net ≡ bit_of bits.now net) }
{
    let mut values = vec![in alloc; false; count as usize]?;
    for place in 0..bits.len() {
        values[place as usize] = bits.get(place);
    }
    Ok(values)
}

/// Computes each gate after all that it reads.
fn settle(nets: &Nets, order: &[u32], values: &mut [bool])
    requires accepted { IsAccepted nets.now }
    requires order { order.now ≡ topological nets.now }
    requires length { length values.old ≡ net_count nets.now }
    ensures length { length values.new ≡ net_count nets.now }
    ensures inputs { (net : ℕ) → net < input_count nets.now → bit_of values.new net ≡ bit_of values.old net }
    ensures gates { (net : ℕ) (gate : Gate) → gate_of nets.now net ≡ Some gate → bit_of values.new net ≡ gate_value gate values.new }
{
    for net in order {
        let (word, inputs) = nets.gate(*net);
        values[*net as usize] = gate_value(word, inputs, values);
    }
}

#[tactic(auto, using(crate::proofs::Vecs::all_mapped, crate::proofs::Vecs::any_mapped))]
fn gate_value(word: GateWord, inputs: &[u32], values: &[bool]) -> bool
    requires within { All (λ input. input < length values.now) inputs.now }
    requires arity { AcceptsArity word (length inputs.now) }
    ensures { result ≡ truth word (map (bit_of values.now) inputs.now) }
{
    match word {
        GateWord::And => all_are_1(inputs, values),
        GateWord::Nand => !all_are_1(inputs, values),
        GateWord::Or => some_is_1(inputs, values),
        GateWord::Nor => !some_is_1(inputs, values),
        GateWord::Xor => an_odd_number_is_1(inputs, values),
        GateWord::Xnor => !an_odd_number_is_1(inputs, values),
        GateWord::Not => !values[inputs[0] as usize],
        GateWord::Buff => values[inputs[0] as usize],
    }
}

fn all_are_1(nets: &[u32], values: &[bool]) -> bool
    requires { All (λ net. net < length values.now) nets.now }
    ensures { result ≡ list_all (bit_of values.now) nets.now }
{
    nets.iter().all(|net| values[*net as usize])
}

fn some_is_1(nets: &[u32], values: &[bool]) -> bool
    requires { All (λ net. net < length values.now) nets.now }
    ensures { result ≡ list_any (bit_of values.now) nets.now }
{
    nets.iter().any(|net| values[*net as usize])
}

fn an_odd_number_is_1(nets: &[u32], values: &[bool]) -> bool
    requires { All (λ net. net < length values.now) nets.now }
    ensures { result ≡ an_odd_number_is_1 (map (bit_of values.now) nets.now) }
{
    nets.iter().filter(|net| values[**net as usize]).count() % 2 == 1
}
