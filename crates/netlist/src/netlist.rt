ghost use Rattle.std.specs.Prelude.{◌≡◌, ℕ, ◌<◌, length, All, IfOk, OnOk, OnErr, Some};
ghost use Rattle.std.specs.HashMap.{get_by_text};
ghost use Rattle.circuits.specs.Circuit.{IsGate, input_count, net_count, gate_of, name_of};
ghost use Rattle.circuits.specs.Cone.{cone, is_in_cone};
ghost use Rattle.circuits.specs.Names.{net_of};
ghost use Rattle.netlist.specs.Inside.Netlist.{IsOrdered};
ghost use Rattle.circuits.specs.Sound.{IsSound};
ghost use Rattle.circuits.specs.Order.{IsAccepted, topological};
ghost use Rattle.circuits.specs.Valuation.{bit_of, valuation};

use crate::cone::{cone_of, reached_from};
use crate::nets::Nets;
use crate::source::Source;
use crate::values::values_of;
use circuits::GateWord;
use std::alloc::AllocError;
use std::collections::HashMap;
use std::marker::Model;
use word_base::Assign;

/// A netlist without cycles.
#[derive(Drop)]
pub struct Netlist {
    nets: Nets,
    order: Vec<u32>,
    sources: HashMap<String, Source>,
}

impl Model for Netlist {
    ghost use Rattle.std.specs.HashMap.{get_by_text};
    ghost use Rattle.circuits.specs.Circuit.{Circuit};
    ghost use Rattle.netlist.specs.Inside.Netlist.{IsOrdered};

    ghost Value = { Circuit };

    ghost view = { λ n. n.nets };

    ghost invariant = { λ n. IsOrdered n.nets n.order.items (get_by_text n.sources) };
}

impl Netlist {
    pub(crate) fn new(nets: Nets, order: Vec<u32>, sources: HashMap<String, Source>) -> Netlist
        requires { IsOrdered nets order.items (get_by_text sources) }
        ensures { result ≡ nets }
    {
        Netlist {
            nets,
            order,
            sources,
        }
    }

    /// How many nets are inputs. They have the first numbers.
    pub fn inputs(&self) -> u32
        ensures inputs { result ≡ input_count self.now }
        ensures sound { IsSound self.now }
        ensures accepted { IsAccepted self.now }
    {
        let _ = &self.order;
        self.nets.inputs()
    }

    /// How many nets are gates. Their numbers come after those of the inputs.
    pub fn gates(&self) -> u32
        ensures gates { result ≡ length self.now.gates }
        ensures sound { IsSound self.now }
        ensures accepted { IsAccepted self.now }
    {
        let _ = &self.order;
        self.nets.gates()
    }

    /// The name that the net was given.
    pub fn name(&self, net: u32) -> &str
        requires { net < net_count self.now }
        ensures { result.now ≡ name_of self.now net }
    {
        self.nets.name(net)
    }

    /// The net of a name, if there is one.
    pub fn find(&self, name: &str) -> Option<u32>
        ensures { result ≡ net_of self.now name.now }
    {
        match self.sources.get(name) {
            Some(source) => Some(source.net(self.nets.inputs())),
            None => None,
        }
    }

    /// The nets that are outputs, in the order in which they were first named.
    pub fn outputs(&self) -> &[u32]
        ensures { result.now ≡ self.now.outputs }
    {
        self.nets.outputs()
    }

    /// What the gate of a net computes, and of which nets.
    pub fn gate(&self, net: u32) -> (GateWord, &[u32])
        requires { IsGate self.now net }
        ensures { gate_of self.now net ≡ Some (record { name = name_of self.now net; word = result.0; inputs = result.1.now }) }
    {
        self.nets.gate(net)
    }

    /// The gates, each after all that it reads.
    pub fn topological(&self) -> &[u32]
        ensures order { result.now ≡ topological self.now }
        ensures accepted { IsAccepted self.now }
    {
        &self.order
    }

    /// The gates among the nets and those that they reach along gate inputs, in topological order.
    pub fn cone(&self, nets: &[u32]) -> Result<Vec<u32>, AllocError>
        requires { All (λ net. net < net_count self.now) nets.now }
        ensures gates { IfOk result (λ gates. gates.items ≡ cone self.now nets.now) }
        ensures accepted { IsAccepted self.now }
    {
        cone_of(*self.order.allocator(), &self.nets, &self.order, nets)
    }

    /// For each net, by number, whether it is among the nets or one of them is computed from it.
    pub fn reached(&self, nets: &[u32]) -> Result<Vec<bool>, AllocError>
        requires { All (λ net. net < net_count self.now) nets.now }
        ensures length { IfOk result (λ marks. length marks.items ≡ net_count self.now) }
        ensures marks { IfOk result (λ marks. (net : ℕ) → net < net_count self.now → bit_of marks.items net ≡ is_in_cone self.now nets.now net) }
    {
        reached_from(*self.order.allocator(), &self.nets, nets)
    }

    /// Makes `nets` the value of each net at the bits of the inputs.
    pub fn evaluate(&self, inputs: &Assign, nets: &mut Vec<bool>) -> Result<(), AllocError>
        requires { length inputs.now ≡ input_count self.now }
        ensures ok { OnOk result (nets.new.items ≡ valuation self.now inputs.now) }
        ensures err { OnErr result (nets.new.items ≡ nets.old.items) }
        ensures accepted { IsAccepted self.now }
    {
        *nets = values_of(*self.order.allocator(), &self.nets, &self.order, inputs)?;
        Ok(())
    }
}
