ghost use Rattle.std.specs.Prelude.{◌≡◌, ◌<◌, length, Some};
ghost use Rattle.circuits.specs.Circuit.{IsGate, input_count, net_count, fanin, gate_of, name_of};
ghost use Rattle.circuits.specs.Sound.{IsSound};

use circuits::GateWord;
use std::marker::Model;

/// A gate by numbers.
#[derive(Drop)]
pub(crate) struct NetGate {
    pub(crate) name: String,
    pub(crate) word: GateWord,
    pub(crate) inputs: Vec<u32>,
}

/// The nets of a netlist, by number. They may have cycles.
#[derive(Drop)]
pub(crate) struct Nets {
    pub(crate) inputs: Vec<String>,
    pub(crate) gates: Vec<NetGate>,
    pub(crate) outputs: Vec<u32>,
}

impl Model for Nets {
    ghost use Rattle.circuits.specs.Circuit.{Circuit};
    ghost use Rattle.netlist.specs.Inside.Kept.{circuit_kept};
    ghost use Rattle.circuits.specs.Sound.{IsSound};

    ghost Value = { Circuit };

    ghost view = { λ n. circuit_kept n.inputs.items n.gates.items n.outputs.items };

    ghost invariant = { λ n. IsSound (circuit_kept n.inputs.items n.gates.items n.outputs.items) };
}

impl Nets {
    pub(crate) fn inputs(&self) -> u32
        ensures inputs { result ≡ input_count self.now }
        ensures sound { IsSound self.now }
    {
        self.inputs.len() as u32
    }

    pub(crate) fn gates(&self) -> u32
        ensures gates { result ≡ length self.now.gates }
        ensures sound { IsSound self.now }
    {
        self.gates.len() as u32
    }

    pub(crate) fn count(&self) -> u32
        ensures count { result ≡ net_count self.now }
        ensures sound { IsSound self.now }
    {
        (self.inputs.len() + self.gates.len()) as u32
    }

    pub(crate) fn outputs(&self) -> &[u32]
        ensures outputs { result.now ≡ self.now.outputs }
    {
        &self.outputs
    }

    pub(crate) fn name(&self, net: u32) -> &str
        requires { net < net_count self.now }
        ensures { result.now ≡ name_of self.now net }
    {
        let net = net as usize;
        let inputs = self.inputs.len();
        if net < inputs {
            &self.inputs[net]
        } else {
            &self.gates[net - inputs].name
        }
    }

    pub(crate) fn gate(&self, net: u32) -> (GateWord, &[u32])
        requires { IsGate self.now net }
        ensures gate { gate_of self.now net ≡ Some (record { name = name_of self.now net; word = result.0; inputs = result.1.now }) }
        ensures sound { IsSound self.now }
    {
        let gate = &self.gates[net as usize - self.inputs.len()];
        (gate.word, &gate.inputs)
    }

    /// The nets that a net is computed from, and none for an input.
    pub(crate) fn fanin(&self, net: u32) -> &[u32]
        ensures { result.now ≡ fanin self.now net }
    {
        let net = net as usize;
        if net < self.inputs.len() {
            return &[];
        }
        match self.gates.get(net - self.inputs.len()) {
            Some(gate) => &gate.inputs,
            None => &[],
        }
    }
}
