ghost use Rattle.std.specs.Prelude.{◌≡◌, ℕ, ◌<◌, Bool, List, [], ◌∷◌, length, map, All, Contains, OnOk, slice_index_or};
ghost use Rattle.cone_builder.specs.Built.{AreBuilt, AreGates, ComeAfter, ReadsBuilt, or_listed};
ghost use Rattle.checks.specs.Forward.{net_work};
ghost use Rattle.cone_builder.specs.Causes.{limit_met, Includes};
ghost use Rattle.diagram.specs.Answers.{Causes};
ghost use Rattle.diagram.specs.View.{View, Keeps};
ghost use Rattle.circuits.specs.Circuit.{IsGate, net_count};
ghost use Rattle.circuits.specs.Sound.{IsSound};
ghost use Rattle.tables.specs.Pieces.{Piece};
ghost use Rattle.tables.specs.Table.{Table};
ghost use Rattle.kind_laws.specs.Plain.{PlainEdge};
ghost use Rattle.word_apply.specs.Applied.{AreEdges, plain_edges};

use crate::build_error::BuildError;
use diagram::Builder;
use kind_laws::{Edge, Kind};
use netlist::Netlist;
use record_store::Store;
use std::alloc::AllocError;
use word_apply::gate;

/// Makes `into` the edges of the nets.
pub(crate) fn gather<K: Kind>(
    edges: &[Edge<K>],
    nets: &[u32],
    into: &mut Vec<Edge<K>>,
) -> Result<(), AllocError>
    requires { All (λ net. net < length edges.now) nets.now }
    ensures { OnOk result ((d : PlainEdge) → plain_edges K.extra_of into.new.items ≡ map (λ net. slice_index_or (plain_edges K.extra_of edges.now) net d) nets.now) }
{
    into.clear();
    for net in nets {
        into.push(edges[*net as usize])?;
    }
    Ok(())
}

/// Builds the gate of a net, whose inputs are built.
fn build_gate<K: Kind, S: Store>(
    builder: &mut Builder<K, S>,
    netlist: &Netlist,
    net: u32,
    edges: &mut [Edge<K>],
    inputs: &mut Vec<Edge<K>>,
) -> Result<(), BuildError>
    requires sound { IsSound netlist.now }
    requires gate { IsGate netlist.now net }
    requires many { length edges.old ≡ net_count netlist.now }
    requires good { AreEdges K.NAME builder.old (plain_edges K.extra_of edges.old) }
    ensures keeps { Keeps builder.old builder.new }
    ensures good { OnOk result (AreEdges K.NAME builder.new (plain_edges K.extra_of edges.new)) }
    ensures built { OnOk result ((table : ℕ → Table) (built : ℕ → Bool) → AreGates netlist.now table → AreBuilt K.NAME builder.old table built (plain_edges K.extra_of edges.old) →
        ReadsBuilt netlist.now built net → AreBuilt K.NAME builder.new table (or_listed built (net ∷ [])) (plain_edges K.extra_of edges.new)) }
    ensures causes { (table : ℕ → Table) (built : ℕ → Bool) (ps : List Piece) → AreBuilt K.NAME builder.old table built (plain_edges K.extra_of edges.old) → ReadsBuilt netlist.now built net →
        Includes ps (net_work netlist.now builder.old.letters table net) → Causes K.NAME builder.old builder.new ps (limit_met result) }
{
    let (word, reads) = netlist.gate(net);
    gather(edges, reads, inputs)?;
    edges[net as usize] = gate(builder, word, inputs.as_slice())?;
    Ok(())
}

/// Builds the gates, each of which comes after all that it reads.
pub(crate) fn build_gates<K: Kind, S: Store>(
    builder: &mut Builder<K, S>,
    netlist: &Netlist,
    gates: &[u32],
    edges: &mut [Edge<K>],
    inputs: &mut Vec<Edge<K>>,
) -> Result<(), BuildError>
    requires sound { IsSound netlist.now }
    requires gates { All (IsGate netlist.now) gates.now }
    requires many { length edges.old ≡ net_count netlist.now }
    requires good { AreEdges K.NAME builder.old (plain_edges K.extra_of edges.old) }
    ensures keeps { Keeps builder.old builder.new }
    ensures good { OnOk result (AreEdges K.NAME builder.new (plain_edges K.extra_of edges.new)) }
    ensures built { OnOk result ((table : ℕ → Table) (built : ℕ → Bool) → AreGates netlist.now table → AreBuilt K.NAME builder.old table built (plain_edges K.extra_of edges.old) →
        ComeAfter netlist.now built gates.now → AreBuilt K.NAME builder.new table (or_listed built gates.now) (plain_edges K.extra_of edges.new)) }
    ensures causes { (table : ℕ → Table) (built : ℕ → Bool) (ps : List Piece) → AreGates netlist.now table → AreBuilt K.NAME builder.old table built (plain_edges K.extra_of edges.old) →
        ComeAfter netlist.now built gates.now → ((net : ℕ) → Contains gates.now net → Includes ps (net_work netlist.now builder.old.letters table net)) →
        Causes K.NAME builder.old builder.new ps (limit_met result) }
{
    for net in gates {
        build_gate(builder, netlist, *net, edges, inputs)?;
    }
    Ok(())
}
