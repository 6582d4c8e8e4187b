ghost use Rattle.std.specs.Prelude.{◌≡◌, ◌<◌, ◌≤◌, List, length, IfOk, IfSome, Some, slice_get};
ghost use Rattle.checks.specs.Forward.{building_work, cone_work, input_work};
ghost use Rattle.circuits.specs.Circuit.{input_count, net_count};
ghost use Rattle.circuits.specs.Sound.{IsSound};
ghost use Rattle.cone_builder.specs.Built.{NetsAreBuilt};
ghost use Rattle.cone_builder.specs.Causes.{Includes, limit_met};
ghost use Rattle.cone_builder.specs.Plans.{BuildsPlan, IsPlan, plain_plan};
ghost use Rattle.cone_builder.specs.Sides.{AreSides};
ghost use Rattle.diagram.specs.Answers.{Causes};
ghost use Rattle.diagram.specs.View.{View, Keeps};
ghost use Rattle.kind_laws.specs.Plain.{plain};
ghost use Rattle.spec_lang.specs.Specification.{Check};
ghost use Rattle.spec_lang.specs.WellFormed.{IsOver};
ghost use Rattle.tables.specs.Pieces.{Piece};
ghost use Rattle.word_apply.specs.Applied.{AreEdges, plain_edges};

use crate::build_error::BuildError;
use crate::gates::build_gates;
use crate::inputs::{build_inputs, repeated};
use crate::plan::Plan;
use crate::words::build_words;
use diagram::Builder;
use kind_laws::{Edge, Kind};
use netlist::Netlist;
use record_store::Store;
use spec_lang::Spec;
use std::alloc::Global;
use word_apply::expression;
use word_base::Weight;

/// Builds the inputs that are needed, and the gates in their order.
fn build_into<K: Kind, S: Store>(
    alloc: Global,
    builder: &mut Builder<K, S>,
    netlist: &Netlist,
    plan: Plan<'_>,
    edges: &mut [Edge<K>],
) -> Result<(), BuildError>
    requires sound { IsSound netlist.now }
    requires plan { IsPlan netlist.now (plain_plan plan) }
    requires levels { input_count netlist.now ≤ length builder.old.letters }
    requires many { length edges.old ≡ net_count netlist.now }
    requires good { AreEdges K.NAME builder.old (plain_edges K.extra_of edges.old) }
    ensures keeps { Keeps builder.old builder.new }
    ensures builds { BuildsPlan K.NAME netlist.now builder.old builder.new (plain_plan plan.entry) (plain_edges K.extra_of edges.new) result }
{
    build_inputs(builder, plan.order, plan.marks, edges)?;
    let mut inputs = Vec::new(alloc);
    build_gates(builder, netlist, plan.gates, edges, &mut inputs)
}

/// The edge of each net that the check needs, by its number.
fn build_nets<K: Kind, S: Store>(
    alloc: Global,
    builder: &mut Builder<K, S>,
    netlist: &Netlist,
    spec: &Spec,
    check: u32,
) -> Result<Vec<Edge<K>>, BuildError>
    requires over { IsOver netlist.now spec.now }
    requires levels { builder.old.letters ≡ spec.now.letters }
    requires check { check < length spec.now.checks }
    ensures keeps { Keeps builder.old builder.new }
    ensures built { IfOk result (λ edges. NetsAreBuilt K.NAME netlist.now spec.now check builder.new (plain_edges K.extra_of edges.items)) }
    ensures causes { (sides : Check) (ps : List Piece) → slice_get spec.now.checks check ≡ Some sides → Includes ps (input_work netlist.now spec.now sides) →
        Includes ps (cone_work netlist.now spec.now sides) → Causes K.NAME builder.old builder.new ps (limit_met result) }
{
    let count = netlist.inputs() as usize + netlist.gates() as usize;
    let named = spec.named(check)?;
    let marks = netlist.reached(&named)?;
    let gates = netlist.cone(&named)?;
    let mut edges = repeated(alloc, builder.constant(Weight::ZERO), count)?;
    let plan = Plan {
        order: spec.order(),
        marks: &marks,
        gates: &gates,
    };
    build_into(alloc, builder, netlist, plan, edges.as_mut_slice())?;
    Ok(edges)
}

/// The edges of the left and the right side of a check, whose tables are over the inputs in the order of the
/// specification.
pub fn build_one<K: Kind, S: Store>(
    alloc: Global,
    builder: &mut Builder<K, S>,
    netlist: &Netlist,
    spec: &Spec,
    check: u32,
) -> Result<(Edge<K>, Edge<K>), BuildError>
    requires over { IsOver netlist.now spec.now }
    requires levels { builder.old.letters ≡ spec.now.letters }
    requires check { check < length spec.now.checks }
    ensures keeps { Keeps builder.old builder.new }
    ensures sides { IfOk result (λ sides. AreSides K.NAME netlist.now spec.now check builder.new (plain K.extra_of sides.0) (plain K.extra_of sides.1)) }
    ensures causes { IfSome (slice_get spec.now.checks check) (λ sides. Causes K.NAME builder.old builder.new (building_work netlist.now spec.now sides) (limit_met result)) }
{
    let nets = build_nets(alloc, builder, netlist, spec, check)?;
    let numbers = spec.words_named(check)?;
    let mut words = repeated(alloc, builder.constant(Weight::ZERO), spec.words() as usize)?;
    let mut bits = Vec::new(alloc);
    build_words(
        builder,
        spec,
        &numbers,
        &nets,
        words.as_mut_slice(),
        &mut bits,
    )?;
    let (left, right) = spec.check(check);
    let left = expression(builder, left, &words)?;
    let right = expression(builder, right, &words)?;
    Ok((left, right))
}
