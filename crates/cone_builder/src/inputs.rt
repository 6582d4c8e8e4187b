ghost use Rattle.std.specs.Prelude.{◌≡◌, ℕ, ◌<◌, ◌≤◌, ◌^◌, true, List, [], ◌∷◌, length, replicate, All, IfOk, OnOk};
ghost use Rattle.cone_builder.specs.Built.{AreBuilt, AreVariables, is_marked};
ghost use Rattle.cone_builder.specs.Causes.{Includes};
ghost use Rattle.diagram.specs.Answers.{Causes};
ghost use Rattle.diagram.specs.View.{View, Keeps};
ghost use Rattle.tables.specs.Pieces.{Piece, pieces};
ghost use Rattle.tables.specs.Table.{Table};
ghost use Rattle.kind_laws.specs.Plain.{plain};
ghost use Rattle.word_apply.specs.Applied.{AreEdges, plain_edges};

use diagram::{Builder, Limit};
use kind_laws::{Edge, Kind};
use record_store::Store;
use std::alloc::{AllocError, Global};

/// The same edge so many times.
pub(crate) fn repeated<K: Kind>(
    alloc: Global,
    edge: Edge<K>,
    count: usize,
) -> Result<Vec<Edge<K>>, AllocError>
    ensures { IfOk result (λ edges. edges.items ≡ replicate count edge) }
{
    let mut edges = Vec::with_capacity(alloc, count)?;
    for _ in 0..count {
        edges.push(edge)?;
    }
    Ok(edges)
}

/// Builds the variables of the marked inputs, which are listed from the top level down.
pub(crate) fn build_inputs<K: Kind, S: Store>(
    builder: &mut Builder<K, S>,
    order: &[u32],
    marks: &[bool],
    edges: &mut [Edge<K>],
) -> Result<(), Limit>
    requires levels { length order.now ≤ length builder.old.letters }
    requires few { length order.now < 2 ^ 16 }
    requires within { All (λ net. net < length edges.old) order.now }
    requires marks { length marks.now ≡ length edges.old }
    requires good { AreEdges K.NAME builder.old (plain_edges K.extra_of edges.old) }
    ensures keeps { Keeps builder.old builder.new }
    ensures good { OnOk result (AreEdges K.NAME builder.new (plain_edges K.extra_of edges.new)) }
    ensures built { OnOk result ((table : ℕ → Table) → AreVariables builder.old order.now table → AreBuilt K.NAME builder.new table (is_marked order.now marks.now) (plain_edges K.extra_of edges.new)) }
    ensures causes { (table : ℕ → Table) (ps : List Piece) → AreVariables builder.old order.now table →
        ((net : ℕ) → is_marked order.now marks.now net ≡ true → Includes ps (pieces 0 (table net ∷ []))) → Causes K.NAME builder.old builder.new ps result }
{
    for (level, net) in order.iter().enumerate() {
        let net = *net as usize;
        if marks[net] {
            edges[net] = builder.var(level as u16)?;
        }
    }
    Ok(())
}
