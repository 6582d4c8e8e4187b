ghost use Rattle.std.specs.Prelude.{◌≡◌, ◌≤◌, length, vec_capacity};
ghost use Rattle.kind_laws.specs.Plain.{plain};
ghost use Rattle.diagram.specs.Totals.{IsContent};
ghost use Rattle.diagram.specs.View.{IsEdge};

use crate::manager::Manager;
use crate::node_walk::{NodeFrame, gather_below};
use kind_laws::{Edge, Kind};
use record_store::Store;
use word_base::Weight;

impl<K: Kind, S: Store> Manager<K, S> {
    /// The greatest common divisor of the entries of an edge's table, 0 where all are 0.
    pub(crate) fn content(&mut self, frames: &mut Vec<NodeFrame>, edge: Edge<K>) -> Weight
        requires good { IsEdge K.NAME self.old (plain K.extra_of edge) }
        requires room { length self.old.letters ≤ vec_capacity frames.old }
        ensures room { vec_capacity frames.new ≡ vec_capacity frames.old }
        ensures content { IsContent K.NAME self.old (plain K.extra_of edge) result }
        ensures unchanged { self.new ≡ self.old }
    {
        self.marks.clear();
        let content = K::edge_content(edge);
        gather_below::<K, S>(&mut self.store, &mut self.marks, frames, edge.node, content)
    }
}
