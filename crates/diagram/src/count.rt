ghost use Rattle.std.specs.Prelude.{◌≡◌, ◌≤◌, length, vec_capacity};
ghost use Rattle.kind_laws.specs.Plain.{plain};
ghost use Rattle.diagram.specs.Totals.{IsCount};
ghost use Rattle.diagram.specs.View.{IsEdge};

use crate::manager::Manager;
use crate::node_walk::{NodeFrame, gather_below};
use kind_laws::{Edge, Kind};
use record_store::Store;
use word_base::Weight;

impl<K: Kind, S: Store> Manager<K, S> {
    /// The number of different nodes below an edge, the leaf not counted. The walk gathers no content but 1, and so reads none.
    pub(crate) fn count(&mut self, frames: &mut Vec<NodeFrame>, edge: Edge<K>) -> u32
        requires good { IsEdge K.NAME self.old (plain K.extra_of edge) }
        requires room { length self.old.letters ≤ vec_capacity frames.old }
        ensures room { vec_capacity frames.new ≡ vec_capacity frames.old }
        ensures count { IsCount K.NAME self.old (plain K.extra_of edge) result }
        ensures unchanged { self.new ≡ self.old }
    {
        self.marks.clear();
        gather_below::<K, S>(
            &mut self.store,
            &mut self.marks,
            frames,
            edge.node,
            Weight::ONE,
        );
        self.marks.len()
    }
}
