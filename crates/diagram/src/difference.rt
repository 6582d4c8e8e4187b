ghost use Rattle.tables.specs.Table.{minus};
ghost use Rattle.tables.specs.Pieces.{sub_work};
ghost use Rattle.kind_laws.specs.Plain.{plain, answered};
ghost use Rattle.diagram.specs.Calls.{IsOfBoth};
ghost use Rattle.diagram.specs.View.{View, IsEdge, Keeps};

use crate::builder::Builder;
use crate::limit::Limit;
use kind_laws::{Edge, Kind};
use record_store::Store;

impl<K: Kind, S: Store> Builder<K, S> {
    /// The difference, entry by entry.
    pub fn sub(&mut self, a: Edge<K>, b: Edge<K>) -> Result<Edge<K>, Limit>
        requires a_good { IsEdge K.NAME self.old (plain K.extra_of a) }
        requires b_good { IsEdge K.NAME self.old (plain K.extra_of b) }
        ensures keeps { Keeps self.old self.new }
        ensures difference { IsOfBoth minus sub_work K.NAME self.old self.new (plain K.extra_of a) (plain K.extra_of b)
            (answered (plain K.extra_of) result) }
    {
        let negative = self.neg(b)?;
        self.add(a, negative)
    }
}
