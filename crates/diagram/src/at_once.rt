ghost use Rattle.std.specs.Prelude.{◌≡◌, ◌↔◌, IfSome, IsTrue, MatchOption};
ghost use Rattle.kind_laws.specs.Plain.{plain, constant_edge};
ghost use Rattle.diagram.specs.Products.{AreSome};
ghost use Rattle.diagram.specs.Remembered.{IsResult};
ghost use Rattle.diagram.specs.View.{IsEdge};
ghost use Rattle.diagram.specs.declared.operation.Operation.TheVariants as operation;

use crate::manager::Manager;
use kind_laws::{Edge, Kind};
use record_store::Store;
use word_base::Weight;

impl<K: Kind, S: Store> Manager<K, S> {
    /// The sum, where an operand is 0.
    pub(crate) fn sum_at_once(&self, a: Edge<K>, b: Edge<K>) -> Option<Edge<K>>
        requires a_good { IsEdge K.NAME self.now (plain K.extra_of a) }
        requires b_good { IsEdge K.NAME self.now (plain K.extra_of b) }
        ensures { MatchOption result (AreSome K.NAME (plain K.extra_of a) (plain K.extra_of b))
            (λ r. IsResult operation.Sum K.NAME self.now (plain K.extra_of a) (plain K.extra_of b) (plain K.extra_of r)) }
    {
        if self.is_constant(a, Weight::ZERO) {
            return Some(b);
        }
        if self.is_constant(b, Weight::ZERO) {
            return Some(a);
        }
        None
    }

    /// The product, where an operand is 1.
    pub(crate) fn product_at_once(&self, a: Edge<K>, b: Edge<K>) -> Option<Edge<K>>
        requires a_good { IsEdge K.NAME self.now (plain K.extra_of a) }
        requires b_good { IsEdge K.NAME self.now (plain K.extra_of b) }
        ensures { IfSome result (λ r. IsResult operation.Product K.NAME self.now (plain K.extra_of a) (plain K.extra_of b) (plain K.extra_of r)) }
    {
        if self.is_constant(a, Weight::ONE) {
            return Some(b);
        }
        if self.is_constant(b, Weight::ONE) {
            return Some(a);
        }
        None
    }

    /// Whether an edge is that of a constant.
    pub(crate) fn is_constant(&self, edge: Edge<K>, value: Weight) -> bool
        requires { IsEdge K.NAME self.now (plain K.extra_of edge) }
        ensures { IsTrue result ↔ (plain K.extra_of edge ≡ constant_edge K.NAME value) }
    {
        edge.node == 0 && K::value(edge) == value
    }
}
