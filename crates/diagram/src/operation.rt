ghost use Rattle.std.specs.Prelude.{◌≡◌};
ghost use Rattle.kind_laws.specs.Plain.{plain};
ghost use Rattle.diagram.specs.Remembered.{number_of, IsKeyOf};

use kind_laws::{Edge, Kind};
use result_cache::{CacheKey, HashedKey};

/// An operation whose results are remembered. A multiple is a product with a constant.
#[derive(Clone, Copy, Debug, PartialEq, Eq)]
pub(crate) enum Operation {
    Sum,
    Product,
}

impl Operation {
    /// The number of the operation in a key.
    fn number(self) -> u64
        ensures { result ≡ number_of self }
    {
        match self {
            Operation::Sum => 0,
            Operation::Product => 1,
        }
    }

    /// The key of the operation on two edges, the same in either order.
    pub(crate) fn key<K: Kind>(self, a: Edge<K>, b: Edge<K>) -> HashedKey
        ensures { IsKeyOf self K.NAME (plain K.extra_of a) (plain K.extra_of b) result }
    {
        self.ordered(a, b).hashed()
    }

    /// The words of the key: first those of the edge whose node has the lesser id, and at one node the lesser words.
    fn ordered<K: Kind>(self, a: Edge<K>, b: Edge<K>) -> CacheKey
        ensures { IsKeyOf self K.NAME (plain K.extra_of a) (plain K.extra_of b) result }
    {
        let op = self.number();
        let first = K::pack(a);
        let second = K::pack(b);
        if b.node < a.node || (b.node == a.node && second < first) {
            CacheKey {
                op,
                first: second,
                second: first,
            }
        } else {
            CacheKey { op, first, second }
        }
    }
}
