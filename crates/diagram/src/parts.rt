ghost use Rattle.std.specs.Prelude.{◌≡◌, ◌↔◌, IsTrue};
ghost use Rattle.kind_laws.specs.Plain.{plain, answered};
ghost use Rattle.diagram.specs.Calls.{IsConstantOf};

use crate::limit::Limit;
use crate::manager::Manager;
use kind_laws::{Edge, Kind};
use record_store::Store;
use word_base::{Overflow, Weight};

/// The low parts of two edges at a level, and the high parts.
#[derive(Clone, Copy)]
pub struct Parts<K: Kind, X = <K as Kind>::Extra> {
    pub low: (Edge<K, X>, Edge<K, X>),
    pub high: (Edge<K, X>, Edge<K, X>),
}

impl<K: Kind, S: Store> Manager<K, S> {
    /// The edge of a constant, where the sum or product that makes it is a weight.
    pub(crate) fn constant_of(&self, value: Result<Weight, Overflow>) -> Result<Edge<K>, Limit>
        ensures { IsConstantOf K.NAME value (answered (plain K.extra_of) result) }
    {
        match value {
            Ok(value) => Ok(self.constant(value)),
            Err(Overflow) => Err(Limit::Overflow),
        }
    }
}

/// Whether both edges are constants'.
pub(crate) fn are_constants<K: Kind>(a: Edge<K>, b: Edge<K>) -> bool
    ensures { IsTrue result ↔ ((a.node ≡ 0) × (b.node ≡ 0)) }
{
    a.node == 0 && b.node == 0
}
