ghost use Rattle.std.specs.Prelude.{◌≡◌, ◌≤◌, ◌↔◌, length, true, vec_capacity, IsTrue};
ghost use Rattle.tables.specs.Factors.{has_factor};
ghost use Rattle.tables.specs.Table.{multiple, opposite};
ghost use Rattle.tables.specs.Pieces.{scale_work, neg_work};
ghost use Rattle.kind_laws.specs.Plain.{plain, answered};
ghost use Rattle.diagram.specs.Calls.{IsOfEach};
ghost use Rattle.diagram.specs.View.{View, IsEdge, Keeps};

use crate::builder::Builder;
use crate::limit::Limit;
use crate::manager::Manager;
use crate::multiple_walk::{MultipleFrame, multiple_of};
use kind_laws::{Edge, Kind};
use record_store::Store;
use word_base::{KindName, Weight};

impl<K: Kind, S: Store> Builder<K, S> {
    /// The multiple, entry by entry.
    pub fn scale(&mut self, factor: Weight, a: Edge<K>) -> Result<Edge<K>, Limit>
        requires { IsEdge K.NAME self.old (plain K.extra_of a) }
        ensures keeps { Keeps self.old self.new }
        ensures multiple { IsOfEach (multiple factor) (scale_work factor) K.NAME self.old self.new (plain K.extra_of a)
            (answered (plain K.extra_of) result) }
    {
        scaled(&mut self.manager, &mut self.multiples, factor, a)
    }

    /// The negative, entry by entry.
    pub fn neg(&mut self, a: Edge<K>) -> Result<Edge<K>, Limit>
        requires { IsEdge K.NAME self.old (plain K.extra_of a) }
        ensures keeps { Keeps self.old self.new }
        ensures negative { IsOfEach opposite neg_work K.NAME self.old self.new (plain K.extra_of a)
            (answered (plain K.extra_of) result) }
    {
        self.scale(Weight::ONE.neg(), a)
    }
}

/// The multiple: at once for a constant, for the factor 0 and where edges multiply, and else by a walk.
fn scaled<K: Kind, S: Store>(
    manager: &mut Manager<K, S>,
    frames: &mut Vec<MultipleFrame<K>>,
    factor: Weight,
    a: Edge<K>,
) -> Result<Edge<K>, Limit>
    requires good { IsEdge K.NAME manager.old (plain K.extra_of a) }
    requires room { length manager.old.letters ≤ vec_capacity frames.old }
    ensures room { vec_capacity frames.new ≡ vec_capacity frames.old }
    ensures keeps { Keeps manager.old manager.new }
    ensures multiple { IsOfEach (multiple factor) (scale_work factor) K.NAME manager.old manager.new (plain K.extra_of a)
        (answered (plain K.extra_of) result) }
{
    if a.node == 0 {
        return manager.constant_of(factor.mul(K::value(a)));
    }
    if factor == Weight::ZERO {
        return Ok(manager.constant(factor));
    }
    if has_factors::<K>() {
        return Ok(K::put_scale(factor, a)?);
    }
    multiple_of(manager, frames, factor, a)
}

/// Whether the edges of the kind have multiplicative weights.
pub(crate) fn has_factors<K: Kind>() -> bool
    ensures { IsTrue result ↔ (has_factor K.NAME ≡ true) }
{
    matches!(K::NAME, KindName::StarBmd | KindName::KStarBmd)
}
