ghost use Rattle.std.specs.Prelude.{◌≡◌, ◌≢◌, true};
ghost use Rattle.word_base.specs.Kind.{is_allowed};
ghost use Rattle.kind_laws.specs.Kind.{IsNodeBody};
ghost use Rattle.kind_laws.specs.Plain.{plain, answered};
ghost use Rattle.diagram.specs.Calls.{plain_split, skipped_high, LeadsTo, ArePartsBy, SplitsOne, Splits};
ghost use Rattle.diagram.specs.View.{View, IsEdge};

use crate::manager::Manager;
use crate::parts::Parts;
use kind_laws::{Edge, Kind, level_of};
use record_store::Store;
use word_base::{Decomp, Overflow, Weight};

/// The level of the upper node of two edges, and their parts there.
#[derive(Clone, Copy)]
pub(crate) struct Split<K: Kind, X = <K as Kind>::Extra> {
    pub(crate) level: u16,
    pub(crate) parts: Parts<K, X>,
}

/// A node that was read. The leaf's level is the number of levels, and its body is never looked at.
#[derive(Clone, Copy)]
pub(crate) struct Node {
    level: u16,
    body: [u64; 8],
}

impl<K: Kind, S: Store> Manager<K, S> {
    /// The parts of two edges at the level of the upper node. Each body is read once.
    pub(crate) fn split(&mut self, a: Edge<K>, b: Edge<K>) -> Result<Split<K>, Overflow>
        requires a_good { IsEdge K.NAME self.old (plain K.extra_of a) }
        requires b_good { IsEdge K.NAME self.old (plain K.extra_of b) }
        requires some_node { (a.node ≡ 0) × (b.node ≡ 0) → ⊥ }
        ensures splits { Splits K.NAME self.old (plain K.extra_of a) (plain K.extra_of b)
            (answered (plain_split K.extra_of) result) }
        ensures unchanged { self.new ≡ self.old }
    {
        let first = self.node_of(a);
        let second = self.node_of(b);
        let level = first.level.min(second.level);
        let letter = self.letter(level);
        let (first_low, first_high) = parts_by(a, &first, level, letter)?;
        let (second_low, second_high) = parts_by(b, &second, level, letter)?;
        let low = (first_low, second_low);
        let high = (first_high, second_high);
        Ok(Split {
            level,
            parts: Parts { low, high },
        })
    }

    /// The level of an edge's node, and the low and the high part there. The body is read once.
    pub(crate) fn split_one(&mut self, edge: Edge<K>) -> Result<(u16, Edge<K>, Edge<K>), Overflow>
        requires good { IsEdge K.NAME self.old (plain K.extra_of edge) }
        requires no_leaf { edge.node ≢ 0 }
        ensures splits { SplitsOne K.NAME self.old (plain K.extra_of edge)
            (answered (λ s. (s.0, plain K.extra_of s.1, plain K.extra_of s.2)) result) }
        ensures unchanged { self.new ≡ self.old }
    {
        let body = self.body_of(edge);
        let level = level_of(&body);
        let letter = self.letter(level);
        let (low, high) = K::parts(edge, &body, letter)?;
        Ok((level, low, high))
    }

    /// The node that an edge leads to.
    pub(crate) fn node_of(&mut self, edge: Edge<K>) -> Node
        requires { IsEdge K.NAME self.old (plain K.extra_of edge) }
        ensures node { LeadsTo K.NAME self.old (plain K.extra_of edge) result.level result.body }
        ensures unchanged { self.new ≡ self.old }
    {
        if edge.node == 0 {
            return Node {
                level: self.levels(),
                body: [0; 8],
            };
        }
        let body = self.body_of(edge);
        Node {
            level: level_of(&body),
            body,
        }
    }
}

/// The low and the high part of an edge at a level with the letter, by the node that it leads to.
pub(crate) fn parts_by<K: Kind>(
    edge: Edge<K>,
    node: &Node,
    level: u16,
    letter: Decomp,
) -> Result<(Edge<K>, Edge<K>), Overflow>
    requires allowed { is_allowed K.NAME letter ≡ true }
    requires body { node.now.level ≡ level → IsNodeBody K.NAME node.now.body }
    ensures { ArePartsBy K.NAME letter level (plain K.extra_of edge) node.now.level node.now.body
        (answered (λ p. (plain K.extra_of p.0, plain K.extra_of p.1)) result) }
{
    if node.level == level {
        K::parts(edge, &node.body, letter)
    } else {
        Ok(skipped_parts(edge, letter))
    }
}

/// The parts of an edge at a level above its node.
fn skipped_parts<K: Kind>(edge: Edge<K>, letter: Decomp) -> (Edge<K>, Edge<K>)
    ensures low { plain K.extra_of result.0 ≡ plain K.extra_of edge }
    ensures high { plain K.extra_of result.1 ≡ skipped_high K.NAME letter (plain K.extra_of edge) }
{
    let low = edge;
    match letter {
        Decomp::S => (low, edge),
        Decomp::P | Decomp::N => (low, K::constant(Weight::ZERO)),
    }
}
