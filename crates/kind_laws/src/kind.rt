ghost use Rattle.std.specs.Prelude.{◌≡◌, ◌↔◌, ℕ, ℤ, pos, true, IsTrue};
ghost use Rattle.word_base.specs.Kind.{is_allowed};
ghost use Rattle.word_base.specs.declared.kind_name.KindName.{KindName};
ghost use Rattle.kind_laws.specs.Body.{Reads};
ghost use Rattle.kind_laws.specs.Kind.{IsRooted, Joins, IsNodeBody, HasParts};
ghost use Rattle.kind_laws.specs.Content.{content_of_edge, content_of_fields};
ghost use Rattle.kind_laws.specs.EdgeWords.{edge_words, FitsEdge, IsEdgeWords, ReadsEdge};
ghost use Rattle.kind_laws.specs.Plain.{PlainEdge, plain, plain_joined, constant_edge, answered};
ghost use Rattle.kind_laws.specs.Scale.{scale_of, unscaled, MayScale, Scales, shift_of, unshifted, MayShift, Shifts};

use std::marker::PhantomData;
use word_base::{Decomp, KindName, Overflow, Weight};

/// An edge of a diagram of the kind: its weights, and the id of what it leads to, which is 0 for the leaf.
#[derive(Clone, Copy, Debug, PartialEq, Eq)]
pub struct Edge<K: Kind, X = <K as Kind>::Extra> {
    pub weight: Weight,
    /// The additive weight of a K*BMD's edge, nothing in the other kinds.
    pub extra: X,
    pub node: u32,
    pub kind: PhantomData<K>,
}

/// What two edges join to.
#[derive(Clone, Copy, Debug, PartialEq, Eq)]
pub enum Joined<K: Kind, X = <K as Kind>::Extra> {
    /// An edge that was there.
    Skip(Edge<K, X>),
    /// The edge with these weights to the node with this body.
    Node {
        weight: Weight,
        extra: X,
        body: [u64; 8],
    },
}

/// A kind of word-level decision diagram.
pub trait Kind: Copy + Eq + Send + Sync {
    type Extra: Copy + Eq + Send + Sync;

    const NAME: KindName;

    ghost NAME: { KindName };

    /// The number of an edge's additive weight.
    ghost extra_of: { Self.Extra → ℤ };

    /// The edge of a constant.
    fn constant(value: Weight) -> Edge<Self>
        ensures { plain extra_of result ≡ constant_edge NAME value };

    /// The number of a constant's edge.
    fn value(constant: Edge<Self>) -> Weight
        requires { (c : ℤ) × (plain extra_of constant ≡ constant_edge NAME c) }
        ensures { plain extra_of constant ≡ constant_edge NAME result };

    /// What two edges that lie below a level join to there.
    fn join(
        level: u16,
        letter: Decomp,
        low: Edge<Self>,
        high: Edge<Self>,
    ) -> Result<Joined<Self>, Overflow>
        requires allowed { is_allowed NAME letter ≡ true }
        requires low_rooted { IsRooted NAME (plain extra_of low) }
        requires high_rooted { IsRooted NAME (plain extra_of high) }
        ensures { Joins NAME letter level (plain extra_of low) (plain extra_of high) (answered (plain_joined extra_of) result) };

    /// The low and the high part of an edge to a node, whose level has the letter.
    fn parts(
        edge: Edge<Self>,
        body: &[u64; 8],
        letter: Decomp,
    ) -> Result<(Edge<Self>, Edge<Self>), Overflow>
        requires allowed { is_allowed NAME letter ≡ true }
        requires body { IsNodeBody NAME body.now }
        ensures { Reads body.now (λ f. HasParts NAME letter (plain extra_of edge).root f
            (answered (λ p. (plain extra_of p.0, plain extra_of p.1)) result)) };

    /// The factor of an edge, and the edge that is left without it.
    fn take_scale(edge: Edge<Self>) -> (Weight, Edge<Self>)
        ensures scale { result.0 ≡ scale_of NAME (plain extra_of edge).root }
        ensures rest { plain extra_of result.1 ≡ unscaled NAME (plain extra_of edge) };

    /// The edge of the multiple.
    fn put_scale(scale: Weight, edge: Edge<Self>) -> Result<Edge<Self>, Overflow>
        requires { MayScale NAME scale }
        ensures { Scales NAME scale (plain extra_of edge) (answered (plain extra_of) result) };

    /// The summand of an edge, and the edge that is left without it.
    fn take_shift(edge: Edge<Self>) -> (Weight, Edge<Self>)
        ensures shift { result.0 ≡ shift_of NAME (plain extra_of edge).root }
        ensures rest { plain extra_of result.1 ≡ unshifted NAME (plain extra_of edge) };

    /// The edge of the sum.
    fn put_shift(shift: Weight, edge: Edge<Self>) -> Result<Edge<Self>, Overflow>
        requires { MayShift NAME shift }
        ensures { Shifts NAME shift (plain extra_of edge) (answered (plain extra_of) result) };

    /// The five words of an edge.
    fn pack(edge: Edge<Self>) -> [u64; 5]
        ensures words { result ≡ edge_words (plain extra_of edge) }
        ensures fits { FitsEdge NAME (plain extra_of edge) };

    /// The edge whose words these are.
    fn unpack(words: [u64; 5]) -> Edge<Self>
        requires { IsEdgeWords NAME words }
        ensures { ReadsEdge NAME words (λ e. plain extra_of result ≡ e) };

    /// The content of an edge's weights.
    fn edge_content(edge: Edge<Self>) -> Weight
        ensures { result ≡ pos (content_of_edge NAME (plain extra_of edge).root) };

    /// The content of a node's weights.
    fn body_content(body: &[u64; 8]) -> Weight
        requires { IsNodeBody NAME body.now }
        ensures { Reads body.now (λ f. result ≡ pos (content_of_fields NAME f)) };

    /// An additive weight is told by its number.
    ghost extra_tells: { (x y : Self.Extra) → extra_of x ≡ extra_of y → x ≡ y };

    ghost extra_eq: { (x y : Self.Extra) → (Self.Extra.eq x y ≡ true) ↔ (x ≡ y) };
}
