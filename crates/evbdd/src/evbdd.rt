ghost use Rattle.std.specs.Prelude.{◌≡◌, ◌↔◌, ℤ, pos, true, IsTrue};
ghost use Rattle.word_base.specs.Kind.{is_allowed};
ghost use Rattle.word_base.specs.declared.kind_name.KindName.TheVariants.{Evbdd as evbdd};
ghost use Rattle.kind_laws.specs.Body.{Reads};
ghost use Rattle.kind_laws.specs.Content.{content_of_edge, content_of_fields};
ghost use Rattle.kind_laws.specs.EdgeWords.{edge_words, FitsEdge, IsEdgeWords, ReadsEdge};
ghost use Rattle.kind_laws.specs.Kind.{IsRooted, Joins, IsNodeBody, HasParts};
ghost use Rattle.kind_laws.specs.Plain.{plain, plain_edge, no_extra, plain_joined, constant_edge, answered};
ghost use Rattle.kind_laws.specs.Scale.{scale_of, unscaled, MayScale, Scales, shift_of, unshifted, Shifts};

use kind_laws::{
    Edge, Fields, Joined, Kind, added_of, children, magnitude, pack_body, pack_edge, unpack_edge,
};
use std::marker::PhantomData;
use word_base::{Decomp, KindName, Overflow, Weight};

/// The kind of edge-valued diagrams. Its edges have one weight, which is added.
#[derive(Clone, Copy, Debug, PartialEq, Eq)]
pub struct Evbdd;

impl Kind for Evbdd {
    type Extra = ();

    const NAME: KindName = KindName::Evbdd;

    ghost use Rattle.std.specs.Prelude.{◌≡◌, ◌↔◌, pos, refl, true};
    ghost use Rattle.word_base.specs.declared.kind_name.KindName.TheVariants.{Evbdd as evbdd};
    ghost use Rattle.kind_laws.specs.Plain.{no_extra};

    ghost NAME = { evbdd };

    ghost extra_of = { no_extra };

    fn constant(value: Weight) -> Edge<Evbdd>
        ensures { plain no_extra result ≡ constant_edge evbdd value }
    {
        make_edge(value, 0)
    }

    fn value(constant: Edge<Evbdd>) -> Weight
        requires { (c : ℤ) × (plain no_extra constant ≡ constant_edge evbdd c) }
        ensures { plain no_extra constant ≡ constant_edge evbdd result }
    {
        constant.weight
    }

    fn join(
        level: u16,
        letter: Decomp,
        low: Edge<Evbdd>,
        high: Edge<Evbdd>,
    ) -> Result<Joined<Evbdd>, Overflow>
        requires allowed { is_allowed evbdd letter ≡ true }
        ensures { Joins evbdd letter level (plain no_extra low) (plain no_extra high) (answered (plain_joined no_extra) result) }
    {
        let added = high.weight.sub(low.weight)?;
        if is_skip(low.node, high.node, added) {
            return Ok(Joined::Skip(low));
        }
        let body = pack_body(Fields {
            level,
            low: low.node,
            high: high.node,
            low_weight: Weight::ZERO,
            added,
            high_weight: Weight::ZERO,
        });
        Ok(Joined::Node {
            weight: low.weight,
            extra: (),
            body,
        })
    }

    fn parts(
        edge: Edge<Evbdd>,
        body: &[u64; 8],
        letter: Decomp,
    ) -> Result<(Edge<Evbdd>, Edge<Evbdd>), Overflow>
        requires body { IsNodeBody evbdd body.now }
        ensures { Reads body.now (λ f. HasParts evbdd letter (plain no_extra edge).root f
            (answered (λ p. (plain no_extra p.0, plain no_extra p.1)) result)) }
    {
        let (low, high) = children(body);
        let high_weight = edge.weight.add(added_of(body))?;
        let low = make_edge(edge.weight, low);
        let high = make_edge(high_weight, high);
        Ok((low, high))
    }

    fn take_scale(edge: Edge<Evbdd>) -> (Weight, Edge<Evbdd>)
        ensures scale { result.0 ≡ scale_of evbdd (plain no_extra edge).root }
        ensures rest { plain no_extra result.1 ≡ unscaled evbdd (plain no_extra edge) }
    {
        (Weight::ONE, edge)
    }

    fn put_scale(_scale: Weight, edge: Edge<Evbdd>) -> Result<Edge<Evbdd>, Overflow>
        requires { MayScale evbdd _scale }
        ensures { Scales evbdd _scale (plain no_extra edge) (answered (plain no_extra) result) }
    {
        Ok(edge)
    }

    fn take_shift(edge: Edge<Evbdd>) -> (Weight, Edge<Evbdd>)
        ensures shift { result.0 ≡ shift_of evbdd (plain no_extra edge).root }
        ensures rest { plain no_extra result.1 ≡ unshifted evbdd (plain no_extra edge) }
    {
        (edge.weight, make_edge(Weight::ZERO, edge.node))
    }

    fn put_shift(shift: Weight, edge: Edge<Evbdd>) -> Result<Edge<Evbdd>, Overflow>
        ensures { Shifts evbdd shift (plain no_extra edge) (answered (plain no_extra) result) }
    {
        let weight = shift.add(edge.weight)?;
        Ok(make_edge(weight, edge.node))
    }

    fn pack(edge: Edge<Evbdd>) -> [u64; 5]
        ensures words { result ≡ edge_words (plain no_extra edge) }
        ensures fits { FitsEdge evbdd (plain no_extra edge) }
    {
        pack_edge(edge.weight, Weight::ZERO, edge.node)
    }

    fn unpack(words: [u64; 5]) -> Edge<Evbdd>
        requires { IsEdgeWords evbdd words }
        ensures { ReadsEdge evbdd words (λ e. plain no_extra result ≡ e) }
    {
        let (weight, _, node) = unpack_edge(words);
        make_edge(weight, node)
    }

    fn edge_content(edge: Edge<Evbdd>) -> Weight
        ensures { result ≡ pos (content_of_edge evbdd (plain no_extra edge).root) }
    {
        magnitude(edge.weight)
    }

    fn body_content(body: &[u64; 8]) -> Weight
        requires { IsNodeBody evbdd body.now }
        ensures { Reads body.now (λ f. result ≡ pos (content_of_fields evbdd f)) }
    {
        magnitude(added_of(body))
    }

    ghost extra_tells = { λ x y _. refl };

    ghost extra_eq = { λ x y. (λ _. refl, λ _. refl) };
}

fn make_edge(weight: Weight, node: u32) -> Edge<Evbdd>
    ensures { plain no_extra result ≡ plain_edge weight (pos 0) node }
{
    Edge {
        weight,
        extra: (),
        node,
        kind: PhantomData,
    }
}

/// Whether two edges of which the weights have this difference are the same.
fn is_skip(low: u32, high: u32, added: Weight) -> bool
    ensures { IsTrue result ↔ ((low ≡ high) × (added ≡ pos 0)) }
{
    low == high && added == Weight::ZERO
}
