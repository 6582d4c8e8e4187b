ghost use Rattle.std.specs.Prelude.{◌≡◌, ◌↔◌, ℤ, pos, true, IsTrue};
ghost use Rattle.word_base.specs.Kind.{is_allowed};
ghost use Rattle.word_base.specs.declared.kind_name.KindName.TheVariants.{StarBmd as star_bmd};
ghost use Rattle.kind_laws.specs.Body.{Reads};
ghost use Rattle.kind_laws.specs.Content.{content_of_edge, content_of_fields};
ghost use Rattle.kind_laws.specs.EdgeWords.{edge_words, FitsEdge, IsEdgeWords, ReadsEdge};
ghost use Rattle.kind_laws.specs.Kind.{IsRooted, Joins, IsNodeBody, HasParts};
ghost use Rattle.kind_laws.specs.Plain.{plain, plain_edge, no_extra, plain_joined, constant_edge, answered};
ghost use Rattle.kind_laws.specs.Scale.{scale_of, unscaled, scaled_node, Scales, shift_of, unshifted, MayShift, Shifts};

use kind_laws::{
    Edge, Fields, Joined, Kind, children, high_weight_of, low_weight_of, pack_body, pack_edge,
    unpack_edge,
};
use std::marker::PhantomData;
use weights::{exact_div, magnitude, product, signed_gcd};
use word_base::{Decomp, KindName, Overflow, Weight};

/// The kind of multiplicative binary moment diagrams. Its edges have one weight, which multiplies.
#[derive(Clone, Copy, Debug, PartialEq, Eq)]
pub struct StarBmd;

impl Kind for StarBmd {
    type Extra = ();

    const NAME: KindName = KindName::StarBmd;

    ghost use Rattle.std.specs.Prelude.{◌≡◌, ◌↔◌, pos, refl, true};
    ghost use Rattle.word_base.specs.declared.kind_name.KindName.TheVariants.{StarBmd as star_bmd};
    ghost use Rattle.kind_laws.specs.Plain.{no_extra};

    ghost NAME = { star_bmd };

    ghost extra_of = { no_extra };

    fn constant(value: Weight) -> Edge<StarBmd>
        ensures { plain no_extra result ≡ constant_edge star_bmd value }
    {
        make_edge(value, 0)
    }

    fn value(constant: Edge<StarBmd>) -> Weight
        requires { (c : ℤ) × (plain no_extra constant ≡ constant_edge star_bmd c) }
        ensures { plain no_extra constant ≡ constant_edge star_bmd result }
    {
        constant.weight
    }

    fn join(
        level: u16,
        _letter: Decomp,
        low: Edge<StarBmd>,
        high: Edge<StarBmd>,
    ) -> Result<Joined<StarBmd>, Overflow>
        ensures { Joins star_bmd _letter level (plain no_extra low) (plain no_extra high) (answered (plain_joined no_extra) result) }
    {
        if high.weight == Weight::ZERO {
            return Ok(Joined::Skip(low));
        }
        let divisor = signed_gcd(low.weight, high.weight, Weight::ZERO);
        let body = pack_body(Fields {
            level,
            low: low.node,
            high: high.node,
            low_weight: exact_div(low.weight, divisor),
            added: Weight::ZERO,
            high_weight: exact_div(high.weight, divisor),
        });
        Ok(Joined::Node {
            weight: divisor,
            extra: (),
            body,
        })
    }

    fn parts(
        edge: Edge<StarBmd>,
        body: &[u64; 8],
        letter: Decomp,
    ) -> Result<(Edge<StarBmd>, Edge<StarBmd>), Overflow>
        requires body { IsNodeBody star_bmd body.now }
        ensures { Reads body.now (λ f. HasParts star_bmd letter (plain no_extra edge).root f
            (answered (λ p. (plain no_extra p.0, plain no_extra p.1)) result)) }
    {
        let (low, high) = children(body);
        let low_weight = product(edge.weight, low_weight_of(body))?;
        let high_weight = product(edge.weight, high_weight_of(body))?;
        let low = make_edge(low_weight, low);
        let high = make_edge(high_weight, high);
        Ok((low, high))
    }

    fn take_scale(edge: Edge<StarBmd>) -> (Weight, Edge<StarBmd>)
        ensures scale { result.0 ≡ scale_of star_bmd (plain no_extra edge).root }
        ensures rest { plain no_extra result.1 ≡ unscaled star_bmd (plain no_extra edge) }
    {
        (edge.weight, make_edge(Weight::ONE, edge.node))
    }

    fn put_scale(scale: Weight, edge: Edge<StarBmd>) -> Result<Edge<StarBmd>, Overflow>
        ensures { Scales star_bmd scale (plain no_extra edge) (answered (plain no_extra) result) }
    {
        if scale == Weight::ONE {
            return Ok(edge);
        }
        let weight = product(scale, edge.weight)?;
        Ok(make_edge(weight, node_of_multiple(scale, edge.node)))
    }

    fn take_shift(edge: Edge<StarBmd>) -> (Weight, Edge<StarBmd>)
        ensures shift { result.0 ≡ shift_of star_bmd (plain no_extra edge).root }
        ensures rest { plain no_extra result.1 ≡ unshifted star_bmd (plain no_extra edge) }
    {
        (Weight::ZERO, edge)
    }

    fn put_shift(_shift: Weight, edge: Edge<StarBmd>) -> Result<Edge<StarBmd>, Overflow>
        requires { MayShift star_bmd _shift }
        ensures { Shifts star_bmd _shift (plain no_extra edge) (answered (plain no_extra) result) }
    {
        Ok(edge)
    }

    fn pack(edge: Edge<StarBmd>) -> [u64; 5]
        ensures words { result ≡ edge_words (plain no_extra edge) }
        ensures fits { FitsEdge star_bmd (plain no_extra edge) }
    {
        pack_edge(edge.weight, Weight::ZERO, edge.node)
    }

    fn unpack(words: [u64; 5]) -> Edge<StarBmd>
        requires { IsEdgeWords star_bmd words }
        ensures { ReadsEdge star_bmd words (λ e. plain no_extra result ≡ e) }
    {
        let (weight, _, node) = unpack_edge(words);
        make_edge(weight, node)
    }

    fn edge_content(edge: Edge<StarBmd>) -> Weight
        ensures { result ≡ pos (content_of_edge star_bmd (plain no_extra edge).root) }
    {
        magnitude(edge.weight)
    }

    fn body_content(_body: &[u64; 8]) -> Weight
        requires { IsNodeBody star_bmd _body.now }
        ensures { Reads _body.now (λ f. result ≡ pos (content_of_fields star_bmd f)) }
    {
        Weight::ZERO
    }

    ghost extra_tells = { λ x y _. refl };

    ghost extra_eq = { λ x y. (λ _. refl, λ _. refl) };
}

fn make_edge(weight: Weight, node: u32) -> Edge<StarBmd>
    ensures { plain no_extra result ≡ plain_edge weight (pos 0) node }
{
    Edge {
        weight,
        extra: (),
        node,
        kind: PhantomData,
    }
}

/// The node that a multiple of an edge leads to: the leaf where it is the constant 0.
fn node_of_multiple(scale: Weight, node: u32) -> u32
    ensures { result ≡ scaled_node scale node }
{
    if scale == Weight::ZERO { 0 } else { node }
}
