ghost use Rattle.std.specs.Prelude.{◌≡◌, ◌↔◌, ℤ, pos, true, IsTrue};
ghost use Rattle.std.specs.Result.{OkIff};
ghost use Rattle.word_base.specs.Range.{InRange};
ghost use Rattle.word_base.specs.declared.kind_name.KindName.TheVariants.{KStarBmd as k_star_bmd};
ghost use Rattle.kind_laws.specs.Body.{Reads};
ghost use Rattle.kind_laws.specs.Content.{content_of_edge, content_of_fields};
ghost use Rattle.kind_laws.specs.EdgeWords.{edge_words, FitsEdge, IsEdgeWords, ReadsEdge};
ghost use Rattle.kind_laws.specs.Kind.{IsRooted, Joins, IsNodeBody, HasParts};
ghost use Rattle.kind_laws.specs.Plain.{plain, plain_edge, plain_joined, constant_edge, answered};
ghost use Rattle.kind_laws.specs.Scale.{scale_of, unscaled, scaled_node, Scales, shift_of, unshifted, Shifts};
ghost use Rattle.k_star_bmd.specs.Additive.{own_extra, rest_of, high_extra_of};
ghost use Rattle.k_star_bmd.specs.Skips.{IsSkip};

use kind_laws::{
    Edge, Fields, Joined, Kind, added_of, children, high_weight_of, low_weight_of, pack_body,
    pack_edge, unpack_edge,
};
use std::marker::PhantomData;
use weights::{exact_div, gcd, product, signed_gcd};
use word_base::{Decomp, KindName, Overflow, Weight};

/// The kind of K*BMDs. Its edges have two weights, of which `weight` multiplies and `extra` is added.
#[derive(Clone, Copy, Debug, PartialEq, Eq)]
pub struct KStarBmd;

impl Kind for KStarBmd {
    type Extra = Weight;

    const NAME: KindName = KindName::KStarBmd;

    ghost use Rattle.std.specs.Prelude.{◌≡◌, ◌↔◌, pos, refl, true};
    ghost use Rattle.word_base.specs.declared.kind_name.KindName.TheVariants.{KStarBmd as k_star_bmd};
    ghost use Rattle.k_star_bmd.specs.Additive.{own_extra, own_extra_eq};

    ghost NAME = { k_star_bmd };

    ghost extra_of = { own_extra };

    fn constant(value: Weight) -> Edge<KStarBmd>
        ensures { plain own_extra result ≡ constant_edge k_star_bmd value }
    {
        make_edge(Weight::ZERO, value, 0)
    }

    fn value(constant: Edge<KStarBmd>) -> Weight
        requires { (c : ℤ) × (plain own_extra constant ≡ constant_edge k_star_bmd c) }
        ensures { plain own_extra constant ≡ constant_edge k_star_bmd result }
    {
        constant.extra
    }

    fn join(
        level: u16,
        letter: Decomp,
        low: Edge<KStarBmd>,
        high: Edge<KStarBmd>,
    ) -> Result<Joined<KStarBmd>, Overflow>
        requires low_rooted { IsRooted k_star_bmd (plain own_extra low) }
        requires high_rooted { IsRooted k_star_bmd (plain own_extra high) }
        ensures { Joins k_star_bmd letter level (plain own_extra low) (plain own_extra high) (answered (plain_joined own_extra) result) }
    {
        if skips(letter, &low, &high) {
            return Ok(Joined::Skip(low));
        }
        let rest = additive_rest(letter, low.extra, high.extra)?;
        let divisor = signed_gcd(low.weight, high.weight, rest);
        let body = pack_body(Fields {
            level,
            low: low.node,
            high: high.node,
            low_weight: exact_div(low.weight, divisor),
            added: exact_div(rest, divisor),
            high_weight: exact_div(high.weight, divisor),
        });
        Ok(Joined::Node {
            weight: divisor,
            extra: low.extra,
            body,
        })
    }

    fn parts(
        edge: Edge<KStarBmd>,
        body: &[u64; 8],
        letter: Decomp,
    ) -> Result<(Edge<KStarBmd>, Edge<KStarBmd>), Overflow>
        requires body { IsNodeBody k_star_bmd body.now }
        ensures { Reads body.now (λ f. HasParts k_star_bmd letter (plain own_extra edge).root f
            (answered (λ p. (plain own_extra p.0, plain own_extra p.1)) result)) }
    {
        let (low, high) = children(body);
        let low_weight = product(edge.weight, low_weight_of(body))?;
        let high_weight = product(edge.weight, high_weight_of(body))?;
        let added = product(edge.weight, added_of(body))?;
        let high_extra = additive_of_high(letter, edge.extra, added)?;
        // so that its range is known
        let _extra = edge.extra.get();
        let low = make_edge(low_weight, edge.extra, low);
        let high = make_edge(high_weight, high_extra, high);
        Ok((low, high))
    }

    fn take_scale(edge: Edge<KStarBmd>) -> (Weight, Edge<KStarBmd>)
        ensures scale { result.0 ≡ scale_of k_star_bmd (plain own_extra edge).root }
        ensures rest { plain own_extra result.1 ≡ unscaled k_star_bmd (plain own_extra edge) }
    {
        if edge.extra == Weight::ZERO && edge.weight != Weight::ZERO {
            let rest = make_edge(Weight::ONE, Weight::ZERO, edge.node);
            return (edge.weight, rest);
        }
        let scale = signed_gcd(edge.weight, edge.extra, Weight::ZERO);
        // the constant 0 has the factor 0
        if scale == Weight::ZERO || scale == Weight::ONE {
            return (scale, edge);
        }
        let weight = exact_div(edge.weight, scale);
        let extra = exact_div(edge.extra, scale);
        (scale, make_edge(weight, extra, edge.node))
    }

    fn put_scale(scale: Weight, edge: Edge<KStarBmd>) -> Result<Edge<KStarBmd>, Overflow>
        ensures { Scales k_star_bmd scale (plain own_extra edge) (answered (plain own_extra) result) }
    {
        if scale == Weight::ONE {
            return Ok(edge);
        }
        let weight = product(scale, edge.weight)?;
        let extra = product(scale, edge.extra)?;
        Ok(make_edge(weight, extra, node_of_multiple(scale, edge.node)))
    }

    fn take_shift(edge: Edge<KStarBmd>) -> (Weight, Edge<KStarBmd>)
        ensures shift { result.0 ≡ shift_of k_star_bmd (plain own_extra edge).root }
        ensures rest { plain own_extra result.1 ≡ unshifted k_star_bmd (plain own_extra edge) }
    {
        (edge.extra, make_edge(edge.weight, Weight::ZERO, edge.node))
    }

    fn put_shift(shift: Weight, edge: Edge<KStarBmd>) -> Result<Edge<KStarBmd>, Overflow>
        ensures { Shifts k_star_bmd shift (plain own_extra edge) (answered (plain own_extra) result) }
    {
        let extra = shift.add(edge.extra)?;
        Ok(make_edge(edge.weight, extra, edge.node))
    }

    fn pack(edge: Edge<KStarBmd>) -> [u64; 5]
        ensures words { result ≡ edge_words (plain own_extra edge) }
        ensures fits { FitsEdge k_star_bmd (plain own_extra edge) }
    {
        pack_edge(edge.weight, edge.extra, edge.node)
    }

    fn unpack(words: [u64; 5]) -> Edge<KStarBmd>
        requires { IsEdgeWords k_star_bmd words }
        ensures { ReadsEdge k_star_bmd words (λ e. plain own_extra result ≡ e) }
    {
        let (weight, extra, node) = unpack_edge(words);
        make_edge(weight, extra, node)
    }

    fn edge_content(edge: Edge<KStarBmd>) -> Weight
        ensures { result ≡ pos (content_of_edge k_star_bmd (plain own_extra edge).root) }
    {
        gcd(edge.extra, edge.weight)
    }

    fn body_content(_body: &[u64; 8]) -> Weight
        requires { IsNodeBody k_star_bmd _body.now }
        ensures { Reads _body.now (λ f. result ≡ pos (content_of_fields k_star_bmd f)) }
    {
        Weight::ZERO
    }

    ghost extra_tells = { λ x y e. e };

    ghost extra_eq = { own_extra_eq };
}

fn make_edge(weight: Weight, extra: Weight, node: u32) -> Edge<KStarBmd>
    ensures { plain own_extra result ≡ plain_edge weight extra node }
{
    Edge {
        weight,
        extra,
        node,
        kind: PhantomData,
    }
}

/// Whether a join is its low edge: two same edges at Shannon, the constant 0 as the high edge at Davio.
fn skips(letter: Decomp, low: &Edge<KStarBmd>, high: &Edge<KStarBmd>) -> bool
    ensures { IsTrue result ↔ IsSkip letter (plain own_extra low.now) (plain own_extra high.now) }
{
    match letter {
        Decomp::S => {
            low.node == high.node && low.weight == high.weight && low.extra == high.extra
        }
        Decomp::P | Decomp::N => {
            high.node == 0 && high.weight == Weight::ZERO && high.extra == Weight::ZERO
        }
    }
}

/// The additive weight that the high edge of a join keeps, not yet divided.
fn additive_rest(letter: Decomp, low: Weight, high: Weight) -> Result<Weight, Overflow>
    ensures { OkIff result (InRange (rest_of letter low high)) (rest_of letter low high) }
{
    match letter {
        Decomp::S => high.sub(low),
        Decomp::P | Decomp::N => Ok(high),
    }
}

/// The additive weight of a high part, from that of the root and from what the root's weight makes of the node's.
fn additive_of_high(letter: Decomp, root: Weight, added: Weight) -> Result<Weight, Overflow>
    ensures { OkIff result (InRange (high_extra_of letter root added)) (high_extra_of letter root added) }
{
    match letter {
        Decomp::S => root.add(added),
        Decomp::P | Decomp::N => Ok(added),
    }
}

/// The node that a multiple of an edge leads to: the leaf where it is the constant 0.
fn node_of_multiple(scale: Weight, node: u32) -> u32
    ensures { result ≡ scaled_node scale node }
{
    if scale == Weight::ZERO { 0 } else { node }
}
