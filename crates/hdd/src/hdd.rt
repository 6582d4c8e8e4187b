ghost use Rattle.std.specs.Prelude.{◌≡◌, ◌↔◌, ℤ, pos, IsTrue};
ghost use Rattle.word_base.specs.Kind.{is_allowed};
ghost use Rattle.word_base.specs.declared.kind_name.KindName.TheVariants.{Hdd as hdd};
ghost use Rattle.kind_laws.specs.Body.{Reads};
ghost use Rattle.kind_laws.specs.Content.{content_of_edge, content_of_fields};
ghost use Rattle.kind_laws.specs.EdgeWords.{edge_words, FitsEdge, IsEdgeWords, ReadsEdge};
ghost use Rattle.kind_laws.specs.Kind.{IsRooted, Joins, IsNodeBody, HasParts};
ghost use Rattle.kind_laws.specs.Plain.{plain, plain_edge, no_extra, plain_joined, constant_edge, answered};
ghost use Rattle.kind_laws.specs.Scale.{scale_of, unscaled, MayScale, Scales, shift_of, unshifted, MayShift, Shifts};
ghost use Rattle.hdd.specs.Skips.{IsSkip};

use kind_laws::{
    Edge, Fields, Joined, Kind, children, gcd, high_weight_of, low_weight_of, magnitude, pack_body,
    pack_edge, unpack_edge,
};
use std::marker::PhantomData;
use word_base::{Decomp, KindName, Overflow, Weight};

/// The kind of hybrid diagrams. Its edges have no additive weight.
#[derive(Clone, Copy, Debug, PartialEq, Eq)]
pub struct Hdd;

impl Kind for Hdd {
    type Extra = ();

    const NAME: KindName = KindName::Hdd;

    ghost use Rattle.std.specs.Prelude.{◌≡◌, ◌↔◌, pos, refl, true};
    ghost use Rattle.word_base.specs.declared.kind_name.KindName.TheVariants.{Hdd as hdd};

    ghost NAME = { hdd };

    ghost use Rattle.kind_laws.specs.Plain.{no_extra};

    ghost extra_of = { no_extra };

    fn constant(value: Weight) -> Edge<Hdd>
        ensures { plain no_extra result ≡ constant_edge hdd value }
    {
        edge(value, 0)
    }

    fn value(constant: Edge<Hdd>) -> Weight
        requires { (c : ℤ) × (plain no_extra constant ≡ constant_edge hdd c) }
        ensures { plain no_extra constant ≡ constant_edge hdd result }
    {
        constant.weight
    }

    fn join(
        level: u16,
        letter: Decomp,
        low: Edge<Hdd>,
        high: Edge<Hdd>,
    ) -> Result<Joined<Hdd>, Overflow>
        requires low_rooted { IsRooted hdd (plain no_extra low) }
        requires high_rooted { IsRooted hdd (plain no_extra high) }
        ensures { Joins hdd letter level (plain no_extra low) (plain no_extra high) (answered (plain_joined no_extra) result) }
    {
        if skips(letter, &low, &high) {
            return Ok(Joined::Skip(low));
        }
        let body = pack_body(Fields {
            level,
            low: low.node,
            high: high.node,
            low_weight: low.weight,
            added: Weight::ZERO,
            high_weight: high.weight,
        });
        Ok(Joined::Node {
            weight: Weight::ZERO,
            extra: (),
            body,
        })
    }

    fn parts(
        _edge: Edge<Hdd>,
        body: &[u64; 8],
        _letter: Decomp,
    ) -> Result<(Edge<Hdd>, Edge<Hdd>), Overflow>
        requires { IsNodeBody hdd body.now }
        ensures { Reads body.now (λ f. HasParts hdd _letter (plain no_extra _edge).root f
            (answered (λ p. (plain no_extra p.0, plain no_extra p.1)) result)) }
    {
        let (low, high) = children(body);
        let low = edge(low_weight_of(body), low);
        let high = edge(high_weight_of(body), high);
        Ok((low, high))
    }

    fn take_scale(edge: Edge<Hdd>) -> (Weight, Edge<Hdd>)
        ensures scale { result.0 ≡ scale_of hdd (plain no_extra edge).root }
        ensures rest { plain no_extra result.1 ≡ unscaled hdd (plain no_extra edge) }
    {
        (Weight::ONE, edge)
    }

    fn put_scale(_scale: Weight, edge: Edge<Hdd>) -> Result<Edge<Hdd>, Overflow>
        requires { MayScale hdd _scale }
        ensures { Scales hdd _scale (plain no_extra edge) (answered (plain no_extra) result) }
    {
        Ok(edge)
    }

    fn take_shift(edge: Edge<Hdd>) -> (Weight, Edge<Hdd>)
        ensures shift { result.0 ≡ shift_of hdd (plain no_extra edge).root }
        ensures rest { plain no_extra result.1 ≡ unshifted hdd (plain no_extra edge) }
    {
        (Weight::ZERO, edge)
    }

    fn put_shift(_shift: Weight, edge: Edge<Hdd>) -> Result<Edge<Hdd>, Overflow>
        requires { MayShift hdd _shift }
        ensures { Shifts hdd _shift (plain no_extra edge) (answered (plain no_extra) result) }
    {
        Ok(edge)
    }

    fn pack(edge: Edge<Hdd>) -> [u64; 5]
        ensures words { result ≡ edge_words (plain no_extra edge) }
        ensures fits { FitsEdge hdd (plain no_extra edge) }
    {
        pack_edge(edge.weight, Weight::ZERO, edge.node)
    }

    fn unpack(words: [u64; 5]) -> Edge<Hdd>
        requires { IsEdgeWords hdd words }
        ensures { ReadsEdge hdd words (λ e. plain no_extra result ≡ e) }
    {
        let (weight, _, node) = unpack_edge(words);
        edge(weight, node)
    }

    fn edge_content(edge: Edge<Hdd>) -> Weight
        ensures { result ≡ pos (content_of_edge hdd (plain no_extra edge).root) }
    {
        magnitude(edge.weight)
    }

    fn body_content(body: &[u64; 8]) -> Weight
        requires { IsNodeBody hdd body.now }
        ensures { Reads body.now (λ f. result ≡ pos (content_of_fields hdd f)) }
    {
        gcd(low_weight_of(body), high_weight_of(body))
    }

    ghost extra_tells = { λ x y _. refl };

    ghost extra_eq = { λ x y. (λ _. refl, λ _. refl) };
}

fn edge(weight: Weight, node: u32) -> Edge<Hdd>
    ensures { plain no_extra result ≡ plain_edge weight (pos 0) node }
{
    Edge {
        weight,
        extra: (),
        node,
        kind: PhantomData,
    }
}

/// Whether a join is its low edge: two same edges at Shannon, the constant 0 as the high edge at Davio.
fn skips(letter: Decomp, low: &Edge<Hdd>, high: &Edge<Hdd>) -> bool
    ensures { IsTrue result ↔ IsSkip letter (plain no_extra low.now) (plain no_extra high.now) }
{
    match letter {
        Decomp::S => low.node == high.node && low.weight == high.weight,
        Decomp::P | Decomp::N => high.node == 0 && high.weight == Weight::ZERO,
    }
}
