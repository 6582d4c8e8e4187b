//! Levels, parts and joins by hand.
ghost use Rattle.kind_laws.specs.Plain.{plain};
ghost use Rattle.diagram.specs.View.{IsEdge};

use crate::terms::{POSITIVE, SHANNON, Term, X, Y, edge_of, two_levels};
use diagram::{Builder, Limit};
use evbdd::Evbdd;
use hdd::Hdd;
use k_star_bmd::KStarBmd;
use kind_laws::{Edge, Kind};
use record_store::SoloStore;
use star_bmd::StarBmd;
use std::process::Abort;
use word_base::{Decomp, Weight};

/// The parts of an edge at a level that is not below its node.
fn parts_at<K: Kind>(
    rt: &impl Abort,
    builder: &mut Builder<K, SoloStore>,
    edge: Edge<K>,
    level: u16,
) -> (Edge<K>, Edge<K>)
    requires { IsEdge K.NAME builder.old (plain K.extra_of edge) }
{
    assert!(rt; level < builder.levels());
    assert!(rt; level <= builder.top(edge));
    builder.parts(edge, level).expect(rt, "parts")
}

/// Whether the parts of a term at a level are the edges of two others.
fn has_parts<K: Kind>(
    rt: &impl Abort,
    builder: &mut Builder<K, SoloStore>,
    term: &Term,
    level: u16,
    low: &Term,
    high: &Term,
) -> bool {
    let edge = term.edge(rt, builder).expect(rt, "an edge");
    let parts = parts_at(rt, builder, edge, level);
    let low = edge_of(rt, builder, low);
    let high = edge_of(rt, builder, high);
    builder.same(parts.0, low) && builder.same(parts.1, high)
}

/// A variable's parts, at its level and above it.
fn check_parts<K: Kind>(rt: &impl Abort, builder: &mut Builder<K, SoloStore>, letter: Decomp) {
    let zero = Term::Constant(Weight::ZERO);
    let one = Term::Constant(Weight::ONE);
    let minus_one = Term::Constant(Weight::ONE.neg());
    match letter {
        Decomp::S => {
            assert!(rt; has_parts(rt, builder, &Y, 1, &zero, &one));
            assert!(rt; has_parts(rt, builder, &Y, 0, &Y, &Y));
        }
        Decomp::P => {
            assert!(rt; has_parts(rt, builder, &Y, 1, &zero, &one));
            assert!(rt; has_parts(rt, builder, &Y, 0, &Y, &zero));
        }
        Decomp::N => {
            assert!(rt; has_parts(rt, builder, &Y, 1, &one, &minus_one));
            assert!(rt; has_parts(rt, builder, &Y, 0, &Y, &zero));
        }
    }
}

/// The level of a term's node.
fn top_of<K: Kind>(rt: &impl Abort, builder: &mut Builder<K, SoloStore>, term: &Term) -> u16 {
    let edge = term.edge(rt, builder).expect(rt, "an edge");
    builder.top(edge)
}

/// The levels of the nodes of both variables, of their sum and of a constant.
fn check_tops<K: Kind>(rt: &impl Abort, builder: &mut Builder<K, SoloStore>) {
    let sum = Term::Sum(&Y, &X);
    let one = Term::Constant(Weight::ONE);
    assert_eq!(rt; top_of(rt, builder, &Y), 1);
    assert_eq!(rt; top_of(rt, builder, &X), 0);
    assert_eq!(rt; top_of(rt, builder, &sum), 0);
    assert_eq!(rt; top_of(rt, builder, &one), 2);
}

/// The join of two edges below a level.
fn join_at<K: Kind>(
    rt: &impl Abort,
    builder: &mut Builder<K, SoloStore>,
    level: u16,
    low: Edge<K>,
    high: Edge<K>,
) -> Edge<K>
    requires low { IsEdge K.NAME builder.old (plain K.extra_of low) }
    requires high { IsEdge K.NAME builder.old (plain K.extra_of high) }
{
    assert!(rt; level < builder.levels());
    assert!(rt; level < builder.top(low));
    assert!(rt; level < builder.top(high));
    builder.join(level, low, high).expect(rt, "a join")
}

/// The join of two terms at level 0.
fn join_of<K: Kind>(
    rt: &impl Abort,
    builder: &mut Builder<K, SoloStore>,
    low: &Term,
    high: &Term,
) -> Result<Edge<K>, Limit> {
    let low = low.edge(rt, builder)?;
    let high = high.edge(rt, builder)?;
    Ok(join_at(rt, builder, 0, low, high))
}

/// Whether the join of two terms at level 0 is the edge of a third one.
fn joins_to<K: Kind>(
    rt: &impl Abort,
    builder: &mut Builder<K, SoloStore>,
    low: &Term,
    high: &Term,
    whole: &Term,
) -> bool {
    let whole = edge_of(rt, builder, whole);
    let joined = join_of(rt, builder, low, high).expect(rt, "a join");
    builder.same(joined, whole)
}

/// A join that needs no node, and one with a node of its own.
fn check_joins<K: Kind>(rt: &impl Abort, builder: &mut Builder<K, SoloStore>, letter: Decomp) {
    let zero = Term::Constant(Weight::ZERO);
    let one = Term::Constant(Weight::ONE);
    let more = Term::Sum(&Y, &one);
    let sum = Term::Sum(&Y, &X);
    let less = Term::Difference(&more, &X);
    match letter {
        Decomp::S => {
            assert!(rt; joins_to(rt, builder, &Y, &Y, &Y));
            assert!(rt; joins_to(rt, builder, &Y, &more, &sum));
        }
        Decomp::P => {
            assert!(rt; joins_to(rt, builder, &Y, &zero, &Y));
            assert!(rt; joins_to(rt, builder, &Y, &one, &sum));
        }
        Decomp::N => {
            assert!(rt; joins_to(rt, builder, &Y, &zero, &Y));
            assert!(rt; joins_to(rt, builder, &Y, &one, &less));
        }
    }
}

fn check_calls<K: Kind>(rt: &impl Abort, builder: &mut Builder<K, SoloStore>, letter: Decomp) {
    check_tops(rt, builder);
    check_parts(rt, builder, letter);
    check_joins(rt, builder, letter);
}

#[test]
fn parts_and_joins_by_hand(rt: HostRuntime) {
    for letter in [Decomp::S, Decomp::P, Decomp::N] {
        let letters = [letter, letter];
        check_calls(
            &rt,
            &mut two_levels::<Hdd>(&rt, rt.alloc(), letters, 100, 0),
            letter,
        );
        check_calls(
            &rt,
            &mut two_levels::<KStarBmd>(&rt, rt.alloc(), letters, 100, 1),
            letter,
        );
    }
    check_calls(
        &rt,
        &mut two_levels::<Evbdd>(&rt, rt.alloc(), SHANNON, 100, 2),
        Decomp::S,
    );
    check_calls(
        &rt,
        &mut two_levels::<StarBmd>(&rt, rt.alloc(), POSITIVE, 100, 8),
        Decomp::P,
    );
}
