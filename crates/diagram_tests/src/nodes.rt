//! Numbers of nodes.
use crate::terms::{POSITIVE, SHANNON, Term, X, Y, two_levels};
use diagram::Builder;
use evbdd::Evbdd;
use hdd::Hdd;
use k_star_bmd::KStarBmd;
use kind_laws::Kind;
use record_store::SoloStore;
use star_bmd::StarBmd;
use std::process::Abort;
use word_base::Weight;

/// The number of different nodes among these ids, of which 0 is the leaf's.
fn different(top: u32, low: u32, high: u32) -> u32 {
    let second = low != 0 && low != top;
    let third = high != 0 && high != top && high != low;
    u32::from(top != 0) + u32::from(second) + u32::from(third)
}

/// The number of nodes of a term, counted twice over.
fn counts_of<K: Kind>(
    rt: &impl Abort,
    builder: &mut Builder<K, SoloStore>,
    term: &Term,
) -> (u32, u32) {
    let edge = term.edge(rt, builder).expect(rt, "an edge");
    let count = builder.count(edge);
    (count, builder.count(edge))
}

/// The nodes that a term and its parts at the top level lead to.
fn ids_of<K: Kind>(
    rt: &impl Abort,
    builder: &mut Builder<K, SoloStore>,
    term: &Term,
) -> (u32, u32, u32) {
    let edge = term.edge(rt, builder).expect(rt, "an edge");
    assert!(rt; builder.levels() > 0);
    let (low, high) = builder.parts(edge, 0).expect(rt, "parts");
    (edge.node, low.node, high.node)
}

/// The number of nodes of a term, counted twice over and by its parts.
fn nodes_of<K: Kind>(rt: &impl Abort, builder: &mut Builder<K, SoloStore>, term: &Term) -> u32 {
    let (count, again) = counts_of(rt, builder, term);
    assert_eq!(rt; again, count);
    let (top, low, high) = ids_of(rt, builder, term);
    assert_eq!(rt; count, different(top, low, high));
    count
}

/// The sum, the product and both together have these many nodes.
fn check_counts<K: Kind>(rt: &impl Abort, builder: &mut Builder<K, SoloStore>, counts: [u32; 3]) {
    let sum = Term::Sum(&X, &Y);
    let product = Term::Product(&X, &Y);
    let both = Term::Sum(&sum, &product);
    let zero = Term::Constant(Weight::ZERO);
    assert_eq!(rt; nodes_of(rt, builder, &zero), 0);
    assert_eq!(rt; nodes_of(rt, builder, &X), 1);
    assert_eq!(rt; nodes_of(rt, builder, &Y), 1);
    assert_eq!(rt; nodes_of(rt, builder, &sum), counts[0]);
    assert_eq!(rt; nodes_of(rt, builder, &product), counts[1]);
    assert_eq!(rt; nodes_of(rt, builder, &both), counts[2]);
}

#[test]
fn shared_nodes_count_once(rt: HostRuntime) {
    check_counts(
        &rt,
        &mut two_levels::<Hdd>(&rt, rt.alloc(), SHANNON, 100, 3),
        [3, 2, 3],
    );
    check_counts(
        &rt,
        &mut two_levels::<Hdd>(&rt, rt.alloc(), POSITIVE, 100, 0),
        [2, 2, 3],
    );
    check_counts(
        &rt,
        &mut two_levels::<Evbdd>(&rt, rt.alloc(), SHANNON, 100, 3),
        [2, 2, 3],
    );
    check_counts(
        &rt,
        &mut two_levels::<StarBmd>(&rt, rt.alloc(), POSITIVE, 100, 0),
        [2, 2, 3],
    );
    check_counts(
        &rt,
        &mut two_levels::<KStarBmd>(&rt, rt.alloc(), SHANNON, 100, 3),
        [2, 2, 2],
    );
}
