//! A full store, and weights out of range.
use crate::terms::{NEGATIVE, POSITIVE, SHANNON, Term, X, Y, limit_of, two_levels};
use diagram::{Builder, Limit};
use evbdd::Evbdd;
use hdd::Hdd;
use k_star_bmd::KStarBmd;
use kind_laws::Kind;
use record_store::SoloStore;
use star_bmd::StarBmd;
use std::process::Abort;
use word_base::Weight;

/// The first variable takes the one node, and the second finds none left. Two terms leave the range.
fn check_causes<K: Kind>(rt: &impl Abort, builder: &mut Builder<K, SoloStore>) {
    let greatest = Term::Constant(Weight::MAX);
    let sum = Term::Sum(&greatest, &greatest);
    let twice = Term::Multiple(Weight::TWO, &greatest);
    let rows = [
        (&X, None),
        (&Y, Some(Limit::Full)),
        (&sum, Some(Limit::Overflow)),
        (&twice, Some(Limit::Overflow)),
    ];
    for (term, limit) in rows {
        assert_eq!(rt; limit_of(rt, builder, term), limit);
    }
}

#[test]
fn a_store_of_one_node_is_full(rt: HostRuntime) {
    check_causes(&rt, &mut two_levels::<Hdd>(&rt, rt.alloc(), NEGATIVE, 1, 0));
    check_causes(
        &rt,
        &mut two_levels::<Evbdd>(&rt, rt.alloc(), SHANNON, 1, 1),
    );
    check_causes(
        &rt,
        &mut two_levels::<StarBmd>(&rt, rt.alloc(), POSITIVE, 1, 2),
    );
    check_causes(
        &rt,
        &mut two_levels::<KStarBmd>(&rt, rt.alloc(), SHANNON, 1, 8),
    );
}
