//! Products whose scales are at the ends of the range.
use crate::terms::{
    NEGATIVE, POSITIVE, SHANNON, Term, X, Y, are_same, limit_of, number, two_levels,
};
use diagram::{Builder, Limit};
use evbdd::Evbdd;
use hdd::Hdd;
use k_star_bmd::KStarBmd;
use kind_laws::Kind;
use record_store::SoloStore;
use star_bmd::StarBmd;
use std::process::Abort;
use word_base::Weight;

/// Whether the product of `a*x` and `b*y` is `c*x*y`.
fn multiplies_to<K: Kind>(
    rt: &impl Abort,
    builder: &mut Builder<K, SoloStore>,
    a: Weight,
    b: Weight,
    c: Weight,
) -> bool {
    let first = Term::Multiple(a, &X);
    let second = Term::Multiple(b, &Y);
    let product = Term::Product(&X, &Y);
    are_same(
        rt,
        builder,
        &Term::Product(&first, &second),
        &Term::Multiple(c, &product),
    )
}

/// The limit at which the product of `a*x` and `b*y` is given up, if it is.
fn limit_of_product<K: Kind>(
    rt: &impl Abort,
    builder: &mut Builder<K, SoloStore>,
    a: Weight,
    b: Weight,
) -> Option<Limit> {
    let first = Term::Multiple(a, &X);
    let second = Term::Multiple(b, &Y);
    limit_of(rt, builder, &Term::Product(&first, &second))
}

/// Products of which the scales are at the ends of the range.
fn check_scales<K: Kind>(rt: &impl Abort, builder: &mut Builder<K, SoloStore>) {
    let most = Weight::MAX;
    let least = most.neg();
    let zero = Weight::ZERO;
    let two = Weight::TWO;
    let minus_one = Weight::ONE.neg();
    let rows = [
        (most, minus_one, least, true),
        (least, minus_one, most, true),
        (zero, least, zero, true),
        (two.neg(), two.neg(), number(rt, 4), true),
        (two, two, two, false),
    ];
    for (a, b, c, same) in rows {
        assert_eq!(rt; multiplies_to(rt, builder, a, b, c), same);
    }
    assert_eq!(rt;
        limit_of_product(rt, builder, most, two),
        Some(Limit::Overflow)
    );
}

#[test]
fn products_at_the_ends_of_the_range(rt: HostRuntime) {
    check_scales(
        &rt,
        &mut two_levels::<Hdd>(&rt, rt.alloc(), POSITIVE, 100, 4),
    );
    check_scales(
        &rt,
        &mut two_levels::<Evbdd>(&rt, rt.alloc(), SHANNON, 100, 4),
    );
    check_scales(
        &rt,
        &mut two_levels::<StarBmd>(&rt, rt.alloc(), POSITIVE, 100, 4),
    );
    check_scales(
        &rt,
        &mut two_levels::<KStarBmd>(&rt, rt.alloc(), SHANNON, 100, 4),
    );
    check_scales(
        &rt,
        &mut two_levels::<KStarBmd>(&rt, rt.alloc(), NEGATIVE, 100, 4),
    );
}
