//! Sums whose shifts or factors are at the ends of the range.
use crate::terms::{POSITIVE, SHANNON, Term, X, Y, are_same, edge_of, number, two_levels};
use diagram::{Builder, Limit};
use evbdd::Evbdd;
use k_star_bmd::KStarBmd;
use kind_laws::{Edge, Kind};
use record_store::SoloStore;
use star_bmd::StarBmd;
use std::process::Abort;
use word_base::{Decomp, Weight};

/// The sum of `a.0 + a.1*x` and `b.0 + b.1*x`.
fn sum_of_lines<K: Kind>(
    rt: &impl Abort,
    builder: &mut Builder<K, SoloStore>,
    a: (Weight, Weight),
    b: (Weight, Weight),
) -> Result<Edge<K>, Limit> {
    let first_shift = Term::Constant(a.0);
    let first_multiple = Term::Multiple(a.1, &X);
    let second_shift = Term::Constant(b.0);
    let second_multiple = Term::Multiple(b.1, &X);
    let first = Term::Sum(&first_shift, &first_multiple);
    let second = Term::Sum(&second_shift, &second_multiple);
    Term::Sum(&first, &second).edge(rt, builder)
}

/// Whether the sum of two lines is a third one.
fn adds_to<K: Kind>(
    rt: &impl Abort,
    builder: &mut Builder<K, SoloStore>,
    a: (Weight, Weight),
    b: (Weight, Weight),
    c: (Weight, Weight),
) -> bool {
    let zero = (Weight::ZERO, Weight::ZERO);
    let sum = sum_of_lines(rt, builder, a, b).expect(rt, "a sum in range");
    let expected = sum_of_lines(rt, builder, c, zero).expect(rt, "a line");
    builder.same(sum, expected)
}

/// Sums in range, of which the shifts are at the ends of the range.
fn check_fitting_lines<K: Kind>(rt: &impl Abort, builder: &mut Builder<K, SoloStore>) {
    let most = Weight::MAX;
    let least = most.neg();
    let zero = Weight::ZERO;
    let one = Weight::ONE;
    let least_but_one = least.add(one).expect(rt, "in range");
    let rows = [
        ((least, most), (most, least), (zero, zero)),
        ((least, one), (most, one), (zero, Weight::TWO)),
        ((most, least), (least, one), (zero, least_but_one)),
        (
            (least, most),
            (zero, one.neg()),
            (least, least_but_one.neg()),
        ),
    ];
    for (a, b, c) in rows {
        assert!(rt; adds_to(rt, builder, a, b, c));
    }
}

/// Sums out of range.
fn check_unfit_lines<K: Kind>(rt: &impl Abort, builder: &mut Builder<K, SoloStore>) {
    let most = Weight::MAX;
    let least = most.neg();
    let zero = Weight::ZERO;
    let one = Weight::ONE;
    let rows = [
        ((most, zero), (one, zero)),
        ((least, most), (zero, most)),
        ((most, least), (one, zero)),
    ];
    for (a, b) in rows {
        let sum = sum_of_lines(rt, builder, a, b);
        assert!(rt; matches!(sum, Err(Limit::Overflow)));
    }
}

/// Two terms that are added one after the other to `-m + (m - 2)*x`, where `m` is the greatest weight.
fn added_to_line<K: Kind>(
    rt: &impl Abort,
    builder: &mut Builder<K, SoloStore>,
    second: &Term,
    third: &Term,
) -> Edge<K> {
    let slope = Weight::MAX.sub(Weight::TWO).expect(rt, "in range");
    let least = Term::Constant(Weight::MAX.neg());
    let step = Term::Multiple(slope, &X);
    let line = Term::Sum(&least, &step);
    let sum = Term::Sum(&line, second);
    edge_of(rt, builder, &Term::Sum(&sum, third))
}

/// The entries `-m`, `-m + 1`, `-2` and `m - 2`, of which the last one is out of range without the first.
fn check_far_entries<K: Kind>(rt: &impl Abort, builder: &mut Builder<K, SoloStore>) {
    let most_but_one = Weight::MAX.sub(Weight::ONE).expect(rt, "in range");
    let product = Term::Product(&X, &Y);
    let last = Term::Multiple(most_but_one, &product);
    let before = added_to_line(rt, builder, &last, &Y);
    let after = added_to_line(rt, builder, &Y, &last);
    assert!(rt; builder.same(before, after));
}

fn check_lines<K: Kind>(rt: &impl Abort, builder: &mut Builder<K, SoloStore>) {
    check_fitting_lines(rt, builder);
    check_unfit_lines(rt, builder);
    check_far_entries(rt, builder);
}

#[test]
fn sums_at_the_ends_of_the_range(rt: HostRuntime) {
    check_lines(
        &rt,
        &mut two_levels::<Evbdd>(&rt, rt.alloc(), SHANNON, 100, 4),
    );
    for letter in [Decomp::S, Decomp::P] {
        let letters = [letter, letter];
        check_lines(
            &rt,
            &mut two_levels::<KStarBmd>(&rt, rt.alloc(), letters, 100, 4),
        );
    }
}

/// Whether two terms, with a number added to each, sum up to a third one with twice that number.
fn add_up_to<K: Kind>(
    rt: &impl Abort,
    builder: &mut Builder<K, SoloStore>,
    added: Weight,
    a: &Term,
    b: &Term,
    c: &Term,
) -> bool {
    let constant = Term::Constant(added);
    let constants = Term::Constant(added.add(added).expect(rt, "in range"));
    let first = Term::Sum(&constant, a);
    let second = Term::Sum(&constant, b);
    are_same(
        rt,
        builder,
        &Term::Sum(&first, &second),
        &Term::Sum(&constants, c),
    )
}

/// A sum of which the parts are out of range, but not those of the quotients by the common factor, with a number added to
/// both operands.
fn check_common_factor<K: Kind>(
    rt: &impl Abort,
    builder: &mut Builder<K, SoloStore>,
    added: Weight,
) {
    let factor = number(rt, 1 << 64);
    let steep = Term::Multiple(factor, &Y);
    let plane = Term::Sum(&X, &steep);
    let multiple = Term::Multiple(factor, &plane);
    let multiple_of_x = Term::Multiple(factor, &X);
    let halved = Term::Multiple(number(rt, 1 << 63), &Y);
    let half = Term::Sum(&X, &halved);
    let sum = Term::Multiple(number(rt, 1 << 65), &half);
    assert!(rt; add_up_to(rt, builder, added, &multiple, &multiple_of_x, &sum));
}

/// Differences of multiples whose parts are out of range.
fn check_differences<K: Kind>(rt: &impl Abort, builder: &mut Builder<K, SoloStore>) {
    let factor = number(rt, 1 << 64);
    let steep = Term::Multiple(factor, &Y);
    let plane = Term::Sum(&X, &steep);
    let multiple = Term::Multiple(factor, &plane);
    let negative = Term::Multiple(number(rt, -(1 << 65)), &plane);
    let difference = Term::Sum(&negative, &multiple);
    assert!(rt; are_same(rt, builder, &difference, &Term::Negative(&multiple)));
    let sum = Term::Sum(&difference, &multiple);
    assert!(rt; are_same(rt, builder, &sum, &Term::Constant(Weight::ZERO)));
}

fn check_factors<K: Kind>(rt: &impl Abort, builder: &mut Builder<K, SoloStore>, added: Weight) {
    check_common_factor(rt, builder, added);
    check_differences(rt, builder);
}

#[test]
fn sums_under_a_common_factor(rt: HostRuntime) {
    let star_bmd = &mut two_levels::<StarBmd>(&rt, rt.alloc(), POSITIVE, 100, 4);
    check_factors(&rt, star_bmd, Weight::ZERO);
    for letter in [Decomp::S, Decomp::P] {
        let k_star_bmd = &mut two_levels::<KStarBmd>(&rt, rt.alloc(), [letter, letter], 100, 4);
        check_factors(&rt, k_star_bmd, Weight::ZERO);
        check_factors(&rt, k_star_bmd, Weight::ONE);
    }
}
