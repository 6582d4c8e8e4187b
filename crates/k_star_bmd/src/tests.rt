ghost use Rattle.std.specs.Prelude.{◌≡◌};
ghost use Rattle.word_base.specs.declared.kind_name.KindName.TheVariants.{KStarBmd as k_star_bmd};
ghost use Rattle.kind_laws.specs.Kind.{IsRooted};
ghost use Rattle.kind_laws.specs.Plain.{plain};
ghost use Rattle.k_star_bmd.specs.Additive.{own_extra};

use super::*;
use kind_laws::{Edge, Fields, Joined, Kind, pack_body};
use std::marker::PhantomData;
use std::process::Abort;
use word_base::{Decomp, Overflow, Weight};

fn number(rt: &impl Abort, value: i128) -> Weight
    ensures { result ≡ value }
{
    Weight::new(value).expect(rt, "a number in range")
}

/// The edge with these weights to the node: one that multiplies by 0 leads to the leaf, and no other does.
fn edge(rt: &impl Abort, extra: i128, weight: i128, node: u32) -> Edge<KStarBmd>
    ensures { IsRooted k_star_bmd (plain own_extra result) }
{
    assert_eq!(rt; weight == 0, node == 0);
    Edge {
        weight: number(rt, weight),
        extra: number(rt, extra),
        node,
        kind: PhantomData,
    }
}

/// A constant's edge, taken apart and put together again.
fn put_back<K: Kind>(value: Weight) -> Result<Edge<K>, Overflow> {
    let (scale, rest) = K::take_scale(K::constant(value));
    let edge = K::put_scale(scale, rest)?;
    let (shift, rest) = K::take_shift(edge);
    let edge = K::put_shift(shift, rest)?;
    Ok(K::unpack(K::pack(edge)))
}

#[test]
fn constants_are_put_back(rt: HostRuntime) {
    for value in [0, 1, -6, i128::MAX] {
        let value = number(&rt, value);
        assert_eq!(rt; put_back(value), Ok(KStarBmd::constant(value)));
    }
}

/// Two edges join at level 1 to the edge with this weight to the node with this body. It has the low edge's additive weight.
fn join_to_node(
    rt: &impl Abort,
    letter: Decomp,
    (a0, m0, v0): (i128, i128, u32),
    (a1, m1, v1): (i128, i128, u32),
    divisor: i128,
    body: [u64; 8],
) {
    let joined = KStarBmd::join(1, letter, edge(rt, a0, m0, v0), edge(rt, a1, m1, v1));
    let weight = number(rt, divisor);
    let extra = number(rt, a0);
    let made = Joined::Node {
        weight,
        extra,
        body,
    };
    assert_eq!(rt; joined, Ok(made));
}

#[test]
fn joins_at_shannon(rt: HostRuntime) {
    for (a, m, v) in [(5, 0, 0), (5, 2, 3)] {
        let skip = KStarBmd::join(1, Decomp::S, edge(&rt, a, m, v), edge(&rt, a, m, v));
        assert_eq!(rt; skip, Ok(Joined::Skip(edge(&rt, a, m, v))));
    }
    let (top, minus_three) = (u64::MAX, u64::MAX - 2);
    for (low, high, divisor, body) in [
        // two constants have their difference as the divisor
        ((6, 0, 0), (-4, 0, 0), -10, [2, 0, 0, 0, 1, 0, 0, 0]),
        (
            (5, 2, 3),
            (5, 4, 7),
            2,
            [2, 3 + (7 << 32), 1, 0, 0, 0, 2, 0],
        ),
        ((1, 0, 0), (1, -3, 5), -3, [2, 5 << 32, 0, 0, 0, 0, 1, 0]),
        (
            (3, -4, 3),
            (9, 6, 3),
            -2,
            [2, 3 + (3 << 32), 2, 0, minus_three, top, minus_three, top],
        ),
        (
            (i128::MAX, 0, 0),
            (0, 0, 0),
            -i128::MAX,
            [2, 0, 0, 0, 1, 0, 0, 0],
        ),
    ] {
        join_to_node(&rt, Decomp::S, low, high, divisor, body);
    }
    let low = edge(&rt, -1, 2, 3);
    let high = edge(&rt, i128::MAX, 2, 3);
    assert_eq!(rt; KStarBmd::join(1, Decomp::S, low, high), Err(Overflow));
}

#[test]
fn joins_at_davio(rt: HostRuntime) {
    let (top, minus_six, minus_nine) = (u64::MAX, u64::MAX - 5, u64::MAX - 8);
    for letter in [Decomp::P, Decomp::N] {
        let skip = KStarBmd::join(1, letter, edge(&rt, 5, 2, 3), edge(&rt, 0, 0, 0));
        assert_eq!(rt; skip, Ok(Joined::Skip(edge(&rt, 5, 2, 3))));
        for (low, high, divisor, body) in [
            // two same edges are no skip
            ((5, 0, 0), (5, 0, 0), 5, [2, 0, 0, 0, 1, 0, 0, 0]),
            (
                (3, -4, 3),
                (9, 6, 3),
                -1,
                [2, 3 + (3 << 32), 4, 0, minus_nine, top, minus_six, top],
            ),
            // no difference is made
            (
                (-1, 0, 0),
                (i128::MAX, 0, 0),
                i128::MAX,
                [2, 0, 0, 0, 1, 0, 0, 0],
            ),
        ] {
            join_to_node(&rt, letter, low, high, divisor, body);
        }
    }
}

/// The parts of an edge to a node whose edges have these weights, and lead to nodes 4 and 3.
fn parts(
    rt: &impl Abort,
    letter: Decomp,
    (extra, weight): (i128, i128),
    (m0, b, m1): (i128, i128, i128),
) -> Result<(Edge<KStarBmd>, Edge<KStarBmd>), Overflow> {
    let body = pack_body(Fields {
        level: 2,
        low: 4,
        high: 3,
        low_weight: number(rt, m0),
        added: number(rt, b),
        high_weight: number(rt, m1),
    });
    KStarBmd::parts(edge(rt, extra, weight, 9), &body, letter)
}

#[test]
fn parts_are_products(rt: HostRuntime) {
    // at Shannon the high part has the additive weight of the root too
    for (letter, extra) in [(Decomp::S, 0), (Decomp::P, -10), (Decomp::N, -10)] {
        let parts = parts(&rt, letter, (10, -2), (3, 5, -7));
        let wanted = (edge(&rt, 10, -6, 4), edge(&rt, extra, 14, 3));
        assert_eq!(rt; parts, Ok(wanted));
    }
}

#[test]
fn parts_out_of_range(rt: HostRuntime) {
    let most = i128::MAX;
    let large = 1 << 126;
    // the sum alone is out of range, at Shannon
    assert_eq!(rt; parts(&rt, Decomp::S, (most, 1), (1, 1, 1)), Err(Overflow));
    let low = edge(&rt, most, 1, 4);
    let high = edge(&rt, 1, 1, 3);
    assert_eq!(rt;
        parts(&rt, Decomp::P, (most, 1), (1, 1, 1)),
        Ok((low, high))
    );
    for letter in [Decomp::S, Decomp::P, Decomp::N] {
        // at Shannon the product is, though the sum with -1 is not
        for weights in [(1, 2, 1), (2, 1, 1), (1, 1, -2)] {
            let parts = parts(&rt, letter, (-1, large), weights);
            assert_eq!(rt; parts, Err(Overflow));
        }
    }
}

#[test]
fn factors(rt: HostRuntime) {
    // 6 - 4*f is -2 * (-3 + 2*f)
    let taken = KStarBmd::take_scale(edge(&rt, 6, -4, 5));
    assert_eq!(rt; taken, (number(&rt, -2), edge(&rt, -3, 2, 5)));
    let put = KStarBmd::put_scale(number(&rt, -2), edge(&rt, -3, 2, 5));
    assert_eq!(rt; put, Ok(edge(&rt, 6, -4, 5)));
    let taken = KStarBmd::take_scale(edge(&rt, -6, 0, 0));
    assert_eq!(rt; taken, (number(&rt, -6), edge(&rt, 1, 0, 0)));
    let taken = KStarBmd::take_scale(edge(&rt, 0, 0, 0));
    assert_eq!(rt; taken, (Weight::ZERO, edge(&rt, 0, 0, 0)));
    // 0 times an edge to a node is the constant 0
    let none = KStarBmd::put_scale(Weight::ZERO, edge(&rt, -3, 2, 5));
    assert_eq!(rt; none, Ok(edge(&rt, 0, 0, 0)));
    for (extra, weight) in [(1 << 126, 1), (1, 1 << 126)] {
        let large = KStarBmd::put_scale(Weight::TWO, edge(&rt, extra, weight, 5));
        assert_eq!(rt; large, Err(Overflow));
    }
}

#[test]
fn summands(rt: HostRuntime) {
    let taken = KStarBmd::take_shift(edge(&rt, 6, -4, 5));
    assert_eq!(rt; taken, (number(&rt, 6), edge(&rt, 0, -4, 5)));
    let put = KStarBmd::put_shift(number(&rt, -9), edge(&rt, 6, -4, 5));
    assert_eq!(rt; put, Ok(edge(&rt, -3, -4, 5)));
    let large = KStarBmd::put_shift(Weight::ONE, edge(&rt, i128::MAX, -4, 5));
    assert_eq!(rt; large, Err(Overflow));
}

#[test]
fn content(rt: HostRuntime) {
    let content = KStarBmd::edge_content(edge(&rt, 6, -4, 5));
    assert_eq!(rt; content, Weight::TWO);
    let content = KStarBmd::edge_content(edge(&rt, -6, 0, 0));
    assert_eq!(rt; content, number(&rt, 6));
    let body = pack_body(Fields {
        level: 2,
        low: 4,
        high: 3,
        low_weight: Weight::TWO,
        added: Weight::ONE,
        high_weight: Weight::TWO,
    });
    assert_eq!(rt; KStarBmd::body_content(&body), Weight::ZERO);
}
