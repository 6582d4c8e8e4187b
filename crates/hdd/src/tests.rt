ghost use Rattle.word_base.specs.declared.kind_name.KindName.TheVariants.{Hdd as hdd};
ghost use Rattle.kind_laws.specs.Kind.{IsRooted};
ghost use Rattle.kind_laws.specs.Plain.{plain, no_extra};

use super::*;
use kind_laws::{Edge, Fields, Joined, Kind, pack_body};
use std::marker::PhantomData;
use std::process::Abort;
use word_base::{Decomp, Overflow, Weight};

fn number(rt: &impl Abort, value: i128) -> Weight {
    Weight::new(value).expect(rt, "a number in range")
}

fn constant(rt: &impl Abort, value: i128) -> Edge<Hdd>
    ensures { IsRooted hdd (plain no_extra result) }
{
    Hdd::constant(number(rt, value))
}

/// A constant's edge, taken apart and put together again.
fn put_back<K: Kind>(value: Weight) -> Result<Edge<K>, Overflow> {
    let (scale, rest) = K::take_scale(K::constant(value));
    let edge = K::put_scale(scale, rest)?;
    let (shift, rest) = K::take_shift(edge);
    let edge = K::put_shift(shift, rest)?;
    Ok(K::unpack(K::pack(edge)))
}

#[test]
fn constants_are_put_back(rt: HostRuntime) {
    for value in [0, 1, -6, i128::MAX] {
        let value = number(&rt, value);
        assert_eq!(rt; put_back(value), Ok(Hdd::constant(value)));
    }
}

/// An edge to a node.
fn to_node(node: u32) -> Edge<Hdd>
    ensures { IsRooted hdd (plain no_extra result) }
{
    Edge {
        weight: Weight::ZERO,
        extra: (),
        node,
        kind: PhantomData,
    }
}

fn made(body: [u64; 8]) -> Result<Joined<Hdd>, Overflow> {
    Ok(Joined::Node {
        weight: Weight::ZERO,
        extra: (),
        body,
    })
}

fn skip(edge: Edge<Hdd>) -> Result<Joined<Hdd>, Overflow> {
    Ok(Joined::Skip(edge))
}

#[test]
fn joins_at_shannon(rt: HostRuntime) {
    let joined = Hdd::join(0, Decomp::S, constant(&rt, 5), constant(&rt, 5));
    assert_eq!(rt; joined, skip(constant(&rt, 5)));
    let joined = Hdd::join(0, Decomp::S, to_node(3), to_node(3));
    assert_eq!(rt; joined, skip(to_node(3)));
    // two edges with the weight 0
    let joined = Hdd::join(2, Decomp::S, constant(&rt, 0), to_node(3));
    assert_eq!(rt; joined, made([3, 3 << 32, 0, 0, 0, 0, 0, 0]));
    // two constants
    let joined = Hdd::join(2, Decomp::S, constant(&rt, 5), constant(&rt, 0));
    assert_eq!(rt; joined, made([3, 0, 5, 0, 0, 0, 0, 0]));
}

#[test]
fn joins_at_davio(rt: HostRuntime) {
    for letter in [Decomp::P, Decomp::N] {
        let joined = Hdd::join(0, letter, constant(&rt, 5), constant(&rt, 0));
        assert_eq!(rt; joined, skip(constant(&rt, 5)));
        // an edge of weight 0 is no constant where it has a node
        let joined = Hdd::join(1, letter, constant(&rt, 5), to_node(3));
        assert_eq!(rt; joined, made([2, 3 << 32, 5, 0, 0, 0, 0, 0]));
        // two same edges are no skip
        let joined = Hdd::join(1, letter, constant(&rt, 5), constant(&rt, 5));
        assert_eq!(rt; joined, made([2, 0, 5, 0, 0, 0, 5, 0]));
    }
}

#[test]
fn parts_and_content(rt: HostRuntime) {
    let body = pack_body(Fields {
        level: 2,
        low: 0,
        high: 0,
        low_weight: number(&rt, 4),
        added: Weight::ZERO,
        high_weight: number(&rt, -6),
    });
    for letter in [Decomp::S, Decomp::P, Decomp::N] {
        let parts = Hdd::parts(to_node(1), &body, letter);
        assert_eq!(rt; parts, Ok((constant(&rt, 4), constant(&rt, -6))));
    }
    assert_eq!(rt; Hdd::body_content(&body), Weight::TWO);
    assert_eq!(rt; Hdd::edge_content(constant(&rt, -6)), number(&rt, 6));
}
