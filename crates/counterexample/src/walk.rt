ghost use Rattle.std.specs.Prelude.{◌≡◌, ℕ, ◌+◌, ◌<◌, length, drop, OnOk};
ghost use Rattle.word_base.specs.declared.decomp.Decomp.{Decomp as letter};
ghost use Rattle.tables.specs.Table.{Table};
ghost use Rattle.checks.specs.Work.{walk};
ghost use Rattle.kind_laws.specs.Plain.{plain, answered};
ghost use Rattle.diagram.specs.Answers.{Causes};
ghost use Rattle.diagram.specs.Calls.{CanPart};
ghost use Rattle.diagram.specs.View.{View, StandsAt, Keeps};
ghost use Rattle.counterexample.specs.Steps.{plain_choice, plain_turn, Offers, GoesTo, IsChoice, IsTurn};
ghost use Rattle.counterexample.specs.Walk.{LiesFrom, Differ, IsFirstAt};

use diagram::{Builder, Limit};
use kind_laws::{Edge, Kind};
use record_store::Store;
use word_base::{Assign, Decomp};

/// The edge by which a step of the walk chooses, and the one to which it goes where the tried ones are the same.
#[derive(Clone, Copy)]
struct Choice<K: Kind, X = <K as Kind>::Extra> {
    tried: Edge<K, X>,
    other: Edge<K, X>,
}

/// One step of a walk: the bit of a level, and the edges that it goes on with below the level.
#[derive(Clone, Copy)]
struct Turn<K: Kind, X = <K as Kind>::Extra> {
    bit: bool,
    left: Edge<K, X>,
    right: Edge<K, X>,
}

/// What a step has to choose from on one side. The tried edge stands for the low half: at Shannon and positive Davio it
/// is the low part, at negative Davio, whose low part is the high half, the sum of both parts. Where the low halves of
/// both sides are the same, the other edges differ just where the high halves do.
fn split<K: Kind, S: Store>(
    builder: &mut Builder<K, S>,
    level: u16,
    edge: Edge<K>,
) -> Result<Choice<K>, Limit>
    requires { CanPart K.NAME builder.old level (plain K.extra_of edge) }
    ensures keeps { Keeps builder.old builder.new }
    ensures choice { IsChoice K.NAME builder.old builder.new level (plain K.extra_of edge)
        (answered (plain_choice K.extra_of) result) }
{
    let (low, high) = builder.parts(edge, level)?;
    match builder.letter(level) {
        Decomp::S | Decomp::P => Ok(Choice {
            tried: low,
            other: high,
        }),
        Decomp::N => {
            let sum = builder.add(low, high)?;
            Ok(Choice {
                tried: sum,
                other: low,
            })
        }
    }
}

/// To the tried edges of both sides where they differ, and else to the others.
fn choose<K: Kind, S: Store>(builder: &Builder<K, S>, left: Choice<K>, right: Choice<K>) -> Turn<K>
    ensures { (d : letter) (level : ℕ) (t u : Table) →
        Offers K.NAME builder.now d level t (plain_choice K.extra_of left) →
        Offers K.NAME builder.now d level u (plain_choice K.extra_of right) →
        GoesTo K.NAME builder.now d level t u (plain_turn K.extra_of result) }
{
    if builder.same(left.tried, right.tried) {
        Turn {
            bit: true,
            left: left.other,
            right: right.other,
        }
    } else {
        Turn {
            bit: false,
            left: left.tried,
            right: right.tried,
        }
    }
}

/// One step of the walk, at a level above which the two edges have no node.
fn step<K: Kind, S: Store>(
    builder: &mut Builder<K, S>,
    level: u16,
    left: Edge<K>,
    right: Edge<K>,
) -> Result<Turn<K>, Limit>
    requires left { CanPart K.NAME builder.old level (plain K.extra_of left) }
    requires right { CanPart K.NAME builder.old level (plain K.extra_of right) }
    ensures keeps { Keeps builder.old builder.new }
    ensures turn { IsTurn K.NAME builder.old builder.new level (plain K.extra_of left) (plain K.extra_of right)
        (answered (plain_turn K.extra_of) result) }
{
    let first = split(builder, level, left)?;
    let second = split(builder, level, right)?;
    Ok(choose(builder, first, second))
}

/// Makes `into` the bits of the first assignment at which the tables of two edges over the levels from `top` on differ.
/// The bit of level `top` comes first, then those of the levels below it in turn. The first assignment is meant in the
/// order of a table's entries: the bit of an upper level counts more than all below it, and 0 comes before 1. What
/// `into` was does not matter, and after a refusal it may hold any bits.
pub fn first_difference<K: Kind, S: Store>(
    builder: &mut Builder<K, S>,
    top: u16,
    left: Edge<K>,
    right: Edge<K>,
    into: &mut Assign,
) -> Result<(), Limit>
    requires left_lies { LiesFrom K.NAME builder.old top (plain K.extra_of left) }
    requires right_lies { LiesFrom K.NAME builder.old top (plain K.extra_of right) }
    requires differ { Differ K.NAME builder.old top (plain K.extra_of left) (plain K.extra_of right) }
    requires bits { length into.old + top ≡ length builder.old.letters }
    ensures keeps { Keeps builder.old builder.new }
    ensures first { OnOk result ((t u : Table) → StandsAt K.NAME builder.old top t (plain K.extra_of left) →
        StandsAt K.NAME builder.old top u (plain K.extra_of right) → IsFirstAt t u into.new) }
    ensures bits { length into.new ≡ length into.old }
    ensures causes { (t u : Table) → StandsAt K.NAME builder.old top t (plain K.extra_of left) →
        StandsAt K.NAME builder.old top u (plain K.extra_of right) →
        Causes K.NAME builder.old builder.new (walk (drop top builder.old.letters) top t u) result }
{
    let mut left = left;
    let mut right = right;
    let levels = builder.levels();
    for level in top..levels {
        let turn = step(builder, level, left, right)?;
        into.set(level - top, turn.bit);
        left = turn.left;
        right = turn.right;
    }
    Ok(())
}
