//! Products of edges, by a walk whose pending work stands in frames.
ghost use Rattle.std.specs.Prelude.{◌≡◌, ◌≤◌, length, vec_capacity};
ghost use Rattle.tables.specs.Table.{times};
ghost use Rattle.kind_laws.specs.Plain.{plain, answered};
ghost use Rattle.kind_laws.specs.Scale.{MayScale};
ghost use Rattle.diagram.specs.Calls.{IsOfBoth, upper};
ghost use Rattle.diagram.specs.Frames.{Begins};
ghost use Rattle.diagram.specs.ProductFrames.{BeginsRests, Completes, HasBoth, IsWaiting, PutsBack, Resumes, ResumesBelow, Finishes, plain_product, products};
ghost use Rattle.diagram.specs.Products.{AreSome, product_work};
ghost use Rattle.diagram.specs.View.{View, IsEdge, Keeps};
ghost use Rattle.diagram.specs.declared.product_walk.Stage.TheVariants as awaits;

use crate::limit::Limit;
use crate::manager::Manager;
use crate::operation::Operation;
use crate::parts::are_constants;
use crate::step::Step;
use crate::sum_walk::{SumFrame, sum_of};
use kind_laws::{Edge, Kind};
use record_store::Store;
use result_cache::HashedKey;
use word_base::{Decomp, Weight};

/// Which product of two parts a frame waits for. At Shannon there are only that of the low parts and that of the high ones.
#[derive(Clone, Copy, Debug, PartialEq, Eq)]
pub(crate) enum Stage {
    Low,
    LowHigh,
    HighLow,
    High,
}

/// A product that waits for that of parts of its operands.
#[derive(Drop)]
pub(crate) struct ProductFrame<K: Kind, X = <K as Kind>::Extra> {
    key: HashedKey,
    level: u16,
    stage: Stage,
    /// The scales of the operands, which the product gets back.
    first_scale: Weight,
    second_scale: Weight,
    /// The low part of the first operand, until the product of the low parts is known and takes its place.
    low: Edge<K, X>,
    /// The low part of the second operand, until the product of a low part by the high one is known, and then the sum of both such products.
    mixed: Edge<K, X>,
    /// The high parts.
    high: (Edge<K, X>, Edge<K, X>),
}

/// The product of two edges.
pub(crate) fn product_of<K: Kind, S: Store>(
    manager: &mut Manager<K, S>,
    sums: &mut Vec<SumFrame<K>>,
    frames: &mut Vec<ProductFrame<K>>,
    a: Edge<K>,
    b: Edge<K>,
) -> Result<Edge<K>, Limit>
    requires a_good { IsEdge K.NAME manager.old (plain K.extra_of a) }
    requires b_good { IsEdge K.NAME manager.old (plain K.extra_of b) }
    requires sums_room { length manager.old.letters ≤ vec_capacity sums.old }
    requires room { length manager.old.letters ≤ vec_capacity frames.old }
    ensures sums_room { vec_capacity sums.new ≡ vec_capacity sums.old }
    ensures room { vec_capacity frames.new ≡ vec_capacity frames.old }
    ensures keeps { Keeps manager.old manager.new }
    ensures product { IsOfBoth times (product_work manager.old.letters) K.NAME manager.old manager.new
        (plain K.extra_of a) (plain K.extra_of b) (answered (plain K.extra_of) result) }
{
    frames.clear();
    let mut step = Step::Below((a, b));
    loop {
        match step {
            Step::Below(pair) => step = begin(manager, frames, pair.0, pair.1)?,
            Step::Answer(product) => {
                let waiting = frames.len();
                if waiting == 0 {
                    return Ok(product);
                }
                match resume(manager, sums, &mut frames[waiting - 1], product)? {
                    Step::Below(pair) => step = Step::Below(pair),
                    Step::Answer(product) => {
                        frames.truncate(waiting - 1);
                        step = Step::Answer(product);
                    }
                }
            }
        }
    }
}

/// Begins the product of two edges: it is known, or waits in a new frame for that of the low parts.
fn begin<K: Kind, S: Store>(
    manager: &mut Manager<K, S>,
    frames: &mut Vec<ProductFrame<K>>,
    a: Edge<K>,
    b: Edge<K>,
) -> Result<Step<(Edge<K>, Edge<K>), Edge<K>>, Limit>
    requires a_good { IsEdge K.NAME manager.old (plain K.extra_of a) }
    requires b_good { IsEdge K.NAME manager.old (plain K.extra_of b) }
    requires room { length manager.old.letters ≤ vec_capacity frames.old }
    requires place { length frames.old.items ≤ upper manager.old (plain K.extra_of a) (plain K.extra_of b) }
    ensures room { vec_capacity frames.new ≡ vec_capacity frames.old }
    ensures unchanged { manager.new ≡ manager.old }
    ensures begins { Begins (products K.NAME K.extra_of) manager.old (plain K.extra_of a, plain K.extra_of b)
        frames.old.items frames.new.items result }
{
    if are_constants(a, b) {
        let product = manager.constant_of(K::value(a).mul(K::value(b)))?;
        return Ok(Step::Answer(product));
    }
    if manager.is_constant(a, Weight::ZERO) {
        return Ok(Step::Answer(a));
    }
    if manager.is_constant(b, Weight::ZERO) {
        return Ok(Step::Answer(b));
    }
    begin_rests(manager, frames, a, b)
}

/// Begins the product of two edges of which none is the constant 0, by that of what is left without their scales.
fn begin_rests<K: Kind, S: Store>(
    manager: &mut Manager<K, S>,
    frames: &mut Vec<ProductFrame<K>>,
    a: Edge<K>,
    b: Edge<K>,
) -> Result<Step<(Edge<K>, Edge<K>), Edge<K>>, Limit>
    requires a_good { IsEdge K.NAME manager.old (plain K.extra_of a) }
    requires b_good { IsEdge K.NAME manager.old (plain K.extra_of b) }
    requires some_node { (a.node ≡ 0) × (b.node ≡ 0) → ⊥ }
    requires some { AreSome K.NAME (plain K.extra_of a) (plain K.extra_of b) }
    requires room { length manager.old.letters ≤ vec_capacity frames.old }
    requires place { length frames.old.items ≤ upper manager.old (plain K.extra_of a) (plain K.extra_of b) }
    ensures room { vec_capacity frames.new ≡ vec_capacity frames.old }
    ensures unchanged { manager.new ≡ manager.old }
    ensures begins { Begins (products K.NAME K.extra_of) manager.old (plain K.extra_of a, plain K.extra_of b)
        frames.old.items frames.new.items result }
{
    let (first_scale, first) = K::take_scale(a);
    let (second_scale, second) = K::take_scale(b);
    begin_unscaled(manager, frames, first_scale, second_scale, first, second)
}

/// Begins the product of two edges without their scales, which it gets back.
fn begin_unscaled<K: Kind, S: Store>(
    manager: &mut Manager<K, S>,
    frames: &mut Vec<ProductFrame<K>>,
    first_scale: Weight,
    second_scale: Weight,
    first: Edge<K>,
    second: Edge<K>,
) -> Result<Step<(Edge<K>, Edge<K>), Edge<K>>, Limit>
    requires first_good { IsEdge K.NAME manager.old (plain K.extra_of first) }
    requires second_good { IsEdge K.NAME manager.old (plain K.extra_of second) }
    requires some_node { (first.node ≡ 0) × (second.node ≡ 0) → ⊥ }
    requires first_scale { MayScale K.NAME first_scale }
    requires second_scale { MayScale K.NAME second_scale }
    requires room { length manager.old.letters ≤ vec_capacity frames.old }
    requires place { length frames.old.items ≤ upper manager.old (plain K.extra_of first) (plain K.extra_of second) }
    ensures room { vec_capacity frames.new ≡ vec_capacity frames.old }
    ensures unchanged { manager.new ≡ manager.old }
    ensures begins { BeginsRests K.NAME K.extra_of manager.old (plain K.extra_of first) (plain K.extra_of second) first_scale second_scale
        frames.old.items frames.new.items result }
{
    if let Some(rest) = manager.product_at_once(first, second) {
        let product = put_back(first_scale, second_scale, rest)?;
        return Ok(Step::Answer(product));
    }
    let key = Operation::Product.key(first, second);
    if let Some(rest) = manager.look_up(&key) {
        let whole = put_back(first_scale, second_scale, rest)?;
        return Ok(Step::Answer(whole));
    }
    let split = manager.split(first, second)?;
    let frame = ProductFrame {
        key,
        level: split.level,
        stage: Stage::Low,
        first_scale,
        second_scale,
        low: split.parts.low.0,
        mixed: split.parts.low.1,
        high: split.parts.high,
    };
    let low = (frame.low, frame.mixed);
    frames.push_reserved(frame);
    Ok(Step::Below(low))
}

/// A product of edges without their scales, with the scales.
fn put_back<K: Kind>(
    first_scale: Weight,
    second_scale: Weight,
    rest: Edge<K>,
) -> Result<Edge<K>, Limit>
    requires first { MayScale K.NAME first_scale }
    requires second { MayScale K.NAME second_scale }
    ensures { PutsBack K.NAME first_scale second_scale (plain K.extra_of rest) (answered (plain K.extra_of) result) }
{
    let multiple = K::put_scale(second_scale, rest)?;
    let product = K::put_scale(first_scale, multiple)?;
    Ok(product)
}

/// Goes on with a product, where that of the parts is known for which it waits.
fn resume<K: Kind, S: Store>(
    manager: &mut Manager<K, S>,
    sums: &mut Vec<SumFrame<K>>,
    frame: &mut ProductFrame<K>,
    known: Edge<K>,
) -> Result<Step<(Edge<K>, Edge<K>), Edge<K>>, Limit>
    requires waiting { IsWaiting K.NAME manager.old (plain_product K.extra_of frame.old) (plain K.extra_of known) }
    requires sums_room { length manager.old.letters ≤ vec_capacity sums.old }
    ensures sums_room { vec_capacity sums.new ≡ vec_capacity sums.old }
    ensures keeps { Keeps manager.old manager.new }
    ensures resumes { Resumes K.NAME K.extra_of manager.old manager.new (plain_product K.extra_of frame.old)
        (plain_product K.extra_of frame.new) (plain K.extra_of known) result }
{
    match frame.stage {
        Stage::Low => Ok(Step::Below(after_low(manager, frame, known))),
        Stage::LowHigh => Ok(Step::Below(after_low_high(frame, known))),
        Stage::HighLow => after_high_low(manager, sums, frame, known),
        Stage::High => {
            let product = after_high(manager, sums, frame, known)?;
            Ok(Step::Answer(product))
        }
    }
}

/// Goes on where the product of the low parts is known.
fn after_low<K: Kind, S: Store>(
    manager: &Manager<K, S>,
    frame: &mut ProductFrame<K>,
    known: Edge<K>,
) -> (Edge<K>, Edge<K>)
    requires waiting { IsWaiting K.NAME manager.now (plain_product K.extra_of frame.old) (plain K.extra_of known) }
    requires stage { frame.old.stage ≡ awaits.Low }
    ensures { ResumesBelow K.NAME K.extra_of manager.now (plain_product K.extra_of frame.old) (plain_product K.extra_of frame.new)
        (plain K.extra_of known) result }
{
    let letter = manager.letter(frame.level);
    let first = frame.low;
    frame.low = known;
    if letter == Decomp::S {
        frame.stage = Stage::High;
        return frame.high;
    }
    frame.stage = Stage::LowHigh;
    (first, frame.high.1)
}

/// Goes on where the product of the low part by the high one is known.
fn after_low_high<K: Kind>(frame: &mut ProductFrame<K>, known: Edge<K>) -> (Edge<K>, Edge<K>)
    requires { frame.old.stage ≡ awaits.LowHigh }
    ensures { (v : View) → ResumesBelow K.NAME K.extra_of v (plain_product K.extra_of frame.old) (plain_product K.extra_of frame.new)
        (plain K.extra_of known) result }
{
    let second = frame.mixed;
    frame.mixed = known;
    frame.stage = Stage::HighLow;
    (frame.high.0, second)
}

/// Goes on where the product of the high part by the low one is known.
fn after_high_low<K: Kind, S: Store>(
    manager: &mut Manager<K, S>,
    sums: &mut Vec<SumFrame<K>>,
    frame: &mut ProductFrame<K>,
    known: Edge<K>,
) -> Result<Step<(Edge<K>, Edge<K>), Edge<K>>, Limit>
    requires waiting { IsWaiting K.NAME manager.old (plain_product K.extra_of frame.old) (plain K.extra_of known) }
    requires stage { frame.old.stage ≡ awaits.HighLow }
    requires sums_room { length manager.old.letters ≤ vec_capacity sums.old }
    ensures sums_room { vec_capacity sums.new ≡ vec_capacity sums.old }
    ensures keeps { Keeps manager.old manager.new }
    ensures resumes { Resumes K.NAME K.extra_of manager.old manager.new (plain_product K.extra_of frame.old)
        (plain_product K.extra_of frame.new) (plain K.extra_of known) result }
{
    let mixed = sum_of(manager, sums, frame.mixed, known)?;
    frame.mixed = mixed;
    frame.stage = Stage::High;
    Ok(Step::Below(frame.high))
}

/// Ends where the product of the high parts is known.
fn after_high<K: Kind, S: Store>(
    manager: &mut Manager<K, S>,
    sums: &mut Vec<SumFrame<K>>,
    frame: &ProductFrame<K>,
    known: Edge<K>,
) -> Result<Edge<K>, Limit>
    requires waiting { IsWaiting K.NAME manager.old (plain_product K.extra_of frame.now) (plain K.extra_of known) }
    requires stage { frame.now.stage ≡ awaits.High }
    requires sums_room { length manager.old.letters ≤ vec_capacity sums.old }
    ensures sums_room { vec_capacity sums.new ≡ vec_capacity sums.old }
    ensures keeps { Keeps manager.old manager.new }
    ensures product { Finishes K.NAME manager.old manager.new (plain_product K.extra_of frame.now) (plain K.extra_of known)
        (answered (plain K.extra_of) result) }
{
    let letter = manager.letter(frame.level);
    if letter == Decomp::S {
        return complete(manager, frame, known);
    }
    let high = sum_of(manager, sums, frame.mixed, known)?;
    complete(manager, frame, high)
}

/// The product of which the low and the high part are known.
fn complete<K: Kind, S: Store>(
    manager: &mut Manager<K, S>,
    frame: &ProductFrame<K>,
    high: Edge<K>,
) -> Result<Edge<K>, Limit>
    requires { HasBoth K.NAME manager.old (plain_product K.extra_of frame.now) (plain K.extra_of high) }
    ensures keeps { Keeps manager.old manager.new }
    ensures product { Completes K.NAME manager.old manager.new (plain_product K.extra_of frame.now) (plain K.extra_of high)
        (answered (plain K.extra_of) result) }
{
    let rest = manager.join(frame.level, frame.low, high)?;
    manager.remember(&frame.key, rest);
    put_back(frame.first_scale, frame.second_scale, rest)
}
