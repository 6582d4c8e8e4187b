//! Multiples of edges to nodes, by a walk whose pending work stands in frames.
ghost use Rattle.std.specs.Prelude.{◌≡◌, ◌≤◌, length, vec_capacity};
ghost use Rattle.tables.specs.Table.{multiple};
ghost use Rattle.tables.specs.Pieces.{scale_work};
ghost use Rattle.kind_laws.specs.Plain.{plain, answered};
ghost use Rattle.diagram.specs.Calls.{IsOfEach};
ghost use Rattle.diagram.specs.Frames.{Begins};
ghost use Rattle.diagram.specs.Multiples.{IsWaiting, Resumes, multiples, plain_multiple};
ghost use Rattle.diagram.specs.View.{View, IsEdge, top_of, Keeps};

use crate::limit::Limit;
use crate::manager::Manager;
use crate::operation::Operation;
use crate::step::Step;
use kind_laws::{Edge, Kind};
use record_store::Store;
use result_cache::HashedKey;
use word_base::Weight;

/// A multiple that waits for that of a part of its operand.
#[derive(Drop)]
pub(crate) struct MultipleFrame<K: Kind, X = <K as Kind>::Extra> {
    key: HashedKey,
    level: u16,
    /// Whether the multiple of the low part is known.
    has_low: bool,
    /// The multiple of the low part where it is known, and else the high part.
    part: Edge<K, X>,
}

/// The multiple of an edge to a node.
pub(crate) fn multiple_of<K: Kind, S: Store>(
    manager: &mut Manager<K, S>,
    frames: &mut Vec<MultipleFrame<K>>,
    factor: Weight,
    a: Edge<K>,
) -> Result<Edge<K>, Limit>
    requires good { IsEdge K.NAME manager.old (plain K.extra_of a) }
    requires room { length manager.old.letters ≤ vec_capacity frames.old }
    ensures room { vec_capacity frames.new ≡ vec_capacity frames.old }
    ensures keeps { Keeps manager.old manager.new }
    ensures multiple { IsOfEach (multiple factor) (scale_work factor) K.NAME manager.old manager.new (plain K.extra_of a)
        (answered (plain K.extra_of) result) }
{
    frames.clear();
    let mut step = Step::Below(a);
    loop {
        match step {
            Step::Below(part) => {
                let next = begin(manager, frames, factor, part)?;
                step = next;
            }
            Step::Answer(multiple) => {
                let waiting = frames.len();
                if waiting == 0 {
                    return Ok(multiple);
                }
                match resume(manager, factor, &mut frames[waiting - 1], multiple)? {
                    Step::Below(part) => step = Step::Below(part),
                    Step::Answer(multiple) => {
                        frames.truncate(waiting - 1);
                        step = Step::Answer(multiple);
                    }
                }
            }
        }
    }
}

/// Begins the multiple of an edge: it is known, or waits in a new frame for that of the low part.
fn begin<K: Kind, S: Store>(
    manager: &mut Manager<K, S>,
    frames: &mut Vec<MultipleFrame<K>>,
    factor: Weight,
    a: Edge<K>,
) -> Result<Step<Edge<K>, Edge<K>>, Limit>
    requires good { IsEdge K.NAME manager.old (plain K.extra_of a) }
    requires room { length manager.old.letters ≤ vec_capacity frames.old }
    requires place { length frames.old.items ≤ top_of manager.old a.node }
    ensures unchanged { manager.new ≡ manager.old }
    ensures room { vec_capacity frames.new ≡ vec_capacity frames.old }
    ensures begins { Begins (multiples factor K.NAME K.extra_of) manager.old (plain K.extra_of a)
        frames.old.items frames.new.items result }
{
    if a.node == 0 {
        let multiple = manager.constant_of(factor.mul(K::value(a)))?;
        return Ok(Step::Answer(multiple));
    }
    let constant = manager.constant(factor);
    if let Some(multiple) = manager.product_at_once(constant, a) {
        return Ok(Step::Answer(multiple));
    }
    let key = Operation::Product.key(constant, a);
    if let Some(multiple) = manager.look_up(&key) {
        return Ok(Step::Answer(multiple));
    }
    let (level, low, part) = manager.split_one(a)?;
    frames.push_reserved(MultipleFrame {
        key,
        level,
        has_low: false,
        part,
    });
    Ok(Step::Below(low))
}

/// Goes on with a multiple, where that of the part is known for which it waits.
fn resume<K: Kind, S: Store>(
    manager: &mut Manager<K, S>,
    factor: Weight,
    frame: &mut MultipleFrame<K>,
    known: Edge<K>,
) -> Result<Step<Edge<K>, Edge<K>>, Limit>
    requires waiting { IsWaiting factor K.NAME manager.old (plain_multiple K.extra_of frame.old) (plain K.extra_of known) }
    ensures keeps { Keeps manager.old manager.new }
    ensures resumes { Resumes factor K.NAME K.extra_of manager.old manager.new (plain_multiple K.extra_of frame.old)
        (plain_multiple K.extra_of frame.new) (plain K.extra_of known) result }
{
    if frame.has_low {
        let multiple = manager.join(frame.level, frame.part, known)?;
        manager.remember(&frame.key, multiple);
        return Ok(Step::Answer(multiple));
    }
    let high = frame.part;
    frame.part = known;
    frame.has_low = true;
    Ok(Step::Below(high))
}
