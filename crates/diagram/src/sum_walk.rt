//! Sums of two edges, by a walk whose pending work stands in frames.
ghost use Rattle.std.specs.Prelude.{◌≡◌, ◌≤◌, length, vec_capacity};
ghost use Rattle.tables.specs.Table.{plus};
ghost use Rattle.tables.specs.Pieces.{add_work};
ghost use Rattle.kind_laws.specs.Plain.{PlainEdge, plain, answered};
ghost use Rattle.kind_laws.specs.Scale.{MayScale, MayShift};
ghost use Rattle.diagram.specs.Calls.{IsOfBoth, upper};
ghost use Rattle.diagram.specs.Frames.{Begins};
ghost use Rattle.diagram.specs.SumFrames.{IsWaiting, Resumes, plain_sum, sums};
ghost use Rattle.diagram.specs.SumRests.{AreRests};
ghost use Rattle.diagram.specs.Sums.{sum_work};
ghost use Rattle.diagram.specs.View.{View, IsEdge, Keeps};

use crate::limit::Limit;
use crate::manager::Manager;
use crate::operation::Operation;
use crate::parts::are_constants;
use crate::step::Step;
use crate::sum_rests::{put_back, reduced, unshifted};
use crate::walk::Walk;
use kind_laws::{Edge, Kind};
use record_store::Store;
use result_cache::HashedKey;
use word_base::Weight;

/// A sum that waits for that of the low or the high parts of its operands.
#[derive(Drop)]
pub(crate) struct SumFrame<K: Kind, X = <K as Kind>::Extra> {
    key: HashedKey,
    level: u16,
    /// The common factor that was taken from the operands.
    factor: Weight,
    /// The sum of the shifts that were taken from the operands.
    shift: Weight,
    /// Whether the sum of the low parts is known.
    has_low: bool,
    /// The sum of the low parts where it is known, and else the high part of the first operand.
    first: Edge<K, X>,
    /// The high part of the second operand.
    second: Edge<K, X>,
}

/// The sum of two edges: by a walk that strips them, and where that overflows by a plain one.
pub(crate) fn sum_of<K: Kind, S: Store>(
    manager: &mut Manager<K, S>,
    frames: &mut Vec<SumFrame<K>>,
    a: Edge<K>,
    b: Edge<K>,
) -> Result<Edge<K>, Limit>
    requires a_good { IsEdge K.NAME manager.old (plain K.extra_of a) }
    requires b_good { IsEdge K.NAME manager.old (plain K.extra_of b) }
    requires room { length manager.old.letters ≤ vec_capacity frames.old }
    ensures room { vec_capacity frames.new ≡ vec_capacity frames.old }
    ensures keeps { Keeps manager.old manager.new }
    ensures sum { IsOfBoth plus add_work K.NAME manager.old manager.new (plain K.extra_of a) (plain K.extra_of b)
        (answered (plain K.extra_of) result) }
{
    match sum_by(manager, frames, Walk::Stripping, a, b) {
        Ok(sum) => Ok(sum),
        Err(Limit::Full) => Err(Limit::Full),
        Err(Limit::Overflow) => sum_by(manager, frames, Walk::Plain, a, b),
    }
}

/// The sum of two edges by a walk.
fn sum_by<K: Kind, S: Store>(
    manager: &mut Manager<K, S>,
    frames: &mut Vec<SumFrame<K>>,
    walk: Walk,
    a: Edge<K>,
    b: Edge<K>,
) -> Result<Edge<K>, Limit>
    requires a_good { IsEdge K.NAME manager.old (plain K.extra_of a) }
    requires b_good { IsEdge K.NAME manager.old (plain K.extra_of b) }
    requires room { length manager.old.letters ≤ vec_capacity frames.old }
    ensures room { vec_capacity frames.new ≡ vec_capacity frames.old }
    ensures keeps { Keeps manager.old manager.new }
    ensures sum { IsOfBoth plus (sum_work walk) K.NAME manager.old manager.new (plain K.extra_of a) (plain K.extra_of b)
        (answered (plain K.extra_of) result) }
{
    frames.clear();
    let mut step = Step::Below((a, b));
    loop {
        match step {
            Step::Below(parts) => {
                let next = begin(manager, frames, walk, parts.0, parts.1)?;
                step = next;
            }
            Step::Answer(sum) => {
                let waiting = frames.len();
                if waiting == 0 {
                    return Ok(sum);
                }
                match resume(manager, walk, &mut frames[waiting - 1], sum)? {
                    Step::Below(parts) => step = Step::Below(parts),
                    Step::Answer(sum) => {
                        frames.truncate(waiting - 1);
                        step = Step::Answer(sum);
                    }
                }
            }
        }
    }
}

/// Begins the sum of two edges: it is known, or waits in a new frame for that of the low parts.
fn begin<K: Kind, S: Store>(
    manager: &mut Manager<K, S>,
    frames: &mut Vec<SumFrame<K>>,
    walk: Walk,
    a: Edge<K>,
    b: Edge<K>,
) -> Result<Step<(Edge<K>, Edge<K>), Edge<K>>, Limit>
    requires a_good { IsEdge K.NAME manager.old (plain K.extra_of a) }
    requires b_good { IsEdge K.NAME manager.old (plain K.extra_of b) }
    requires room { length manager.old.letters ≤ vec_capacity frames.old }
    requires place { length frames.old.items ≤ upper manager.old (plain K.extra_of a) (plain K.extra_of b) }
    ensures unchanged { manager.new ≡ manager.old }
    ensures room { vec_capacity frames.new ≡ vec_capacity frames.old }
    ensures begins { Begins (sums walk K.NAME K.extra_of) manager.old (plain K.extra_of a, plain K.extra_of b)
        frames.old.items frames.new.items result }
{
    if are_constants(a, b) {
        let constant = manager.constant_of(K::value(a).add(K::value(b)))?;
        return Ok(Step::Answer(constant));
    }
    let (shift, first, second) = unshifted(walk, a, b)?;
    match manager.sum_at_once(first, second) {
        Some(rest) => {
            let sum = put_back(walk, Weight::ONE, shift, rest)?;
            Ok(Step::Answer(sum))
        }
        None => {
            let (factor, first_rest, second_rest) = reduced(walk, first, second)?;
            begin_rests(
                manager,
                frames,
                walk,
                factor,
                shift,
                first_rest,
                second_rest,
            )
        }
    }
}

/// Begins the sum of two edges by that of what is left of them.
fn begin_rests<K: Kind, S: Store>(
    manager: &mut Manager<K, S>,
    frames: &mut Vec<SumFrame<K>>,
    walk: Walk,
    factor: Weight,
    shift: Weight,
    a: Edge<K>,
    b: Edge<K>,
) -> Result<Step<(Edge<K>, Edge<K>), Edge<K>>, Limit>
    requires a_good { IsEdge K.NAME manager.old (plain K.extra_of a) }
    requires b_good { IsEdge K.NAME manager.old (plain K.extra_of b) }
    requires some_node { (a.node ≡ 0) × (b.node ≡ 0) → ⊥ }
    requires may_scale { MayScale K.NAME factor }
    requires may_shift { MayShift K.NAME shift }
    requires room { length manager.old.letters ≤ vec_capacity frames.old }
    requires place { length frames.old.items ≤ upper manager.old (plain K.extra_of a) (plain K.extra_of b) }
    ensures unchanged { manager.new ≡ manager.old }
    ensures room { vec_capacity frames.new ≡ vec_capacity frames.old }
    ensures begins { (both : PlainEdge × PlainEdge) →
        AreRests walk K.NAME manager.old both (plain K.extra_of a, plain K.extra_of b) factor shift →
        Begins (sums walk K.NAME K.extra_of) manager.old both frames.old.items frames.new.items result }
{
    let key = Operation::Sum.key(a, b);
    if let Some(rest) = manager.look_up(&key) {
        let sum = put_back(walk, factor, shift, rest)?;
        return Ok(Step::Answer(sum));
    }
    let split = manager.split(a, b)?;
    frames.push_reserved(SumFrame {
        key,
        level: split.level,
        factor,
        shift,
        has_low: false,
        first: split.parts.high.0,
        second: split.parts.high.1,
    });
    Ok(Step::Below(split.parts.low))
}

/// Goes on with a sum, where that of the parts is known for which it waits.
fn resume<K: Kind, S: Store>(
    manager: &mut Manager<K, S>,
    walk: Walk,
    frame: &mut SumFrame<K>,
    known: Edge<K>,
) -> Result<Step<(Edge<K>, Edge<K>), Edge<K>>, Limit>
    requires waiting { IsWaiting walk K.NAME manager.old (plain_sum K.extra_of frame.old) (plain K.extra_of known) }
    ensures keeps { Keeps manager.old manager.new }
    ensures resumes { Resumes walk K.NAME K.extra_of manager.old manager.new (plain_sum K.extra_of frame.old)
        (plain_sum K.extra_of frame.new) (plain K.extra_of known) result }
{
    if frame.has_low {
        let rest = manager.join(frame.level, frame.first, known)?;
        manager.remember(&frame.key, rest);
        let sum = put_back(walk, frame.factor, frame.shift, rest)?;
        return Ok(Step::Answer(sum));
    }
    let high = (frame.first, frame.second);
    frame.first = known;
    frame.has_low = true;
    Ok(Step::Below(high))
}
