ghost use Rattle.std.specs.Prelude.{◌≡◌, ◌<◌, length};
ghost use Rattle.checks.specs.Work.{step_table, fold_table, gate_table};
ghost use Rattle.circuits.specs.Polynomial.{is_negated};
ghost use Rattle.diagram.specs.Calls.{IsOfBoth};
ghost use Rattle.diagram.specs.View.{View, IsEdge, Keeps};
ghost use Rattle.kind_laws.specs.Plain.{plain, answered};
ghost use Rattle.word_apply.specs.Applied.{plain_edges, AreEdges, IsOfAll, IsOfRest, step_work_at, fold_work_at, gate_work_at};

use crate::gates::{and, not, or, xor};
use circuits::GateWord;
use diagram::{Builder, Limit};
use kind_laws::{Edge, Kind};
use record_store::Store;

/// One step of a gate's fold, before the negation. NOT and BUFF take none.
fn one_step<K: Kind, S: Store>(
    builder: &mut Builder<K, S>,
    word: GateWord,
    a: Edge<K>,
    b: Edge<K>,
) -> Result<Edge<K>, Limit>
    requires a_good { IsEdge K.NAME builder.old (plain K.extra_of a) }
    requires b_good { IsEdge K.NAME builder.old (plain K.extra_of b) }
    ensures keeps { Keeps builder.old builder.new }
    ensures step { IsOfBoth (step_table word) (step_work_at word builder.old.letters) K.NAME builder.old builder.new
        (plain K.extra_of a) (plain K.extra_of b) (answered (plain K.extra_of) result) }
{
    match word {
        GateWord::And | GateWord::Nand => and(builder, a, b),
        GateWord::Or | GateWord::Nor => or(builder, a, b),
        GateWord::Xor | GateWord::Xnor => xor(builder, a, b),
        GateWord::Not | GateWord::Buff => Ok(a),
    }
}

/// The fold from the left, beginning with the first edge.
fn fold<K: Kind, S: Store>(
    builder: &mut Builder<K, S>,
    word: GateWord,
    first: Edge<K>,
    rest: &[Edge<K>],
) -> Result<Edge<K>, Limit>
    requires first_good { IsEdge K.NAME builder.old (plain K.extra_of first) }
    requires rest_good { AreEdges K.NAME builder.old (plain_edges K.extra_of rest.now) }
    ensures keeps { Keeps builder.old builder.new }
    ensures fold { IsOfRest (fold_table word) (fold_work_at word builder.old.letters) K.NAME builder.old builder.new
        (plain K.extra_of first) (plain_edges K.extra_of rest.now) (answered (plain K.extra_of) result) }
{
    match rest {
        [] => Ok(first),
        [next, more @ ..] => {
            let folded = one_step(builder, word, first, *next)?;
            fold(builder, word, folded, more)
        }
    }
}

fn is_negated(word: GateWord) -> bool
    ensures { result ≡ is_negated word }
{
    match word {
        GateWord::Nand | GateWord::Nor | GateWord::Xnor | GateWord::Not => true,
        GateWord::And | GateWord::Or | GateWord::Xor | GateWord::Buff => false,
    }
}

/// The edge of a gate, from those of its inputs, of which there is one at least.
pub fn gate<K: Kind, S: Store>(
    builder: &mut Builder<K, S>,
    word: GateWord,
    inputs: &[Edge<K>],
) -> Result<Edge<K>, Limit>
    requires good { AreEdges K.NAME builder.old (plain_edges K.extra_of inputs.now) }
    requires some { 0 < length inputs.now }
    ensures keeps { Keeps builder.old builder.new }
    ensures gate { IsOfAll (λ l. gate_table word) (gate_work_at word builder.old.letters) K.NAME builder.old builder.new
        (plain_edges K.extra_of inputs.now) (answered (plain K.extra_of) result) }
{
    match inputs {
        [] => unreachable!(),
        [first, rest @ ..] => {
            let folded = fold(builder, word, *first, rest)?;
            if is_negated(word) {
                return not(builder, folded);
            }
            Ok(folded)
        }
    }
}
