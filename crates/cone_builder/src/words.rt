ghost use Rattle.std.specs.Prelude.{◌≡◌, ℕ, ◌<◌, Bool, true, List, [], ◌∷◌, length, map, All, Contains, OnOk};
ghost use Rattle.cone_builder.specs.Built.{AreBuilt, AreWords, or_listed};
ghost use Rattle.checks.specs.Work.{word_work};
ghost use Rattle.cone_builder.specs.Causes.{limit_met, Includes};
ghost use Rattle.diagram.specs.Answers.{Causes};
ghost use Rattle.diagram.specs.View.{View, Keeps};
ghost use Rattle.spec_lang.specs.Value.{nets_of};
ghost use Rattle.tables.specs.Pieces.{Piece};
ghost use Rattle.tables.specs.Table.{Table};
ghost use Rattle.kind_laws.specs.Plain.{plain};
ghost use Rattle.word_apply.specs.Applied.{AreEdges, plain_edges};

use crate::build_error::BuildError;
use crate::gates::gather;
use diagram::Builder;
use kind_laws::{Edge, Kind};
use record_store::Store;
use spec_lang::Spec;
use word_apply::word;

/// Builds a word, whose nets are built.
fn build_word<K: Kind, S: Store>(
    builder: &mut Builder<K, S>,
    spec: &Spec,
    number: u32,
    nets: &[Edge<K>],
    words: &mut [Edge<K>],
    bits: &mut Vec<Edge<K>>,
) -> Result<(), BuildError>
    requires number { number < length spec.now.words }
    requires many { length words.old ≡ length spec.now.words }
    requires within { All (λ net. net < length nets.now) (nets_of spec.now.words number) }
    requires nets_good { AreEdges K.NAME builder.old (plain_edges K.extra_of nets.now) }
    requires good { AreEdges K.NAME builder.old (plain_edges K.extra_of words.old) }
    ensures keeps { Keeps builder.old builder.new }
    ensures good { OnOk result (AreEdges K.NAME builder.new (plain_edges K.extra_of words.new)) }
    ensures built { OnOk result ((of_net table : ℕ → Table) (built_nets built : ℕ → Bool) → AreWords spec.now.words of_net table →
        AreBuilt K.NAME builder.old of_net built_nets (plain_edges K.extra_of nets.now) → AreBuilt K.NAME builder.old table built (plain_edges K.extra_of words.old) →
        ((net : ℕ) → Contains (nets_of spec.now.words number) net → built_nets net ≡ true) → AreBuilt K.NAME builder.new table (or_listed built (number ∷ [])) (plain_edges K.extra_of words.new)) }
    ensures causes { (of_net : ℕ → Table) (built_nets : ℕ → Bool) (ps : List Piece) → AreBuilt K.NAME builder.old of_net built_nets (plain_edges K.extra_of nets.now) →
        ((net : ℕ) → Contains (nets_of spec.now.words number) net → built_nets net ≡ true) →
        Includes ps (word_work 0 (map of_net (nets_of spec.now.words number))) → Causes K.NAME builder.old builder.new ps (limit_met result) }
{
    gather(nets, spec.word(number), bits)?;
    words[number as usize] = word(builder, bits.as_slice())?;
    Ok(())
}

/// Builds the words of these numbers, whose nets are built.
pub(crate) fn build_words<K: Kind, S: Store>(
    builder: &mut Builder<K, S>,
    spec: &Spec,
    numbers: &[u32],
    nets: &[Edge<K>],
    words: &mut [Edge<K>],
    bits: &mut Vec<Edge<K>>,
) -> Result<(), BuildError>
    requires numbers { All (λ w. w < length spec.now.words) numbers.now }
    requires many { length words.old ≡ length spec.now.words }
    requires within { All (λ w. All (λ net. net < length nets.now) (nets_of spec.now.words w)) numbers.now }
    requires nets_good { AreEdges K.NAME builder.old (plain_edges K.extra_of nets.now) }
    requires good { AreEdges K.NAME builder.old (plain_edges K.extra_of words.old) }
    ensures keeps { Keeps builder.old builder.new }
    ensures good { OnOk result (AreEdges K.NAME builder.new (plain_edges K.extra_of words.new)) }
    ensures built { OnOk result ((of_net table : ℕ → Table) (built_nets built : ℕ → Bool) → AreWords spec.now.words of_net table →
        AreBuilt K.NAME builder.old of_net built_nets (plain_edges K.extra_of nets.now) → AreBuilt K.NAME builder.old table built (plain_edges K.extra_of words.old) →
        ((w net : ℕ) → Contains numbers.now w → Contains (nets_of spec.now.words w) net → built_nets net ≡ true) →
        AreBuilt K.NAME builder.new table (or_listed built numbers.now) (plain_edges K.extra_of words.new)) }
    ensures causes { (of_net : ℕ → Table) (built_nets : ℕ → Bool) (ps : List Piece) → AreBuilt K.NAME builder.old of_net built_nets (plain_edges K.extra_of nets.now) →
        ((w net : ℕ) → Contains numbers.now w → Contains (nets_of spec.now.words w) net → built_nets net ≡ true) →
        ((w : ℕ) → Contains numbers.now w → Includes ps (word_work 0 (map of_net (nets_of spec.now.words w)))) → Causes K.NAME builder.old builder.new ps (limit_met result) }
{
    for number in numbers {
        build_word(builder, spec, *number, nets, words, bits)?;
    }
    Ok(())
}
