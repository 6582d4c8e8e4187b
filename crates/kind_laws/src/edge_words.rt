ghost use Rattle.std.specs.Prelude.{◌≡◌};
ghost use Rattle.word_base.specs.declared.kind_name.KindName.{KindName};
ghost use Rattle.word_base.specs.declared.kind_name.KindName.TheVariants.{KStarBmd};
ghost use Rattle.kind_laws.specs.EdgeWords.{edge_words, FitsEdge, IsEdgeWords, ReadsEdge};
ghost use Rattle.kind_laws.specs.Plain.{plain_edge};

use crate::words::{weight_of, words_of};
use word_base::Weight;

/// The five words of an edge.
pub fn pack_edge(weight: Weight, extra: Weight, node: u32) -> [u64; 5]
    ensures words { result ≡ edge_words (plain_edge weight extra node) }
    ensures fits { FitsEdge KStarBmd (plain_edge weight extra node) }
{
    let first = words_of(weight);
    let second = words_of(extra);
    [first.0, first.1, second.0, second.1, u64::from(node)]
}

/// The weight, the additive weight and the node of the edge whose words these are.
pub fn unpack_edge(words: [u64; 5]) -> (Weight, Weight, u32)
    requires { (k : KindName) × IsEdgeWords k words }
    ensures { (k : KindName) → ReadsEdge k words (λ e. plain_edge result.0 result.1 result.2 ≡ e) }
{
    let weight = weight_of(words[0], words[1]);
    let extra = weight_of(words[2], words[3]);
    (weight, extra, words[4] as u32)
}
