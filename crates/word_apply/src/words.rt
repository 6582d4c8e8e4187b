ghost use Rattle.std.specs.Prelude.{◌≡◌, ◌+◌, ◌<◌, ◌≤◌, ◌^◌, pos, fold, length};
ghost use Rattle.diagram.specs.View.{View, IsEdge, Keeps};
ghost use Rattle.checks.specs.Work.{multiples, word_table, word_work};
ghost use Rattle.kind_laws.specs.Plain.{plain, answered};
ghost use Rattle.tables.specs.Table.{plus};
ghost use Rattle.word_apply.specs.Applied.{plain_edges, AreEdges, IsOfAll, IsOfRest, sum_work};

use diagram::{Builder, Limit};
use kind_laws::{Edge, Kind};
use record_store::Store;
use word_base::Weight;

fn power_of_two(exponent: u32) -> Weight
    requires { exponent ≤ 126 }
    ensures { result ≡ pos (2 ^ exponent) }
{
    Weight::new(2i128.pow(exponent)).unwrap()
}

/// The sum with 2^exponent times the first edge, twice as much of the next, and so on.
fn add_multiples<K: Kind, S: Store>(
    builder: &mut Builder<K, S>,
    exponent: u32,
    start: Edge<K>,
    bits: &[Edge<K>],
) -> Result<Edge<K>, Limit>
    requires start_good { IsEdge K.NAME builder.old (plain K.extra_of start) }
    requires bits_good { AreEdges K.NAME builder.old (plain_edges K.extra_of bits.now) }
    requires few { exponent + length bits.now ≤ 127 }
    ensures keeps { Keeps builder.old builder.new }
    ensures sum { IsOfRest (λ t ts. fold plus t (multiples (2 ^ exponent) ts)) (sum_work (2 ^ exponent)) K.NAME builder.old builder.new
        (plain K.extra_of start) (plain_edges K.extra_of bits.now) (answered (plain K.extra_of) result) }
{
    match bits {
        [] => Ok(start),
        [bit, more @ ..] => {
            let multiple = builder.scale(power_of_two(exponent), *bit)?;
            let sum = builder.add(start, multiple)?;
            add_multiples(builder, exponent + 1, sum, more)
        }
    }
}

/// The sum of 2^i times edge i, entry by entry, of 1 to 127 edges.
pub fn word<K: Kind, S: Store>(
    builder: &mut Builder<K, S>,
    bits: &[Edge<K>],
) -> Result<Edge<K>, Limit>
    requires good { AreEdges K.NAME builder.old (plain_edges K.extra_of bits.now) }
    requires some { 0 < length bits.now }
    requires few { length bits.now ≤ 127 }
    ensures keeps { Keeps builder.old builder.new }
    ensures word { IsOfAll (λ l. word_table) word_work K.NAME builder.old builder.new (plain_edges K.extra_of bits.now)
        (answered (plain K.extra_of) result) }
{
    match bits {
        [] => unreachable!(),
        [first, more @ ..] => add_multiples(builder, 1, *first, more),
    }
}
