ghost use Rattle.tables.specs.Table.{each};
ghost use Rattle.checks.specs.Work.{not_work, step_table};
ghost use Rattle.circuits.specs.Polynomial.{negation};
ghost use Rattle.circuits.specs.declared.gate_word.GateWord.TheVariants.{And, Or, Xor};
ghost use Rattle.diagram.specs.Calls.{IsOfBoth, IsOfEach};
ghost use Rattle.diagram.specs.Products.{product_work};
ghost use Rattle.diagram.specs.View.{View, IsEdge, Keeps};
ghost use Rattle.kind_laws.specs.Plain.{plain, answered};
ghost use Rattle.word_apply.specs.Applied.{or_work_at, xor_work_at};

use diagram::{Builder, Limit};
use kind_laws::{Edge, Kind};
use record_store::Store;
use word_base::Weight;

/// `1 - a`, entry by entry.
pub fn not<K: Kind, S: Store>(builder: &mut Builder<K, S>, a: Edge<K>) -> Result<Edge<K>, Limit>
    requires { IsEdge K.NAME builder.old (plain K.extra_of a) }
    ensures keeps { Keeps builder.old builder.new }
    ensures negation { IsOfEach (each negation) not_work K.NAME builder.old builder.new (plain K.extra_of a)
        (answered (plain K.extra_of) result) }
{
    let one = builder.constant(Weight::ONE);
    builder.sub(one, a)
}

/// `a*b`, entry by entry.
pub fn and<K: Kind, S: Store>(
    builder: &mut Builder<K, S>,
    a: Edge<K>,
    b: Edge<K>,
) -> Result<Edge<K>, Limit>
    requires a_good { IsEdge K.NAME builder.old (plain K.extra_of a) }
    requires b_good { IsEdge K.NAME builder.old (plain K.extra_of b) }
    ensures keeps { Keeps builder.old builder.new }
    ensures conjunction { IsOfBoth (step_table And) (product_work builder.old.letters) K.NAME builder.old builder.new
        (plain K.extra_of a) (plain K.extra_of b) (answered (plain K.extra_of) result) }
{
    builder.mul(a, b)
}

/// `a + b - a*b`, entry by entry.
pub fn or<K: Kind, S: Store>(
    builder: &mut Builder<K, S>,
    a: Edge<K>,
    b: Edge<K>,
) -> Result<Edge<K>, Limit>
    requires a_good { IsEdge K.NAME builder.old (plain K.extra_of a) }
    requires b_good { IsEdge K.NAME builder.old (plain K.extra_of b) }
    ensures keeps { Keeps builder.old builder.new }
    ensures disjunction { IsOfBoth (step_table Or) (or_work_at builder.old.letters) K.NAME builder.old builder.new
        (plain K.extra_of a) (plain K.extra_of b) (answered (plain K.extra_of) result) }
{
    let product = builder.mul(a, b)?;
    let sum = builder.add(a, b)?;
    builder.sub(sum, product)
}

/// `a + b - 2*a*b`, entry by entry.
pub fn xor<K: Kind, S: Store>(
    builder: &mut Builder<K, S>,
    a: Edge<K>,
    b: Edge<K>,
) -> Result<Edge<K>, Limit>
    requires a_good { IsEdge K.NAME builder.old (plain K.extra_of a) }
    requires b_good { IsEdge K.NAME builder.old (plain K.extra_of b) }
    ensures keeps { Keeps builder.old builder.new }
    ensures exclusive_or { IsOfBoth (step_table Xor) (xor_work_at builder.old.letters) K.NAME builder.old builder.new
        (plain K.extra_of a) (plain K.extra_of b) (answered (plain K.extra_of) result) }
{
    let product = builder.mul(a, b)?;
    let twice = builder.scale(Weight::TWO, product)?;
    let sum = builder.add(a, b)?;
    builder.sub(sum, twice)
}
