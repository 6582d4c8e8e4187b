ghost use Rattle.std.specs.Prelude.{length};
ghost use Rattle.diagram.specs.Calls.{IsOfBoth};
ghost use Rattle.diagram.specs.View.{View, IsEdge, Keeps};
ghost use Rattle.kind_laws.specs.Plain.{plain, answered};
ghost use Rattle.spec_lang.specs.Formula.{formula_of};
ghost use Rattle.spec_lang.specs.WellFormed.{NamesBelow};
ghost use Rattle.tables.specs.Table.{zip_with};
ghost use Rattle.word_apply.specs.Applied.{plain_edges, AreEdges, IsOfAll, formula_at, formula_work_at, operation_of, operation_work};

use diagram::{Builder, Limit};
use kind_laws::{Edge, Kind};
use record_store::Store;
use spec_lang::Expr;

/// The operation of an expression of two operands, from their edges.
fn operation<K: Kind, S: Store>(
    builder: &mut Builder<K, S>,
    expr: &Expr,
    a: Edge<K>,
    b: Edge<K>,
) -> Result<Edge<K>, Limit>
    requires a_good { IsEdge K.NAME builder.old (plain K.extra_of a) }
    requires b_good { IsEdge K.NAME builder.old (plain K.extra_of b) }
    ensures keeps { Keeps builder.old builder.new }
    ensures operation { IsOfBoth (zip_with (operation_of (formula_of expr.now))) (operation_work (formula_of expr.now) builder.old.letters)
        K.NAME builder.old builder.new (plain K.extra_of a) (plain K.extra_of b) (answered (plain K.extra_of) result) }
{
    match expr {
        Expr::Add(_, _) => builder.add(a, b),
        Expr::Sub(_, _) => builder.sub(a, b),
        Expr::Mul(_, _) => builder.mul(a, b),
        Expr::Number(_) | Expr::Word(_) | Expr::Neg(_) => Ok(a),
    }
}

/// The values of an expression, entry by entry, from the edge of each word by its number.
pub fn expression<K: Kind, S: Store>(
    builder: &mut Builder<K, S>,
    expr: &Expr,
    words: &[Edge<K>],
) -> Result<Edge<K>, Limit>
    requires good { AreEdges K.NAME builder.old (plain_edges K.extra_of words.now) }
    requires named { NamesBelow (length words.now) (formula_of expr.now) }
    ensures keeps { Keeps builder.old builder.new }
    ensures formula { IsOfAll (formula_at (formula_of expr.now) builder.old.letters) (formula_work_at (formula_of expr.now) builder.old.letters)
        K.NAME builder.old builder.new (plain_edges K.extra_of words.now) (answered (plain K.extra_of) result) }
{
    match expr {
        Expr::Number(number) => Ok(builder.constant(*number)),
        Expr::Word(word) => Ok(words[*word as usize]),
        Expr::Neg(a) => {
            let a = expression(builder, a.get(), words)?;
            builder.neg(a)
        }
        Expr::Add(a, b) | Expr::Sub(a, b) | Expr::Mul(a, b) => {
            let a = expression(builder, a.get(), words)?;
            let b = expression(builder, b.get(), words)?;
            operation(builder, expr, a, b)
        }
    }
}
