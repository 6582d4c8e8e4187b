ghost use Rattle.std.specs.Prelude.{◌≡◌, IfOk, length, true};
ghost use Rattle.diagram.specs.View.{Keeps};
ghost use Rattle.kind_laws.specs.Plain.{plain};
ghost use Rattle.spec_lang.specs.Formula.{formula_of};
ghost use Rattle.spec_lang.specs.WellFormed.{NamesBelow};
ghost use Rattle.word_apply.specs.Applied.{AreEdges, plain_edges};
ghost use Rattle.word_base.specs.Kind.{is_allowed};

use circuits::GateWord;
use diagram::{Builder, Limit};
use evbdd::Evbdd;
use hdd::Hdd;
use kind_laws::{Edge, Kind};
use record_store::SoloStore;
use spec_lang::Expr;
use std::alloc::Global;
use std::process::Abort;
use std::test::Fail;
use word_apply::{and, expression, gate, not, or, word, xor};
use word_base::{Decomp, Levels, Weight};

/// A builder with two levels of one letter.
fn two_levels<K: Kind>(alloc: Global, letter: Decomp) -> Result<Builder<K, SoloStore>, Fail>
    requires { is_allowed K.NAME letter ≡ true }
{
    let levels = Levels::new(alloc, &[letter, letter])?;
    let store = SoloStore::create(alloc, 100)?;
    Builder::create(alloc, store, levels, 100, 4).map_err(|_| Fail::from("no memory"))
}

fn bit(value: bool) -> Weight {
    if value { Weight::ONE } else { Weight::ZERO }
}

/// A gate of three constant bits.
fn of_bits<K: Kind>(
    alloc: Global,
    builder: &mut Builder<K, SoloStore>,
    word: GateWord,
    bits: [bool; 3],
) -> Result<Edge<K>, Fail> {
    let mut edges = Vec::new(alloc);
    edges.push(builder.constant(bit(bits[0])))?;
    edges.push(builder.constant(bit(bits[1])))?;
    edges.push(builder.constant(bit(bits[2])))?;
    Ok(gate(builder, word, edges.as_slice())?)
}

fn check_three_bits<K: Kind>(
    rt: &impl Abort,
    alloc: Global,
    builder: &mut Builder<K, SoloStore>,
) -> Result<(), Fail> {
    let zero = builder.constant(Weight::ZERO);
    let one = builder.constant(Weight::ONE);
    for (word, bits, is_one) in [
        (GateWord::And, [true, true, true], true),
        (GateWord::And, [true, true, false], false),
        (GateWord::Nand, [true, true, false], true),
        (GateWord::Or, [false, false, true], true),
        (GateWord::Nor, [false, false, true], false),
        (GateWord::Xor, [true, true, true], true),
        (GateWord::Xnor, [true, true, true], false),
    ] {
        let edge = of_bits(alloc, builder, word, bits)?;
        assert!(rt; builder.same(edge, if is_one { one } else { zero }));
    }
    Ok(())
}

#[test]
fn gates_of_three_bits(rt: HostRuntime) -> Result<(), Fail> {
    let alloc = rt.alloc();
    for letter in [Decomp::S, Decomp::P, Decomp::N] {
        check_three_bits(&rt, alloc, &mut two_levels::<Hdd>(alloc, letter)?)?;
    }
    check_three_bits(&rt, alloc, &mut two_levels::<Evbdd>(alloc, Decomp::S)?)
}

/// The variable of the first level, and a gate of it alone.
fn of_variable<K: Kind>(
    rt: &impl Abort,
    alloc: Global,
    builder: &mut Builder<K, SoloStore>,
    word: GateWord,
) -> Result<(Edge<K>, Edge<K>), Fail> {
    assert!(rt; builder.levels() > 0);
    let x = builder.var(0)?;
    let mut inputs = Vec::new(alloc);
    inputs.push(x)?;
    Ok((x, gate(builder, word, inputs.as_slice())?))
}

fn negation_of_variable<K: Kind>(
    rt: &impl Abort,
    builder: &mut Builder<K, SoloStore>,
) -> Result<Edge<K>, Limit> {
    assert!(rt; builder.levels() > 0);
    let x = builder.var(0)?;
    not(builder, x)
}

fn check_one_input<K: Kind>(
    rt: &impl Abort,
    alloc: Global,
    builder: &mut Builder<K, SoloStore>,
) -> Result<(), Fail> {
    let negation = negation_of_variable(rt, builder)?;
    for (word, is_negated) in [
        (GateWord::Buff, false),
        (GateWord::Not, true),
        (GateWord::Xor, false),
        (GateWord::Nand, true),
    ] {
        let (x, edge) = of_variable(rt, alloc, builder, word)?;
        assert!(rt; builder.same(edge, if is_negated { negation } else { x }));
        assert!(rt; !builder.same(negation, x));
    }
    Ok(())
}

#[test]
fn gates_of_one_input(rt: HostRuntime) -> Result<(), Fail> {
    let alloc = rt.alloc();
    for letter in [Decomp::S, Decomp::P, Decomp::N] {
        check_one_input(&rt, alloc, &mut two_levels::<Hdd>(alloc, letter)?)?;
    }
    check_one_input(&rt, alloc, &mut two_levels::<Evbdd>(alloc, Decomp::S)?)
}

/// The variables of the first two levels.
fn two_variables<K: Kind>(
    rt: &impl Abort,
    alloc: Global,
    builder: &mut Builder<K, SoloStore>,
) -> Result<Vec<Edge<K>>, Fail>
    ensures keeps { Keeps builder.old builder.new }
    ensures good { IfOk result (λ edges. AreEdges K.NAME builder.new (plain_edges K.extra_of edges.items)) }
    ensures two { IfOk result (λ edges. length edges.items ≡ 2) }
{
    assert!(rt; builder.levels() > 1);
    let x = builder.var(0)?;
    let y = builder.var(1)?;
    let mut edges = Vec::new(alloc);
    edges.push(x)?;
    edges.push(y)?;
    Ok(edges)
}

/// The word of both variables.
fn word_of_two<K: Kind>(
    rt: &impl Abort,
    alloc: Global,
    builder: &mut Builder<K, SoloStore>,
) -> Result<Edge<K>, Fail> {
    let bits = two_variables(rt, alloc, builder)?;
    Ok(word(builder, bits.as_slice())?)
}

/// The disjunction of both.
fn or_of_two<K: Kind>(
    rt: &impl Abort,
    builder: &mut Builder<K, SoloStore>,
) -> Result<Edge<K>, Limit> {
    assert!(rt; builder.levels() > 1);
    let x = builder.var(0)?;
    let y = builder.var(1)?;
    or(builder, x, y)
}

/// An expression in which each is a word.
fn expression_of_two<K: Kind>(
    rt: &impl Abort,
    alloc: Global,
    builder: &mut Builder<K, SoloStore>,
    expr: &Expr,
) -> Result<Edge<K>, Fail>
    requires { NamesBelow 2 (formula_of expr.now) }
{
    let words = two_variables(rt, alloc, builder)?;
    Ok(expression(builder, expr, words.as_slice())?)
}

fn check_words<K: Kind>(
    rt: &impl Abort,
    alloc: Global,
    builder: &mut Builder<K, SoloStore>,
) -> Result<(), Fail> {
    let twice = Expr::mul(alloc, Expr::Number(Weight::TWO), Expr::Word(1))?;
    let sum = Expr::add(alloc, Expr::Word(0), twice)?;
    let difference = Expr::sub(alloc, Expr::Word(0), Expr::neg(alloc, Expr::Word(1))?)?;
    let bits = word_of_two(rt, alloc, builder)?;
    let sum = expression_of_two(rt, alloc, builder, &sum)?;
    let difference = expression_of_two(rt, alloc, builder, &difference)?;
    assert!(rt; builder.same(sum, bits));
    assert!(rt; !builder.same(difference, bits));
    Ok(())
}

#[test]
fn a_word_is_its_sum(rt: HostRuntime) -> Result<(), Fail> {
    let alloc = rt.alloc();
    for letter in [Decomp::S, Decomp::P, Decomp::N] {
        check_words(&rt, alloc, &mut two_levels::<Hdd>(alloc, letter)?)?;
    }
    check_words(&rt, alloc, &mut two_levels::<Evbdd>(alloc, Decomp::S)?)
}

fn check_disjunction<K: Kind>(
    rt: &impl Abort,
    alloc: Global,
    builder: &mut Builder<K, SoloStore>,
) -> Result<(), Fail> {
    let sum = Expr::add(alloc, Expr::Word(0), Expr::Word(1))?;
    let product = Expr::mul(alloc, Expr::Word(0), Expr::Word(1))?;
    let either = Expr::sub(alloc, sum, product)?;
    let any = or_of_two(rt, builder)?;
    let either = expression_of_two(rt, alloc, builder, &either)?;
    assert!(rt; builder.same(either, any));
    Ok(())
}

#[test]
fn a_disjunction_is_the_sum_without_the_product(rt: HostRuntime) -> Result<(), Fail> {
    let alloc = rt.alloc();
    for letter in [Decomp::S, Decomp::P, Decomp::N] {
        check_disjunction(&rt, alloc, &mut two_levels::<Hdd>(alloc, letter)?)?;
    }
    check_disjunction(&rt, alloc, &mut two_levels::<Evbdd>(alloc, Decomp::S)?)
}
