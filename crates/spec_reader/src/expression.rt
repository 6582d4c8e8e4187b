ghost use Rattle.std.specs.Prelude.{◌≡◌, ◌+◌, ◌<◌, ◌≤◌, ◌^◌, map, length, true, false, Some, option_map, IfOk};
ghost use Rattle.std.specs.List.{list_all};
ghost use Rattle.spec_grammar.specs.Parsing.{minused, times_before, joined, after_factor, closed, at_front, at_term, step, whole_at, parsed, empty_front, front, wants, state};
ghost use Rattle.spec_grammar.specs.Trees.{formula};
ghost use Rattle.spec_lang.specs.Formula.{formula_of};
ghost use Rattle.spec_lang.specs.declared.limits.TheConstants.{MOST_WORDS};
ghost use Rattle.spec_reader.specs.Meanings.{on_formulas, over};
ghost use Rattle.spec_reader.specs.Good.{is_good};
ghost use Rattle.spec_reader.specs.Views.{seen_symbol, seen_sum, seen_front, seen_fronts, minuses_at, seen_state};

use crate::atom::{number, word};
use crate::symbol::Symbol;
use spec_lang::{Expr, Word};
use std::alloc::{AllocError, Global};

/// What the next term is joined to.
#[derive(Drop)]
pub(crate) enum Sum {
    Nothing,
    AddsTo(Expr),
    SubtractsFrom(Expr),
}

/// What stands in front of the next factor, within one pair of parentheses.
#[derive(Drop)]
pub(crate) struct Front {
    pub(crate) sum: Sum,
    /// What the factor is multiplied by.
    pub(crate) product: Option<Expr>,
    /// Its unary minuses.
    pub(crate) minuses: usize,
}

/// A factor is to come, or a term may end here.
#[derive(Drop)]
pub(crate) enum Place {
    Wants(Front),
    Has(Sum, Expr),
}

/// The place, and the fronts of the parentheses that are open there, the innermost last.
#[derive(Drop)]
pub(crate) struct State {
    pub(crate) fronts: Vec<Front>,
    pub(crate) place: Place,
}

fn minused(alloc: Global, minuses: usize, expr: Expr) -> Result<Expr, AllocError>
    ensures { IfOk result (λ e. formula_of e ≡ minused on_formulas minuses (formula_of expr)) }
{
    let mut expr = expr;
    for _done in 0..minuses {
        expr = Expr::neg(alloc, expr)?;
    }
    Ok(expr)
}

fn times_before(alloc: Global, product: Option<Expr>, expr: Expr) -> Result<Expr, AllocError>
    ensures { IfOk result (λ e. formula_of e
        ≡ times_before on_formulas (option_map formula_of product) (formula_of expr)) }
{
    match product {
        Some(product) => Expr::mul(alloc, product, expr),
        None => Ok(expr),
    }
}

fn joined(alloc: Global, sum: Sum, expr: Expr) -> Result<Expr, AllocError>
    ensures { IfOk result (λ e. formula_of e
        ≡ joined on_formulas (seen_sum sum) (formula_of expr)) }
{
    match sum {
        Sum::Nothing => Ok(expr),
        Sum::AddsTo(first) => Expr::add(alloc, first, expr),
        Sum::SubtractsFrom(first) => Expr::sub(alloc, first, expr),
    }
}

/// Behind the factor that a front stands before.
fn after_factor(
    alloc: Global,
    fronts: Vec<Front>,
    front: Front,
    factor: Expr,
) -> Result<State, AllocError>
    ensures { IfOk result (λ next. seen_state next
        ≡ after_factor on_formulas (seen_fronts fronts.items) (seen_front front) (formula_of factor)) }
{
    let Front {
        sum,
        product,
        minuses,
    } = front;
    let factor = minused(alloc, minuses, factor)?;
    let term = times_before(alloc, product, factor)?;
    Ok(State {
        fronts,
        place: Place::Has(sum, term),
    })
}

fn empty_front() -> Front
    ensures { seen_front result ≡ empty_front }
{
    Front {
        sum: Sum::Nothing,
        product: None,
        minuses: 0,
    }
}

fn wants(fronts: Vec<Front>, sum: Sum, product: Option<Expr>, minuses: usize) -> State
    ensures { seen_state result ≡ state (seen_fronts fronts.items)
        (wants (front (seen_sum sum) (option_map formula_of product) minuses)) }
{
    State {
        fronts,
        place: Place::Wants(Front {
            sum,
            product,
            minuses,
        }),
    }
}

fn at_front(
    alloc: Global,
    words: &[Word],
    mut fronts: Vec<Front>,
    front: Front,
    symbol: Symbol<'_>,
) -> Result<Option<State>, AllocError>
    requires good { is_good words.now (seen_symbol symbol) ≡ true }
    requires words { length words.now ≤ MOST_WORDS }
    requires few { front.minuses < 2 ^ 63 }
    ensures { IfOk result (λ next. option_map seen_state next
        ≡ at_front (over words.now) (seen_fronts fronts.items) (seen_front front) (seen_symbol symbol.entry)) }
{
    match symbol {
        Symbol::Digits(digits) => Ok(Some(after_factor(alloc, fronts, front, number(digits))?)),
        Symbol::Name(name) => Ok(Some(after_factor(alloc, fronts, front, word(words, name))?)),
        Symbol::Minus => Ok(Some(wants(fronts, front.sum, front.product, front.minuses + 1))),
        Symbol::Opening => {
            fronts.push(front)?;
            Ok(Some(State {
                fronts,
                place: Place::Wants(empty_front()),
            }))
        }
        _ => Ok(None),
    }
}

/// Behind the parenthesis that closes the innermost one, around an expression.
fn closed(alloc: Global, mut fronts: Vec<Front>, expr: Expr) -> Result<Option<State>, AllocError>
    ensures { IfOk result (λ next. option_map seen_state next
        ≡ closed on_formulas (seen_fronts fronts.items) (formula_of expr)) }
{
    match fronts.pop() {
        Some(front) => Ok(Some(after_factor(alloc, fronts, front, expr)?)),
        None => Ok(None),
    }
}

fn at_term(
    alloc: Global,
    fronts: Vec<Front>,
    sum: Sum,
    term: Expr,
    symbol: Symbol<'_>,
) -> Result<Option<State>, AllocError>
    ensures { IfOk result (λ next. option_map seen_state next
        ≡ at_term on_formulas (seen_fronts fronts.items) (seen_sum sum) (formula_of term) (seen_symbol symbol.entry)) }
{
    match symbol {
        Symbol::Plus => {
            let first = joined(alloc, sum, term)?;
            Ok(Some(wants(fronts, Sum::AddsTo(first), None, 0)))
        }
        Symbol::Minus => {
            let first = joined(alloc, sum, term)?;
            Ok(Some(wants(fronts, Sum::SubtractsFrom(first), None, 0)))
        }
        Symbol::Times => Ok(Some(wants(fronts, sum, Some(term), 0))),
        Symbol::Closing => {
            let expr = joined(alloc, sum, term)?;
            closed(alloc, fronts, expr)
        }
        _ => Ok(None),
    }
}

fn step(
    alloc: Global,
    words: &[Word],
    state: State,
    symbol: Symbol<'_>,
) -> Result<Option<State>, AllocError>
    requires good { is_good words.now (seen_symbol symbol) ≡ true }
    requires words { length words.now ≤ MOST_WORDS }
    requires few { minuses_at state.place < 2 ^ 63 }
    ensures { IfOk result (λ next. option_map seen_state next
        ≡ step (over words.now) (seen_state state) (seen_symbol symbol.entry)) }
{
    let State { fronts, place } = state;
    match place {
        Place::Wants(front) => at_front(alloc, words, fronts, front, symbol),
        Place::Has(sum, term) => at_term(alloc, fronts, sum, term, symbol),
    }
}

fn whole(alloc: Global, state: State) -> Result<Option<Expr>, AllocError>
    ensures { IfOk result (λ found. let seen = seen_state state
        in option_map formula_of found ≡ whole_at on_formulas seen.open_fronts seen.place) }
{
    let State { fronts, place } = state;
    match place {
        Place::Has(sum, term) if fronts.is_empty() => Ok(Some(joined(alloc, sum, term)?)),
        _ => Ok(None),
    }
}

/// The expression that symbols write, where they write one.
pub(crate) fn expression(
    alloc: Global,
    words: &[Word],
    symbols: &[Symbol<'_>],
) -> Result<Option<Expr>, AllocError>
    requires good { list_all (is_good words.now) (map seen_symbol symbols.now) ≡ true }
    requires words { length words.now ≤ MOST_WORDS }
    ensures { IfOk result (λ found. option_map formula_of found
        ≡ option_map (formula words.now) (parsed (map seen_symbol symbols.now))) }
{
    let mut state = State {
        fronts: Vec::new(alloc),
        place: Place::Wants(empty_front()),
    };
    for symbol in symbols {
        state = match step(alloc, words, state, *symbol)? {
            Some(next) => next,
            None => return Ok(None),
        };
    }
    whole(alloc, state)
}
