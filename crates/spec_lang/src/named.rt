ghost use Rattle.std.specs.Prelude.{◌≡◌, ◌++◌, OnOk, IfOk};
ghost use Rattle.std.specs.List.{flat_map};
ghost use Rattle.spec_lang.specs.Formula.{formula_of};
ghost use Rattle.spec_lang.specs.Named.{namings, each_once, words_named, nets_of_words};
ghost use Rattle.spec_lang.specs.Value.{nets_of};

use crate::expr::Expr;
use crate::value::nets_at;
use crate::word::Word;
use std::alloc::{AllocError, Global};
use std::collections::HashSet;

/// Adds the number of each word, as often as the expression names it, from left to right.
fn put_namings(expr: &Expr, out: &mut Vec<u32>) -> Result<(), AllocError>
    ensures { OnOk result (out.new.items ≡ out.old.items ++ namings (formula_of expr.now)) }
{
    match expr {
        Expr::Number(_) => {}
        Expr::Word(word) => out.push(*word)?,
        Expr::Neg(a) => put_namings(a.get(), out)?,
        Expr::Add(a, b) | Expr::Sub(a, b) | Expr::Mul(a, b) => {
            put_namings(a.get(), out)?;
            put_namings(b.get(), out)?;
        }
    }
    Ok(())
}

/// Each number once, at its first place.
pub(crate) fn each_once(alloc: Global, numbers: &[u32]) -> Result<Vec<u32>, AllocError>
    ensures { IfOk result (λ found. found.items ≡ each_once numbers.now) }
{
    let mut seen = HashSet::new(alloc);
    let mut found = Vec::new(alloc);
    for number in numbers {
        if seen.insert(*number)? {
            found.push(*number)?;
        }
    }
    Ok(found)
}

/// The number of each word that the expression names, once, in the order of first naming.
pub(crate) fn words_named(alloc: Global, expr: &Expr) -> Result<Vec<u32>, AllocError>
    ensures { IfOk result (λ words. words.items ≡ words_named (formula_of expr.now)) }
{
    let mut namings = Vec::new(alloc);
    put_namings(expr, &mut namings)?;
    each_once(alloc, &namings)
}

/// The number of each word that two expressions name, once, in the order of first naming.
pub(crate) fn words_of_sides(
    alloc: Global,
    left: &Expr,
    right: &Expr,
) -> Result<Vec<u32>, AllocError>
    ensures { IfOk result (λ words. words.items
        ≡ each_once (words_named (formula_of left.now) ++ words_named (formula_of right.now))) }
{
    let mut words = words_named(alloc, left)?;
    let right = words_named(alloc, right)?;
    words.extend_from_slice(&right)?;
    each_once(alloc, &words)
}

/// Adds the nets of these words.
pub(crate) fn put_nets(
    words: &[Word],
    numbers: &[u32],
    out: &mut Vec<u32>,
) -> Result<(), AllocError>
    ensures { OnOk result
        (out.new.items ≡ out.old.items ++ flat_map (nets_of words.now) numbers.now) }
{
    for number in numbers {
        out.extend_from_slice(nets_at(words, *number))?;
    }
    Ok(())
}

/// The nets of the words that two expressions name, each once.
pub(crate) fn nets_of_sides(
    alloc: Global,
    words: &[Word],
    left: &Expr,
    right: &Expr,
) -> Result<Vec<u32>, AllocError>
    ensures { IfOk result (λ nets. nets.items
        ≡ nets_of_words words.now (words_named (formula_of left.now) ++ words_named (formula_of right.now))) }
{
    let left = words_named(alloc, left)?;
    let right = words_named(alloc, right)?;
    let mut nets = Vec::new(alloc);
    put_nets(words, &left, &mut nets)?;
    put_nets(words, &right, &mut nets)?;
    each_once(alloc, &nets)
}
