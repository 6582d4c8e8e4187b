ghost use Rattle.std.specs.Prelude.{◌≡◌, ◌<◌, ◌≤◌, length, slice_get, IfOk, IfSome, Some};
ghost use Rattle.spec_lang.specs.Evaluated.{AreEvaluated, AreValues};
ghost use Rattle.spec_lang.specs.Formula.{formula_of};
ghost use Rattle.spec_lang.specs.Named.{nets_named, words_of_check};
ghost use Rattle.spec_lang.specs.Placed.{net_values};
ghost use Rattle.spec_lang.specs.Specification.{specification};
ghost use Rattle.spec_lang.specs.Value.{nets_of};
ghost use Rattle.spec_lang.specs.WellFormed.{IsOver, IsWellFormed};
ghost use Rattle.spec_lang.specs.declared.limits.TheConstants.{MOST_NETS_OF_WORD};

use crate::check::Check;
use crate::eval_error::EvalError;
use crate::expr::Expr;
use crate::inputs::inputs_by_number;
use crate::named::{nets_of_sides, words_of_sides};
use crate::value::values_of;
use crate::word::Word;
use netlist::Netlist;
use std::alloc::AllocError;
use std::marker::Model;
use word_base::{Assign, Decomp, Overflow, Weight};

/// A specification over a netlist: an order of its inputs with a letter for each, words of its nets, and
/// checks over the words.
#[derive(Debug, Drop)]
pub struct Spec {
    order: Vec<u32>,
    letters: Vec<Decomp>,
    words: Vec<Word>,
    checks: Vec<Check>,
}

impl Model for Spec {
    ghost use Rattle.spec_lang.specs.Specification.{Specification, specification};
    ghost use Rattle.spec_lang.specs.Stored.{specification_code};
    ghost use Rattle.spec_lang.specs.WellFormed.{IsWellFormed};

    ghost Value = { Specification };

    ghost coded = { specification_code };

    ghost view = { λ spec.
        specification spec.order.items spec.letters.items spec.words.items spec.checks.items };

    ghost invariant = { λ spec. IsWellFormed
        (specification spec.order.items spec.letters.items spec.words.items spec.checks.items) };
}

impl Spec {
    /// The specification of all these. No expression of it is deeper than a check has symbols.
    pub fn new(order: Vec<u32>, letters: Vec<Decomp>, words: Vec<Word>, checks: Vec<Check>) -> Spec
        requires { IsWellFormed (specification order.items letters.items words.items checks.items) }
        ensures { result ≡ specification order.items letters.items words.items checks.items }
    {
        Spec {
            order,
            letters,
            words,
            checks,
        }
    }

    /// The inputs by number, from the top level down.
    pub fn order(&self) -> &[u32]
        ensures order { result.now ≡ self.now.order }
        ensures well_formed { IsWellFormed self.now }
    {
        self.order.as_slice()
    }

    /// The letter of an input level.
    pub fn letter(&self, level: u32) -> Decomp
        requires { level < length self.now.order }
        ensures { slice_get self.now.letters level ≡ Some result }
    {
        self.letters[level as usize]
    }

    /// How many words there are.
    pub fn words(&self) -> u32
        ensures words { result ≡ length self.now.words }
        ensures well_formed { IsWellFormed self.now }
    {
        self.words.len() as u32
    }

    /// The nets of a word, the one of weight 1 first.
    pub fn word(&self, word: u32) -> &[u32]
        requires { word < length self.now.words }
        ensures nets { result.now ≡ nets_of self.now.words word }
        ensures some { 0 < length result.now }
        ensures few { length result.now ≤ MOST_NETS_OF_WORD }
    {
        self.words[word as usize].nets()
    }

    /// How many checks there are.
    pub fn checks(&self) -> u32
        ensures checks { result ≡ length self.now.checks }
        ensures well_formed { IsWellFormed self.now }
    {
        self.checks.len() as u32
    }

    /// The left and the right side of a check.
    pub fn check(&self, check: u32) -> (&Expr, &Expr)
        requires { check < length self.now.checks }
        ensures { slice_get self.now.checks check
            ≡ Some (record { left = formula_of result.0.now; right = formula_of result.1.now }) }
    {
        self.checks[check as usize].sides()
    }

    /// The words that the check names, by number, each once, in the order of first naming: the left side
    /// before the right.
    pub fn words_named(&self, check: u32) -> Result<Vec<u32>, AllocError>
        requires { check < length self.now.checks }
        ensures { IfOk result (λ words.
            IfSome (slice_get self.now.checks check) (λ sides. words.items ≡ words_of_check sides)) }
    {
        let (left, right) = self.check(check);
        words_of_sides(*self.order.allocator(), left, right)
    }

    /// The nets that the check's words name, each once, in the order of first naming: the left side before
    /// the right, and in a word the net of weight 1 first.
    pub fn named(&self, check: u32) -> Result<Vec<u32>, AllocError>
        requires { check < length self.now.checks }
        ensures { IfOk result (λ nets.
            IfSome (slice_get self.now.checks check) (λ sides. nets.items ≡ nets_named self.now sides)) }
    {
        let (left, right) = self.check(check);
        nets_of_sides(*self.order.allocator(), &self.words, left, right)
    }

    /// Both sides' values at given values of the nets, by number. `Overflow` comes exactly where the value of
    /// a sub-expression of either side is out of range.
    pub fn sides_at(&self, check: u32, values: &[bool]) -> Result<(Weight, Weight), Overflow>
        requires { check < length self.now.checks }
        ensures { AreValues self.now.words (slice_get self.now.checks check) values.now result }
    {
        let (left, right) = self.check(check);
        values_of(left, right, &self.words, values)
    }

    /// Both sides' values over a netlist, at the bits of the inputs in the order of the specification, from the
    /// top level down. `Overflow` comes exactly where the value of a sub-expression of either side is out of range.
    pub fn evaluate(
        &self,
        check: u32,
        netlist: &Netlist,
        at: &Assign,
    ) -> Result<(Weight, Weight), EvalError>
        requires check { check < length self.now.checks }
        requires over { IsOver netlist.now self.now }
        requires bits { length at.now ≡ length self.now.order }
        ensures { AreEvaluated self.now.words (slice_get self.now.checks check)
            (net_values netlist.now self.now at.now) result }
    {
        let alloc = *self.order.allocator();
        let inputs = inputs_by_number(alloc, &self.order, at)?;
        let mut values = Vec::new(alloc);
        netlist.evaluate(&inputs, &mut values)?;
        Ok(self.sides_at(check, &values)?)
    }
}
