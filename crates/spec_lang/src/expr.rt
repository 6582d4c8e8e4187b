ghost use Rattle.std.specs.Prelude.{◌≡◌, IfOk};
ghost use Rattle.spec_lang.specs.Formula.{formula_of, negative, sum, difference, product};

use sqlite_items::Boxed;
use std::alloc::{AllocError, Global};
use word_base::Weight;

/// An expression over the words of a specification, in integer arithmetic.
#[derive(Debug, Drop)]
pub enum Expr {
    /// A number as it is written. It has no sign: the minus of `-3` is a `Neg`.
    Number(Weight),
    /// The word of this number, counted from 0 in the order of the word lines.
    Word(u32),
    /// Unary minus.
    Neg(Boxed<Expr>),
    /// The first and the second summand.
    Add(Boxed<Expr>, Boxed<Expr>),
    /// What is subtracted from, and then what is subtracted.
    Sub(Boxed<Expr>, Boxed<Expr>),
    /// The first and the second factor.
    Mul(Boxed<Expr>, Boxed<Expr>),
}

impl Expr {
    /// `-a`
    pub fn neg(alloc: Global, a: Expr) -> Result<Expr, AllocError>
        ensures { IfOk result (λ x. formula_of x ≡ negative (formula_of a)) }
    {
        Ok(Expr::Neg(Boxed::new(alloc, a)?))
    }

    /// `a + b`
    pub fn add(alloc: Global, a: Expr, b: Expr) -> Result<Expr, AllocError>
        ensures { IfOk result (λ x. formula_of x ≡ sum (formula_of a) (formula_of b)) }
    {
        Ok(Expr::Add(Boxed::new(alloc, a)?, Boxed::new(alloc, b)?))
    }

    /// `a - b`
    pub fn sub(alloc: Global, a: Expr, b: Expr) -> Result<Expr, AllocError>
        ensures { IfOk result (λ x. formula_of x ≡ difference (formula_of a) (formula_of b)) }
    {
        Ok(Expr::Sub(Boxed::new(alloc, a)?, Boxed::new(alloc, b)?))
    }

    /// `a * b`
    pub fn mul(alloc: Global, a: Expr, b: Expr) -> Result<Expr, AllocError>
        ensures { IfOk result (λ x. formula_of x ≡ product (formula_of a) (formula_of b)) }
    {
        Ok(Expr::Mul(Boxed::new(alloc, a)?, Boxed::new(alloc, b)?))
    }
}
