ghost use Rattle.std.specs.Prelude.{◌≡◌};
ghost use Rattle.spec_lang.specs.Formula.{formula_of};

use crate::expr::Expr;
use std::marker::Model;

/// Two expressions that are said to be equal.
#[derive(Debug, Drop)]
pub struct Check {
    left: Expr,
    right: Expr,
}

impl Model for Check {
    ghost use Rattle.spec_lang.specs.Specification.{Check};
    ghost use Rattle.spec_lang.specs.Stored.{check_code};
    ghost use Rattle.spec_lang.specs.Formula.{formula_of};

    ghost Value = { Check };

    ghost coded = { check_code };

    ghost view = { λ check.
        record { left = formula_of check.left; right = formula_of check.right } };
}

impl Check {
    /// The check that these are equal.
    pub fn new(left: Expr, right: Expr) -> Check
        ensures { result ≡ record { left = formula_of left; right = formula_of right } }
    {
        Check { left, right }
    }

    /// The left and the right side.
    pub fn sides(&self) -> (&Expr, &Expr)
        ensures { self.now
            ≡ record { left = formula_of result.0.now; right = formula_of result.1.now } }
    {
        (&self.left, &self.right)
    }
}
