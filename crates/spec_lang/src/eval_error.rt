ghost use Rattle.std.specs.Prelude.{◌≡◌};

use std::alloc::AllocError;
use std::fmt;
use word_base::Overflow;

/// Why a check has no values.
#[derive(Clone, Copy, Debug, PartialEq, Eq)]
pub enum EvalError {
    /// The value of a sub-expression is out of range.
    Overflow,
    /// Want of memory.
    Memory,
}

impl From<Overflow> for EvalError {
    ghost use Rattle.spec_lang.specs.declared.eval_error.EvalError.TheVariants as error;

    ghost from_gives = { λ _ e. e ≡ error.Overflow };

    fn from(_: Overflow) -> EvalError {
        EvalError::Overflow
    }
}

impl From<AllocError> for EvalError {
    ghost use Rattle.spec_lang.specs.declared.eval_error.EvalError.TheVariants.{Memory};

    ghost from_gives = { λ _ e. e ≡ Memory };

    fn from(_: AllocError) -> EvalError {
        EvalError::Memory
    }
}

impl fmt::Display for EvalError {
    ghost use Rattle.std.specs.Prelude.{Some};
    ghost use Rattle.spec_lang.specs.Evaluated.{eval_error_text};

    ghost output = { λ error. Some (eval_error_text error) };

    fn fmt<W: fmt::Write>(&self, f: &mut fmt::Formatter<W>) -> fmt::Result {
        match self {
            EvalError::Overflow => write!(f, "a value needs more than 127 bits"),
            EvalError::Memory => write!(f, "out of memory"),
        }
    }
}

impl std::error::Error for EvalError {}
