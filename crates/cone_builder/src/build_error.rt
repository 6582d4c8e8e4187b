ghost use Rattle.std.specs.Prelude.{◌≡◌};

use diagram::Limit;
use std::alloc::AllocError;
use std::fmt;

/// Why the sides of a check were not built.
#[derive(Clone, Copy, Debug, PartialEq, Eq)]
pub enum BuildError {
    /// A number is no weight.
    Overflow,
    /// The store holds no further node.
    Full,
    /// Want of memory.
    Memory,
}

impl From<Limit> for BuildError {
    ghost use Rattle.cone_builder.specs.Sides.{build_error_of};

    ghost from_gives = { λ limit e. e ≡ build_error_of limit };

    fn from(limit: Limit) -> BuildError {
        match limit {
            Limit::Overflow => BuildError::Overflow,
            Limit::Full => BuildError::Full,
        }
    }
}

impl From<AllocError> for BuildError {
    ghost use Rattle.cone_builder.specs.declared.build_error.BuildError.TheVariants.{Memory};

    ghost from_gives = { λ _ e. e ≡ Memory };

    fn from(_: AllocError) -> BuildError {
        BuildError::Memory
    }
}

impl fmt::Display for BuildError {
    ghost use Rattle.std.specs.Prelude.{Some};
    ghost use Rattle.cone_builder.specs.Sides.{build_error_text};

    ghost output = { λ error. Some (build_error_text error) };

    fn fmt<W: fmt::Write>(&self, f: &mut fmt::Formatter<W>) -> fmt::Result {
        match self {
            BuildError::Overflow => write!(f, "a number needs more than 127 bits"),
            BuildError::Full => write!(f, "the store of nodes is full"),
            BuildError::Memory => write!(f, "out of memory"),
        }
    }
}

impl std::error::Error for BuildError {}
