ghost use Rattle.std.specs.Prelude.{◌≡◌, ◌<◌, ◌↔◌, ◌==◌, length, slice_get, IfOk};
ghost use Rattle.word_base.specs.declared.levels.TheConstants.{MOST_LEVELS};

use crate::decomp::Decomp;
use std::alloc::{AllocError, Global};
use std::fmt;
use std::marker::Model;

/// The levels that a diagram may have: one for each of 256 inputs and 4,096 gates.
pub const MOST_LEVELS: usize = 4352;

/// The letters of a diagram's levels, from the top level down. Level 0 is the top.
#[derive(Debug, Drop)]
pub struct Levels {
    letters: Vec<Decomp>,
}

impl Model for Levels {
    ghost use Rattle.std.specs.Prelude.{List, length, ◌≤◌};
    ghost use Rattle.std.specs.Coded.{coded_list};
    ghost use Rattle.word_base.specs.declared.decomp.Decomp.{Decomp};
    ghost use Rattle.word_base.specs.declared.levels.TheConstants.{MOST_LEVELS};

    ghost Value = { List Decomp };

    ghost view = { λ l. l.letters.items };

    ghost invariant = { λ l. length l.letters.items ≤ MOST_LEVELS };
}

/// Why there are no such levels.
#[derive(Clone, Copy, Debug, PartialEq, Eq)]
pub enum LevelsFault {
    /// More than `MOST_LEVELS` letters.
    TooMany,
    /// Want of memory.
    Memory,
}

impl fmt::Display for LevelsFault {
    ghost use Rattle.std.specs.Prelude.{Some};
    ghost use Rattle.word_base.specs.Fault.{fault_text};

    ghost output = { λ fault. Some (fault_text fault) };

    fn fmt<W: fmt::Write>(&self, f: &mut fmt::Formatter<W>) -> fmt::Result {
        match self {
            LevelsFault::TooMany => write!(f, "more than {MOST_LEVELS} levels"),
            LevelsFault::Memory => write!(f, "out of memory"),
        }
    }
}

impl std::error::Error for LevelsFault {}

impl Levels {
    /// The levels of these letters, the top level's first.
    pub fn new(alloc: Global, letters: &[Decomp]) -> Result<Levels, LevelsFault>
        ensures letters { IfOk result (λ l. l ≡ letters.now) }
        ensures too_many { (result ≡ Err LevelsFault.TooMany) ↔ (MOST_LEVELS < length letters.now) }
    {
        if letters.len() > MOST_LEVELS {
            return Err(LevelsFault::TooMany);
        }
        match Vec::from_slice(alloc, letters) {
            Ok(letters) => Ok(Levels { letters }),
            Err(AllocError) => Err(LevelsFault::Memory),
        }
    }

    /// How many levels there are.
    pub fn len(&self) -> u16
        ensures { result ≡ length self.now }
    {
        self.letters.len() as u16
    }

    /// Whether there are none.
    pub fn is_empty(&self) -> bool
        ensures { result ≡ (length self.now == 0) }
    {
        self.letters.is_empty()
    }

    /// The letter of a level.
    pub fn at(&self, level: u16) -> Decomp
        requires { level < length self.now }
        ensures { slice_get self.now level ≡ Some result }
    {
        self.letters[level as usize]
    }
}
