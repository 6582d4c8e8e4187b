ghost use Rattle.std.specs.Prelude.{◌≡◌, ◌<◌, ◌==◌, length, false, slice_get, slice_set, replicate, IfOk};

use std::alloc::{AllocError, Global};
use std::marker::Model;

/// One bit for each place, counted from 0.
#[derive(Debug, Drop)]
pub struct Assign {
    bits: Vec<bool>,
}

impl Model for Assign {
    ghost use Rattle.std.specs.Prelude.{List, Bool, length, ◌<◌, ◌^◌};

    ghost Value = { List Bool };

    ghost view = { λ a. a.bits.items };

    ghost invariant = { λ a. length a.bits.items < 2 ^ 16 };
}

impl Assign {
    /// As many zeros as asked for.
    pub fn new(alloc: Global, len: u16) -> Result<Assign, AllocError>
        ensures { IfOk result (λ a. a ≡ replicate len false) }
    {
        let bits = vec![in alloc; false; len as usize]?;
        Ok(Assign { bits })
    }

    /// How many places there are.
    pub fn len(&self) -> u16
        ensures { result ≡ length self.now }
    {
        self.bits.len() as u16
    }

    /// Whether there are none.
    pub fn is_empty(&self) -> bool
        ensures { result ≡ (length self.now == 0) }
    {
        self.bits.is_empty()
    }

    /// The bit at the place.
    pub fn get(&self, place: u16) -> bool
        requires { place < length self.now }
        ensures { slice_get self.now place ≡ Some result }
    {
        self.bits[place as usize]
    }

    /// Puts the bit at the place, and leaves all others.
    pub fn set(&mut self, place: u16, bit: bool)
        requires { place < length self.old }
        ensures { self.new ≡ slice_set self.old place bit }
    {
        self.bits[place as usize] = bit;
    }
}
