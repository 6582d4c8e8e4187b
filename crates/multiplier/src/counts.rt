ghost use Rattle.std.specs.Prelude.{◌≡◌, ◌≤◌, ◌-◌, ◌*◌, length};
ghost use Rattle.multiplier.specs.Adders.{gates};
ghost use Rattle.multiplier.specs.Nets.{inputs};

use crate::size::{LEAST_SIZE, MOST_SIZE};

/// How many inputs the multiplier of two words of `size` bits has.
pub fn input_count(size: u32) -> u32
    requires not_below { LEAST_SIZE ≤ size }
    requires not_above { size ≤ MOST_SIZE }
    ensures value { result ≡ 2 * size }
    ensures counted { result ≡ length (inputs size) }
{
    2 * size
}

/// How many gates the multiplier of two words of `size` bits has.
pub fn gate_count(size: u32) -> u32
    requires not_below { LEAST_SIZE ≤ size }
    requires not_above { size ≤ MOST_SIZE }
    ensures value { result ≡ 6 * size * size - 8 * size }
    ensures counted { result ≡ length (gates size) }
{
    6 * size * size - 8 * size
}
