ghost use Rattle.std.specs.Prelude.{◌≡◌, IfOk};
ghost use Rattle.std.specs.List.{range_with_len};
ghost use Rattle.spec_lang.specs.WellFormed.{IsOrder};

use std::alloc::{AllocError, Global};

/// The inputs in the order of their numbers.
pub fn input_order(alloc: Global, inputs: u32) -> Result<Vec<u32>, AllocError>
    ensures order { IfOk result (λ order. order.items ≡ range_with_len 0 inputs) }
    ensures is_order { IfOk result (λ order. IsOrder order.items) }
{
    let mut order = Vec::with_capacity(alloc, inputs as usize)?;
    for net in 0..inputs {
        order.push(net)?;
    }
    Ok(order)
}
