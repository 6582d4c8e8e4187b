ghost use Rattle.std.specs.Prelude.{◌≡◌, length, IfOk};
ghost use Rattle.spec_lang.specs.Placed.{placed};
ghost use Rattle.spec_lang.specs.WellFormed.{IsOrder};

use std::alloc::{AllocError, Global};
use word_base::Assign;

/// The bits of the inputs by number, where `at` has them in this order.
pub(crate) fn inputs_by_number(
    alloc: Global,
    order: &[u32],
    at: &Assign,
) -> Result<Assign, AllocError>
    requires order { IsOrder order.now }
    requires bits { length at.now ≡ length order.now }
    ensures { IfOk result (λ inputs. inputs ≡ placed (length order.now) order.now at.now) }
{
    let mut inputs = Assign::new(alloc, at.len())?;
    for level in 0..at.len() {
        inputs.set(order[level as usize] as u16, at.get(level));
    }
    Ok(inputs)
}
