ghost use Rattle.std.specs.Prelude.{◌≡◌, ◌≤◌, length, vec_capacity};
ghost use Rattle.kind_laws.specs.Plain.{plain, answered};
ghost use Rattle.diagram.specs.Calls.{CanPart};
ghost use Rattle.diagram.specs.Cofactor.{IsHalf};
ghost use Rattle.diagram.specs.View.{View, Keeps};

use crate::limit::Limit;
use crate::manager::Manager;
use crate::sum_walk::{SumFrame, sum_of};
use kind_laws::{Edge, Kind};
use record_store::Store;
use word_base::Decomp;

/// The half of an edge's table where a level's variable is the bit.
pub(crate) fn half<K: Kind, S: Store>(
    manager: &mut Manager<K, S>,
    sums: &mut Vec<SumFrame<K>>,
    edge: Edge<K>,
    level: u16,
    bit: bool,
) -> Result<Edge<K>, Limit>
    requires good { CanPart K.NAME manager.old level (plain K.extra_of edge) }
    requires room { length manager.old.letters ≤ vec_capacity sums.old }
    ensures room { vec_capacity sums.new ≡ vec_capacity sums.old }
    ensures keeps { Keeps manager.old manager.new }
    ensures half { IsHalf K.NAME manager.old manager.new level bit (plain K.extra_of edge)
        (answered (plain K.extra_of) result) }
{
    let (low, high) = manager.parts(edge, level)?;
    match manager.letter(level) {
        Decomp::S => Ok(if bit { high } else { low }),
        Decomp::P => if bit {
            sum_of(manager, sums, low, high)
        } else {
            Ok(low)
        },
        Decomp::N => if bit {
            Ok(low)
        } else {
            sum_of(manager, sums, low, high)
        },
    }
}
