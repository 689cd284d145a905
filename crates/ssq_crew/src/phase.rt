//! The tasks of a phase, one after the other.

ghost use Rattle.std.specs.Prelude.{◌≡◌, ◌<◌, ℕ, length, slice_index_or};
ghost use Rattle.ssq_crew.specs.Places.{IsRun, AreRun};

use crate::place::{Place, Task};
use ssq_outside::Gate;

/// Runs each task that waits, in order. A place without one stays as it is. It takes no memory.
pub fn run_phase<T: Task, G: Gate>(gate: &G, places: &mut [Place<T>])
    ensures { AreRun T.is_result places.old places.new }
{
    for place in places.iter_mut() {
        place.run(gate);
    }
}
