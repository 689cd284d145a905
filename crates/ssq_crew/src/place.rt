//! A task, and the place where it waits or its result lies.

ghost use Rattle.std.specs.Prelude.{◌≡◌};
ghost use Rattle.ssq_crew.specs.Places.{IsRun};

use ssq_outside::{Gate, TaskId};
use std::mem;

/// Work that owns all that it touches.
pub trait Task: Drop {
    /// What the task comes back as, with all that it owned.
    type Done: Drop;

    /// What may be the result of the task as it was given.
    ghost is_result: { Self → Self.Done → Type 0 };

    /// Which task it is.
    fn id(&self) -> TaskId;

    /// Does the work.
    fn work(self) -> Self::Done
        ensures { is_result self result };
}

/// The place of a task.
#[derive(Drop)]
pub enum Place<T: Task> {
    /// The task waits.
    Waits(T),
    /// It was done, and this is its result.
    Done(T::Done),
    /// There is none.
    Empty,
}

impl<T: Task> Place<T> {
    /// Runs the task, if one waits: it passes the gate, and its result lies in its place.
    pub fn run<G: Gate>(&mut self, gate: &G)
        ensures { IsRun T.is_result self.old self.new }
    {
        *self = match mem::replace(self, Place::Empty) {
            Place::Waits(task) => {
                gate.at(task.id());
                Place::Done(task.work())
            }
            other => other,
        };
    }
}
