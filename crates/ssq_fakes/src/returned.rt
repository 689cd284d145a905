//! What logs answered that were given back.

ghost use Rattle.std.specs.Prelude.{◌≡◌, ◌∷◌};

use std::mem;

/// How often a log was asked for the number of its lines, and what it answered each time.
#[derive(Clone, Copy)]
pub struct Answers {
    pub asked: u64,
    pub lines: u64,
}

/// The answers of each log that was given back, the last one first. The room of an entry is the box that holds those
/// before it, and comes with its log, so that giving a log back takes no memory.
pub enum Returned {
    Empty,
    Then(Answers, Box<Returned>),
}

impl Drop for Returned {
    fn drop(mut self) {
        loop {
            match self {
                Returned::Empty => return,
                Returned::Then(_, older) => self = Box::into_inner(older),
            }
        }
    }
}

impl Returned {
    ghost use Rattle.ssq_fakes.specs.Returned.{answers_of, returned_of};

    /// Adds the answers of a log in this room.
    pub fn push(&mut self, answers: Answers, mut room: Box<Returned>)
        ensures { returned_of self.new ≡ answers_of answers ∷ returned_of self.old }
    {
        *room = mem::replace(self, Returned::Empty);
        *self = Returned::Then(answers, room);
    }
}
