//! Places that are counted.

ghost use Rattle.std.specs.Prelude.{◌≡◌, [], ◌∷◌};
ghost use Rattle.ssq_check.specs.Counted.{tally_of, Counts};

/// Of places in order what rules ask for: the first, and the one that is one too many.
#[derive(Clone, Copy)]
pub struct Tally {
    pub first: Option<usize>,
    /// How many more there may be, as long as there are not too many.
    pub more: Option<usize>,
    pub past: Option<usize>,
}

impl Tally {
    /// No place, of which there may be so many.
    pub(crate) fn none_of(most: usize) -> Tally
        ensures { result ≡ tally_of most [] }
    {
        Tally {
            first: None,
            more: Some(most),
            past: None,
        }
    }

    /// One place more, after the others.
    pub(crate) fn counting(self, at: usize) -> Tally
        ensures { Counts self (at ∷ []) result }
    {
        match self.more {
            Some(0) => Tally {
                first: self.first.or(Some(at)),
                more: None,
                past: Some(at),
            },
            Some(more) => Tally {
                first: self.first.or(Some(at)),
                more: Some(more - 1),
                past: self.past,
            },
            None => self,
        }
    }
}
