//! The kinds of files of the state, and how they begin.

ghost use Rattle.std.specs.Prelude.{◌≡◌, ◌≢◌, ◌++◌, ℕ, List, MatchOption};
ghost use Rattle.ssq_version.specs.Text.{first_word};

/// The kinds of files that keep the state of a partition.
#[derive(Clone, Copy)]
pub enum Form {
    /// What a version changed.
    Delta,
    /// The whole state at a version.
    Snapshot,
}

impl Form {
    /// The bytes with which a file of this form begins.
    pub(crate) fn first_word(self) -> &'static [u8]
        ensures { result.now ≡ first_word self }
    {
        match self {
            Form::Delta => b"SSQDELT1",
            Form::Snapshot => b"SSQSNAP1",
        }
    }
}

/// What follows the first word of a file of this form.
pub(crate) fn after_first_word(form: Form, text: &[u8]) -> Option<&[u8]>
    ensures { MatchOption result ((rest : List ℕ) → text.now ≢ first_word form ++ rest) (λ rest. text.now ≡ first_word form ++ rest.now) }
{
    text.strip_prefix(form.first_word())
}
