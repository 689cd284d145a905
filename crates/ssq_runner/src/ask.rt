//! What is asked of a run.

/// What is asked of a run, beside its query.
#[derive(Clone, Copy)]
pub struct Ask {
    /// How many partitions there are, 1 to 64. Where that is not asked, they are as kept, and one in a new checkpoint.
    pub partitions: Option<u32>,
    /// The most lines that an epoch takes of each part, if there is a cap: at least 1.
    pub cap: Option<u64>,
    /// How many rounds are run: at least 1.
    pub rounds: u32,
}
