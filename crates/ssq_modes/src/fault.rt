//! Why a query may not run in its mode.

use thiserror::Error;

/// A rule of modes that a query breaks. Of several the one that stands first here is told.
#[derive(Clone, Copy, Debug, Error)]
pub enum ModeFault {
    /// Groups in Append that have no time key: none would ever be closed.
    #[error("groups in APPEND need a time key of a watermarked stream")]
    AppendNeedsWatermark,
    /// Complete, and no groups: every row would have to be kept.
    #[error("COMPLETE needs groups")]
    CompleteNeedsAggregate,
    /// A join in Update.
    #[error("a join needs APPEND")]
    JoinNeedsAppend,
    /// An outer join without a bound: of no row would it ever be known that it meets no partner.
    #[error("an outer join needs a bound between event times")]
    OuterNeedsBound,
    /// A bound, and a stream without a watermark.
    #[error("a bound needs a watermark on each stream")]
    BoundNeedsWatermark,
    /// ORDER BY, and not groups in Complete.
    #[error("ORDER BY needs groups in COMPLETE")]
    SortNeedsComplete,
    /// HAVING in Update: a row that was shown could not be taken back.
    #[error("HAVING in UPDATE")]
    HavingInUpdate,
    /// Groups in Update, and a column of GROUP BY that is no item of SELECT by itself: rows of one group could not be
    /// told from those of another.
    #[error("a column of GROUP BY is not shown in UPDATE")]
    KeyNotShown,
}
