//! What the buckets of a map task hold.

ghost use Rattle.std.specs.Prelude.{◌≡◌, ◌<◌, ℕ, List, length};
ghost use Rattle.ssq_route.specs.Buckets.{bucket_at};
ghost use Rattle.ssq_meaning.specs.FedRows.{FedRow as Fed};
ghost use Rattle.ssq_meaning.specs.Epochs.{bucket};
ghost use Rattle.ssq_feed.specs.Rows.{dealt};

/// The law of buckets: there is one for each partition, which holds exactly the rows whose keys have that place, in order.
pub fn buckets_are_partitions()
    ensures count { (partitions : ℕ) (rows : List Fed) → length (dealt partitions rows) ≡ partitions }
    ensures rows { (partitions p : ℕ) (rows : List Fed) → p < partitions → bucket_at (dealt partitions rows) p ≡ bucket partitions p rows }
{}
