//! How partitions go on from epoch to epoch.

ghost use Rattle.ssq_terms.specs.Partitions.{KeysAreLeast, PartitionsAreBrought, PartitionsContinue};

use ssq_agg::few_rows_are_steady;
use ssq_course::joined_rows_are_wide;
use ssq_meaning::{
    epochs_of_groups_follow, epochs_of_joins_follow, epochs_without_repeats_follow,
    fed_rows_are_few, fed_rows_are_fit, groups_are_fed_by_their_keys, joined_rows_are_kept_apart,
    partitions_overflow_on_the_least_key, repeats_are_fed_by_their_keys, rows_are_fed_to_joins,
};
use ssq_outside::Stage;

/// The law of partitions: the reduce task of a partition in an epoch, with the rows that the epoch feeds to it and the state after the
/// epochs before, is given all that the operator of the query needs; and what it brings is the partition's own.
pub fn partitions_continue<S: Stage>()
    ensures given { PartitionsContinue S S.Sealed }
    ensures brought { PartitionsAreBrought S.tells S.written S.sealed S.faults }
{
    fed_rows_are_fit();
    fed_rows_are_few();
    epochs_of_groups_follow();
    groups_are_fed_by_their_keys();
    epochs_without_repeats_follow();
    repeats_are_fed_by_their_keys();
    epochs_of_joins_follow();
    rows_are_fed_to_joins();
    joined_rows_are_wide();
    joined_rows_are_kept_apart();
    few_rows_are_steady();
}

/// The law of keys that overflow: the least on which an epoch does is the least of those on which its partitions do.
pub fn partitions_overflow()
    ensures { KeysAreLeast }
{
    partitions_overflow_on_the_least_key();
}
