//! What a query means, on whole lists of lines.
//!
//! The definitions stand in `specs/`: they filter and project whole lists and know nothing of files, retries or
//! order of work. What runs a query is proved against them.
#![tactic(auto)]

mod closing;
mod dedup;
mod fed;
mod fed_row;
mod groups;
mod join;
mod laws;
mod line;
mod place;
mod total;

pub use closing::{event_column, join_time, key_length, keys_have_times};
pub use dedup::{
    epochs_without_repeats_follow, first_rows_add_up, first_rows_are_told_by_what_is_kept,
    first_rows_fall_into_partitions, forgotten_keys_lose_no_row, kept_keys_are_found,
    repeats_are_fed_by_their_keys,
};
pub use fed::{fed_rows_are_few, fed_rows_are_fit, fit_values_are_spelled};
pub use fed_row::{FedRow, View};
pub use groups::{
    epochs_of_groups_follow, forgotten_groups_lose_no_row, groups_add_up,
    groups_are_considered_once, groups_are_due_by_what_is_kept, groups_are_fed_by_their_keys,
    groups_are_kept_whole, groups_come_in_any_order, groups_fall_into_partitions,
    groups_in_append_add_up, groups_in_complete_are_shown_whole,
    groups_in_update_replace_their_rows, kept_groups_are_found,
};
pub use join::{
    epochs_of_joins_follow, forgotten_rows_lose_no_partner, joined_rows_add_up,
    joined_rows_are_kept_apart, joined_rows_are_told_by_what_is_kept,
    joined_rows_fall_into_partitions, kept_rows_are_listed, rows_alone_are_considered_once,
    rows_are_fed_to_joins,
};
pub use laws::{
    epochs_hang_on_their_cuts, epochs_hang_on_what_they_read, epochs_without_lines_are_quiet,
    greatest_times_are_of_all_lines, kept_keys_ascend, keys_overflow_in_their_partitions,
    partitions_overflow_on_the_least_key, partitions_show_all_rows, rows_add_up,
    watermarks_never_fall,
};
pub use line::LineFault;
pub use place::{KeyPlace, key_place, placed_time};
pub use total::Total;
