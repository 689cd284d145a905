//! Laws of groups.

ghost use Rattle.std.specs.Prelude.{◌≡◌, ◌<◌, ◌≤◌, ◌+◌, ◌++◌, ℕ, ℤ, Bool, true, [], if◌then◌else◌, is_some, fold, filter, filter_map, flat_map, length, map, option_map, List, Option, None, All};
ghost use Rattle.std.specs.BTreeMap.{is_at};
ghost use Rattle.std.specs.Cmp.Lexicographic.{slice_cmp};
ghost use Rattle.std.specs.Map.{lookup};
ghost use Rattle.std.specs.Ordering.{nat_cmp};
ghost use Rattle.ssq_value.specs.Key.{IsSpelled, keys_of};
ghost use Rattle.std.specs.List.{AllByRecursion, range_with_len};
ghost use Rattle.std.specs.List.Sorted.{IsPermutation, IsStrictlySortedBy};
ghost use Rattle.ssq_shape.specs.declared.bound.Bound.{Bound as Query};
ghost use Rattle.ssq_shape.specs.declared.bound.Grouping.{Grouping as Groups};
ghost use Rattle.ssq_shape.specs.declared.bound.Mode.TheVariants as mode;
ghost use Rattle.ssq_shape.specs.declared.bound.Shape.TheVariants as shape;
ghost use Rattle.ssq_meaning.specs.FedRows.{FedRow as Fed};
ghost use Rattle.ssq_meaning.specs.Cut.{Cuts};
ghost use Rattle.ssq_meaning.specs.Epochs.{accepted, bucket, fed, key_fault, on_time, watermark, watermark_before};
ghost use Rattle.ssq_meaning.specs.Feeding.{fed_in};
ghost use Rattle.ssq_meaning.specs.Laws.{outs};
ghost use Rattle.ssq_meaning.specs.Meaning.{Values};
ghost use Rattle.ssq_meaning.specs.Parts.{Part};
ghost use Rattle.ssq_meaning.specs.Totals.{totals_bytes, with_row};
ghost use Rattle.ssq_meaning.specs.Table.{ShowsKeys, table};
ghost use Rattle.ssq_meaning.specs.Group.{has_key, is_closed, kept, least_key, meant, members, totals_in};
ghost use Rattle.ssq_meaning.specs.Operator.{group};
ghost use Rattle.ssq_meaning.specs.GroupLaws.{Follows, IsGroupRow, IsKeySpelled, IsOpenTo, IsWholeAt, held, is_due_now, meaning_at, next_held, times, times_closed, times_considered, times_due};

use ssq_value::keys_are_apart;

/// The law of groups that are shown once: what the rows before meant, and then what an epoch shows, is what all rows mean.
pub fn groups_add_up()
    ensures { (query : Query) (grouping : Groups) (old new : List Fed) (before now : Option ℤ) → query.mode ≡ mode.Append →
        Follows query grouping new before now →
        IsPermutation (meant query grouping old before ++ (group query grouping).added old new before now) (meant query grouping (old ++ new) now) }
{}

/// The law of closed groups: each key that has rows and is closed was considered by exactly one epoch, the one that closed it.
pub fn groups_are_considered_once()
    ensures { (query : Query) (grouping : Groups) (old new : List Fed) (before now : Option ℤ) → Follows query grouping new before now →
        (key : Values) → query.mode ≡ mode.Append →
        times_closed query grouping old before key + times_due query grouping old new before now key ≡ times_closed query grouping (old ++ new) now key }
{}

/// The law of what is kept of groups: it is each key's totals over all its rows, and a step needs no more than that, the epoch's rows and its
/// watermark.
pub fn groups_are_kept_whole()
    ensures { (query : Query) (grouping : Groups) (old new : List Fed) (before now : Option ℤ) → Follows query grouping new before now →
        (key : Values) → held query grouping (old ++ new) now key ≡
        next_held grouping.aggregates (is_closed query grouping now key) (held query grouping old before key) (members new key) }
{}

/// The law of groups in Append: the rows of the first epochs are, as a bag, what the query means after them; each key that is closed then and
/// has a row was considered by exactly one of them.
pub fn groups_in_append_add_up()
    ensures rows { (query : Query) (grouping : Groups) → query.shape ≡ shape.Group grouping → (parts : List Part) (cuts : Cuts) →
        query.mode ≡ mode.Append → (n : ℕ) → IsPermutation (outs query parts cuts n) (meaning_at query grouping parts cuts n) }
    ensures once { (query : Query) (grouping : Groups) → query.shape ≡ shape.Group grouping → (parts : List Part) (cuts : Cuts) →
        query.mode ≡ mode.Append → (key : Values) (n : ℕ) → has_key (accepted query parts cuts n) key ≡ true →
        is_closed query grouping (watermark_before query parts cuts n) key ≡ true → times_considered query grouping parts cuts key n ≡ 1 }
{}

/// The law of late rows: an accepted row's key was forgotten by no epoch, so that what is kept of the key has each of its rows.
pub fn forgotten_groups_lose_no_row()
    ensures opens { (query : Query) (grouping : Groups) → query.shape ≡ shape.Group grouping → (parts : List Part) (cuts : Cuts) (e : ℕ) →
        All (λ row. IsOpenTo query grouping parts cuts e row.key) (on_time query parts cuts e) }
    ensures whole { (query : Query) (grouping : Groups) → query.shape ≡ shape.Group grouping → (parts : List Part) (cuts : Cuts) (e : ℕ) →
        All (λ row. IsWholeAt query grouping parts cuts e row.key) (on_time query parts cuts e) }
{}

/// The law of groups in Complete: after each epoch the table has the rows that the query means.
pub fn groups_in_complete_are_shown_whole()
    ensures { (query : Query) (grouping : Groups) → query.shape ≡ shape.Group grouping → (parts : List Part) (cuts : Cuts) →
        query.mode ≡ mode.Complete → (n : ℕ) → IsPermutation (table query parts cuts n) (meaning_at query grouping parts cuts n) }
{}

/// The law of groups in Update: where no epoch has a fault, the table has the rows that the query means, one for each key.
pub fn groups_in_update_replace_their_rows()
    ensures { (query : Query) (grouping : Groups) → query.shape ≡ shape.Group grouping → (parts : List Part) (cuts : Cuts) →
        query.mode ≡ mode.Update → ShowsKeys query grouping → (n : ℕ) → ((e : ℕ) → e < n → key_fault query parts cuts e ≡ None) →
        IsPermutation (table query parts cuts n) (meaning_at query grouping parts cuts n) }
{}

/// The law of orders: lists in which each key stands as often show the same rows, as a bag, and have one least key.
pub fn groups_come_in_any_order()
    ensures rows { (show : Values → Option Values) (one other : List Values) → ((key : Values) → times key one ≡ times key other) →
        IsPermutation (filter_map show one) (filter_map show other) }
    ensures least { (one other : List Values) → ((key : Values) → times key one ≡ times key other) → least_key one ≡ least_key other }
    ensures passing { (key : Values) (p : Values → Bool) (keys : List Values) → times key (filter p keys) ≡ (if p key then times key keys else 0) }
{}

/// The law of what a step needs: which keys an epoch considers is told by what was kept of them, by the watermark and by the new rows; a key
/// that is closed has no new row; and the totals of a key are those before, with its new rows.
pub fn groups_are_due_by_what_is_kept()
    ensures due { (query : Query) (grouping : Groups) (old new : List Fed) (before now : Option ℤ) → Follows query grouping new before now → (key : Values) →
        times_due query grouping old new before now key ≡
        (if is_due_now query.mode (is_some (held query grouping old before key)) (is_closed query grouping now key) (has_key new key) then 1 else 0) }
    ensures ended { (query : Query) (grouping : Groups) (old new : List Fed) (before now : Option ℤ) → Follows query grouping new before now → (key : Values) →
        is_closed query grouping now key ≡ true → members new key ≡ [] }
    ensures totals { (grouping : Groups) (old new : List Fed) (key : Values) →
        totals_in grouping (old ++ new) key ≡ fold with_row (totals_in grouping old key) (members new key) }
{}

/// The law of partitions: what these show together, each of its own rows, is what all rows show, as a bag, and the least of the keys on
/// which they overflow is that of all.
pub fn groups_fall_into_partitions()
    ensures rows { (partitions : ℕ) → 1 ≤ partitions → (query : Query) (grouping : Groups) (old new : List Fed) (before now : Option ℤ) →
        IsPermutation (flat_map (λ p. (group query grouping).added (bucket partitions p old) (bucket partitions p new) before now) (range_with_len 0 partitions))
        ((group query grouping).added old new before now) }
    ensures fault { (partitions : ℕ) → 1 ≤ partitions → (query : Query) (grouping : Groups) (old new : List Fed) (before now : Option ℤ) →
        least_key (filter_map (λ p. (group query grouping).fault (bucket partitions p old) (bucket partitions p new) before now) (range_with_len 0 partitions)) ≡
        (group query grouping).fault old new before now }
{}

/// The law of what is kept, as bytes: after the bytes of a key stand those of its totals, where it is kept, and else nothing.
pub fn kept_groups_are_found()
    ensures found { (query : Query) (grouping : Groups) (rows : List Fed) (now : Option ℤ) (key : Values) → All IsSpelled key →
        AllByRecursion (λ row. IsKeySpelled (length key) row.key) rows →
        lookup (is_at (slice_cmp nat_cmp (keys_of key))) (kept query grouping rows now) ≡ option_map totals_bytes (held query grouping rows now key) }
    // The keys ascend by their bytes.
    ensures ascend { (query : Query) (grouping : Groups) (rows : List Fed) (now : Option ℤ) →
        IsStrictlySortedBy (slice_cmp nat_cmp) (map (λ entry. entry.0) (kept query grouping rows now)) }
{
    keys_are_apart();
}

/// The law of a partition's epochs: its rows of an epoch that are not late follow those before, which they join; and each key has a value for
/// each part of GROUP BY.
pub fn epochs_of_groups_follow()
    ensures follows { (query : Query) (grouping : Groups) → query.shape ≡ shape.Group grouping → (parts : List Part) (cuts : Cuts) (partitions p e : ℕ) →
        Follows query grouping (bucket partitions p (on_time query parts cuts e)) (watermark_before query parts cuts e) (watermark query parts cuts e) }
    ensures lengths { (query : Query) (grouping : Groups) → query.shape ≡ shape.Group grouping → (parts : List Part) (cuts : Cuts) (e : ℕ) →
        All (λ row. length row.key ≡ length grouping.keys) (accepted query parts cuts e) }
    ensures joins { (query : Query) (parts : List Part) (cuts : Cuts) (partitions p e : ℕ) →
        bucket partitions p (accepted query parts cuts (e + 1)) ≡ bucket partitions p (accepted query parts cuts e) ++ bucket partitions p (on_time query parts cuts e) }
{}

/// The law of rows that are fed to groups: the time of each is the closing time of its key, its key has a value for each part of GROUP BY,
/// and it has a value for each aggregate.
pub fn groups_are_fed_by_their_keys()
    ensures part { (query : Query) (grouping : Groups) → query.shape ≡ shape.Group grouping → (epoch : ℕ) (part : Part) (from to : ℕ) →
        All (IsGroupRow query grouping) (fed_in query epoch part from to) }
    ensures fed { (query : Query) (grouping : Groups) → query.shape ≡ shape.Group grouping → (parts : List Part) (cuts : Cuts) (e : ℕ) →
        All (IsGroupRow query grouping) (fed query parts cuts e) }
    ensures on_time { (query : Query) (grouping : Groups) → query.shape ≡ shape.Group grouping → (parts : List Part) (cuts : Cuts) (e : ℕ) →
        All (IsGroupRow query grouping) (on_time query parts cuts e) }
    ensures accepted { (query : Query) (grouping : Groups) → query.shape ≡ shape.Group grouping → (parts : List Part) (cuts : Cuts) (e : ℕ) →
        All (IsGroupRow query grouping) (accepted query parts cuts e) }
{}
