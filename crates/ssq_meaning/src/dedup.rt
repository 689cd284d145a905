//! Laws of rows without repeats.

ghost use Rattle.std.specs.Prelude.{◌≡◌, ◌≤◌, ◌++◌, ℕ, ℤ, true, false, flat_map, length, map, List, Option, Some, All};
ghost use Rattle.std.specs.BTreeMap.{is_at};
ghost use Rattle.std.specs.Cmp.Lexicographic.{slice_cmp};
ghost use Rattle.std.specs.List.{AllByRecursion, range_with_len};
ghost use Rattle.std.specs.List.Sorted.{IsPermutation, IsStrictlySortedBy};
ghost use Rattle.std.specs.Map.{lookup};
ghost use Rattle.std.specs.Ordering.{nat_cmp};
ghost use Rattle.ssq_value.specs.Key.{IsSpelled, keys_of};
ghost use Rattle.ssq_shape.specs.declared.bound.Bound.{Bound as Query};
ghost use Rattle.ssq_shape.specs.declared.bound.Shape.TheVariants as shape;
ghost use Rattle.ssq_meaning.specs.FedRows.{FedRow as Fed};
ghost use Rattle.ssq_meaning.specs.Cut.{Cuts};
ghost use Rattle.ssq_meaning.specs.Dedup.{is_closed, kept, meant};
ghost use Rattle.ssq_meaning.specs.DedupLaws.{Follows, IsDedupRow, IsKnownAt, IsOpenTo, entry_if, is_held, is_held_next, meaning_at};
ghost use Rattle.ssq_meaning.specs.Epochs.{accepted, bucket, fed, on_time, watermark, watermark_before};
ghost use Rattle.ssq_meaning.specs.Feeding.{fed_in};
ghost use Rattle.ssq_meaning.specs.Group.{has_key};
ghost use Rattle.ssq_meaning.specs.GroupLaws.{IsKeySpelled};
ghost use Rattle.ssq_meaning.specs.Laws.{outs};
ghost use Rattle.ssq_meaning.specs.Meaning.{Values};
ghost use Rattle.ssq_meaning.specs.Operator.{dedup};
ghost use Rattle.ssq_meaning.specs.Parts.{Part};

use ssq_value::keys_are_apart;

/// The law of rows without repeats: what the rows before meant, and then what an epoch shows, is what all rows mean, in their order. So the
/// rows of the first epochs, one after the other, are what the query means after them.
pub fn first_rows_add_up()
    ensures epoch { (query : Query) (columns : List ℕ) (old new : List Fed) (before now : Option ℤ) →
        meant old ++ (dedup query columns).added old new before now ≡ meant (old ++ new) }
    ensures rows { (query : Query) (columns : List ℕ) → query.shape ≡ shape.Dedup columns → (parts : List Part) (cuts : Cuts) (n : ℕ) →
        outs query parts cuts n ≡ meaning_at query parts cuts n }
{}

/// The law of late rows: an accepted row's key was forgotten by no epoch, so that it is kept exactly where a row before has it.
pub fn forgotten_keys_lose_no_row()
    ensures opens { (query : Query) (columns : List ℕ) → query.shape ≡ shape.Dedup columns → (parts : List Part) (cuts : Cuts) (e : ℕ) →
        All (λ row. IsOpenTo query columns parts cuts e row.key) (on_time query parts cuts e) }
    ensures known { (query : Query) (columns : List ℕ) → query.shape ≡ shape.Dedup columns → (parts : List Part) (cuts : Cuts) (e : ℕ) →
        All (λ row. IsKnownAt query columns parts cuts e row.key) (on_time query parts cuts e) }
{}

/// The law of what a step needs: what is kept of a key after an epoch is told by what was kept of it, by the watermark and by the new rows; a
/// new row is a repeat of an old one exactly where its key is kept; and a key that is closed has no new row.
pub fn first_rows_are_told_by_what_is_kept()
    ensures next { (query : Query) (columns : List ℕ) (old new : List Fed) (before now : Option ℤ) → Follows query columns new before now → (key : Values) →
        is_held query columns (old ++ new) now key ≡ is_held_next (is_closed query columns now key) (is_held query columns old before key) (has_key new key) }
    ensures known { (query : Query) (columns : List ℕ) (old new : List Fed) (before now : Option ℤ) → Follows query columns new before now →
        All (λ row. is_held query columns old before row.key ≡ has_key old row.key) new }
    ensures ended { (query : Query) (columns : List ℕ) (old new : List Fed) (before now : Option ℤ) → Follows query columns new before now → (key : Values) →
        is_closed query columns now key ≡ true → has_key new key ≡ false }
{}

/// The law of partitions: what these show together, each of its own rows, is what all rows show, as a bag.
pub fn first_rows_fall_into_partitions()
    ensures { (partitions : ℕ) → 1 ≤ partitions → (query : Query) (columns : List ℕ) (old new : List Fed) (before now : Option ℤ) →
        IsPermutation (flat_map (λ p. (dedup query columns).added (bucket partitions p old) (bucket partitions p new) before now) (range_with_len 0 partitions))
        ((dedup query columns).added old new before now) }
{}

/// The law of what is kept, as bytes: the bytes of a key are there, with nothing after them, where it is kept, and else not.
pub fn kept_keys_are_found()
    ensures found { (query : Query) (columns : List ℕ) (rows : List Fed) (now : Option ℤ) (key : Values) → All IsSpelled key →
        AllByRecursion (λ row. IsKeySpelled (length key) row.key) rows →
        lookup (is_at (slice_cmp nat_cmp (keys_of key))) (kept query columns rows now) ≡ entry_if (is_held query columns rows now key) }
    // What is there is the bytes of a key that a row has.
    ensures own { (query : Query) (columns : List ℕ) (rows : List Fed) (now : Option ℤ) (bytes value : List ℕ) →
        lookup (is_at (slice_cmp nat_cmp bytes)) (kept query columns rows now) ≡ Some value → (key : Values) × (bytes ≡ keys_of key) × (has_key rows key ≡ true) }
    // The keys ascend by their bytes.
    ensures ascend { (query : Query) (columns : List ℕ) (rows : List Fed) (now : Option ℤ) →
        IsStrictlySortedBy (slice_cmp nat_cmp) (map (λ entry. entry.0) (kept query columns rows now)) }
{
    keys_are_apart();
}

/// The law of a partition's epochs: its rows of an epoch that are not late follow those before.
pub fn epochs_without_repeats_follow()
    ensures { (query : Query) (columns : List ℕ) → query.shape ≡ shape.Dedup columns → (parts : List Part) (cuts : Cuts) (partitions p e : ℕ) →
        Follows query columns (bucket partitions p (on_time query parts cuts e)) (watermark_before query parts cuts e) (watermark query parts cuts e) }
{}

/// The law of rows that are fed to DEDUPLICATE: the time of each is the closing time of its key, which has a value for each of the columns.
pub fn repeats_are_fed_by_their_keys()
    ensures part { (query : Query) (columns : List ℕ) → query.shape ≡ shape.Dedup columns → (epoch : ℕ) (part : Part) (from to : ℕ) →
        All (IsDedupRow query columns) (fed_in query epoch part from to) }
    ensures fed { (query : Query) (columns : List ℕ) → query.shape ≡ shape.Dedup columns → (parts : List Part) (cuts : Cuts) (e : ℕ) →
        All (IsDedupRow query columns) (fed query parts cuts e) }
    ensures on_time { (query : Query) (columns : List ℕ) → query.shape ≡ shape.Dedup columns → (parts : List Part) (cuts : Cuts) (e : ℕ) →
        All (IsDedupRow query columns) (on_time query parts cuts e) }
    ensures accepted { (query : Query) (columns : List ℕ) → query.shape ≡ shape.Dedup columns → (parts : List Part) (cuts : Cuts) (e : ℕ) →
        All (IsDedupRow query columns) (accepted query parts cuts e) }
{}
