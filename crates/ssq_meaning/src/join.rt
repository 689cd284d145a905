//! Laws of joined rows.

ghost use Rattle.std.specs.Prelude.{◌≡◌, ◌≤◌, ◌++◌, ◌||◌, ◌^◌, ℕ, ℤ, filter, filter_map, flat_map, length, map, not, if◌then◌else◌, true, false, All, List, Option};
ghost use Rattle.std.specs.Cmp.Lexicographic.{slice_cmp};
ghost use Rattle.std.specs.List.{AllByRecursion, range_with_len};
ghost use Rattle.std.specs.List.Sorted.{IsPermutation, IsStrictlySortedBy};
ghost use Rattle.std.specs.Ordering.{nat_cmp};
ghost use Rattle.ssq_shape.specs.declared.bound.Bound.{Bound as Query};
ghost use Rattle.ssq_shape.specs.declared.bound.Joining.{Joining as Joins};
ghost use Rattle.ssq_shape.specs.declared.bound.Shape.TheVariants as shape;
ghost use Rattle.ssq_meaning.specs.FedRows.{FedRow as Fed};
ghost use Rattle.ssq_meaning.specs.Cut.{Cuts};
ghost use Rattle.ssq_meaning.specs.Epochs.{accepted, bucket, fed, on_time, watermark, watermark_before};
ghost use Rattle.ssq_meaning.specs.Feeding.{fed_in};
ghost use Rattle.ssq_meaning.specs.Group.{least_key};
ghost use Rattle.ssq_meaning.specs.Join.{entry_of, faulty_among, has_partner, is_over, kept, meant, open_rows, shown_among};
ghost use Rattle.ssq_meaning.specs.JoinLaws.{AreApart, ArePartsApart, FindsAll, Follows, HasFewLines, IsBounded, IsJoinRow, IsOpenTo, IsReordered, alone_at, alone_so_far, are_candidates, considered_by, meaning_at, times_over};
ghost use Rattle.ssq_meaning.specs.Laws.{outs};
ghost use Rattle.ssq_meaning.specs.Operator.{join};
ghost use Rattle.ssq_meaning.specs.Meaning.{Line};
ghost use Rattle.ssq_meaning.specs.Parts.{Part, parts_of};

use ssq_json::rows_fit_their_schema;
use ssq_shape::values_stay_fit;
use ssq_value::keys_are_apart;
use ssq_window::windows_hold_their_time;

/// The law of joined rows: what the rows before meant, and then what an epoch shows, is what all rows mean. So the rows of the first epochs
/// are, as a bag, what the query means after them.
pub fn joined_rows_add_up()
    ensures epoch { (query : Query) (joining : Joins) (old new : List Fed) (before now : Option ℤ) → IsBounded joining → Follows new before now →
        IsPermutation (meant query joining old before ++ (join query joining).added old new before now) (meant query joining (old ++ new) now) }
    ensures rows { (query : Query) (joining : Joins) → query.shape ≡ shape.Join joining → IsBounded joining → (parts : List Part) (cuts : Cuts) (n : ℕ) →
        IsPermutation (outs query parts cuts n) (meaning_at query joining parts cuts n) }
{}

/// The law of rows without a partner: those that the first epochs consider are, as a bag, those that are over after them and have none; and
/// each row is over first in exactly one epoch.
pub fn rows_alone_are_considered_once()
    ensures rows { (query : Query) (joining : Joins) → query.shape ≡ shape.Join joining → IsBounded joining → (parts : List Part) (cuts : Cuts) (n : ℕ) →
        IsPermutation (alone_so_far query joining parts cuts n) (alone_at query joining parts cuts n) }
    ensures once { (query : Query) (joining : Joins) (parts : List Part) (cuts : Cuts) (row : Fed) (n : ℕ) →
        times_over query joining parts cuts row n ≡ (if is_over joining (watermark_before query parts cuts n) row then 1 else 0) }
{}

/// The law of late rows: no epoch has forgotten a row that meets the key equalities and the bound with a row that it accepts, so that each such
/// row that was accepted before is kept.
pub fn forgotten_rows_lose_no_partner()
    ensures opens { (query : Query) (joining : Joins) → query.shape ≡ shape.Join joining → (parts : List Part) (cuts : Cuts) (e : ℕ) →
        All (λ row. (other : Fed) → are_candidates joining row other ≡ true → IsOpenTo query joining parts cuts e other) (on_time query parts cuts e) }
    ensures found { (query : Query) (joining : Joins) → query.shape ≡ shape.Join joining → (parts : List Part) (cuts : Cuts) (e : ℕ) →
        All (FindsAll query joining parts cuts e) (on_time query parts cuts e) }
{}

/// The law of what a step needs: what an epoch considers is told by the rows that are kept, in whatever order, by whether these met a partner,
/// and by the epoch's rows; so is what is kept after it.
pub fn joined_rows_are_told_by_what_is_kept()
    ensures shown { (query : Query) (joining : Joins) (old held new : List Fed) (before now : Option ℤ) → IsBounded joining → Follows new before now →
        IsReordered (open_rows joining old before) held →
        IsPermutation (shown_among (considered_by query joining old held new now)) ((join query joining).added old new before now) }
    ensures fault { (query : Query) (joining : Joins) (old held new : List Fed) (before now : Option ℤ) → IsBounded joining → Follows new before now →
        IsReordered (open_rows joining old before) held →
        least_key (faulty_among (considered_by query joining old held new now)) ≡ (join query joining).fault old new before now }
    ensures rows { (joining : Joins) (old new : List Fed) (before now : Option ℤ) → IsBounded joining → Follows new before now →
        open_rows joining (old ++ new) now ≡ filter (λ row. not (is_over joining now row)) (open_rows joining old before) ++ new }
    ensures met { (joining : Joins) (old new : List Fed) (row : Fed) →
        has_partner joining (old ++ new) row ≡ (has_partner joining old row || has_partner joining new row) }
    ensures new { (joining : Joins) (old new : List Fed) (before now : Option ℤ) → Follows new before now →
        All (λ row. has_partner joining old row ≡ has_partner joining (open_rows joining old before) row) new }
{}

/// The law of places: no two of the rows that were accepted are kept under the same bytes, where no two parts are the same part of one side.
/// So it is of the parts of two streams.
pub fn joined_rows_are_kept_apart()
    ensures rows { (query : Query) (joining : Joins) → query.shape ≡ shape.Join joining → (parts : List Part) → ArePartsApart parts →
        AllByRecursion HasFewLines parts → (cuts : Cuts) (n : ℕ) → n ≤ 2 ^ 32 → AreApart (accepted query parts cuts n) }
    ensures bucket { (rows : List Fed) (partitions p : ℕ) → AreApart rows → AreApart (bucket partitions p rows) }
    ensures parts { (counts : List ℕ) (lines : List (List Line)) → length counts ≤ 2 → ArePartsApart (parts_of counts lines) }
{
    keys_are_apart();
    rows_fit_their_schema();
    values_stay_fit();
    windows_hold_their_time();
}

/// The law of what is kept, as bytes: the rows that are not over, in some order, each with whether it met a partner.
pub fn kept_rows_are_listed()
    ensures listed { (joining : Joins) (rows : List Fed) (now : Option ℤ) → AreApart rows →
        (ordered : List Fed) × IsReordered (open_rows joining rows now) ordered × (kept joining rows now ≡ map (entry_of joining rows) ordered) }
    // The keys ascend by their bytes.
    ensures ascend { (joining : Joins) (rows : List Fed) (now : Option ℤ) →
        IsStrictlySortedBy (slice_cmp nat_cmp) (map (λ entry. entry.0) (kept joining rows now)) }
{}

/// The law of partitions: what these show together, each of its own rows, is what all rows show, as a bag, and the least of the keys on
/// which they overflow is that of all.
pub fn joined_rows_fall_into_partitions()
    ensures rows { (partitions : ℕ) → 1 ≤ partitions → (query : Query) (joining : Joins) (old new : List Fed) (before now : Option ℤ) →
        IsPermutation (flat_map (λ p. (join query joining).added (bucket partitions p old) (bucket partitions p new) before now) (range_with_len 0 partitions))
        ((join query joining).added old new before now) }
    ensures fault { (partitions : ℕ) → 1 ≤ partitions → (query : Query) (joining : Joins) (old new : List Fed) (before now : Option ℤ) →
        least_key (filter_map (λ p. (join query joining).fault (bucket partitions p old) (bucket partitions p new) before now) (range_with_len 0 partitions)) ≡
        (join query joining).fault old new before now }
{}

/// The law of a partition's epochs: its rows of an epoch that are not late follow those before.
pub fn epochs_of_joins_follow()
    ensures { (query : Query) (joining : Joins) → query.shape ≡ shape.Join joining → (parts : List Part) (cuts : Cuts) (partitions p e : ℕ) →
        Follows (bucket partitions p (on_time query parts cuts e)) (watermark_before query parts cuts e) (watermark query parts cuts e) }
{}

/// The law of rows that are fed to a join: the key and the time of each are those of its values.
pub fn rows_are_fed_to_joins()
    ensures part { (query : Query) (joining : Joins) → query.shape ≡ shape.Join joining → (epoch : ℕ) (part : Part) (from to : ℕ) →
        All (IsJoinRow joining) (fed_in query epoch part from to) }
    ensures fed { (query : Query) (joining : Joins) → query.shape ≡ shape.Join joining → (parts : List Part) (cuts : Cuts) (e : ℕ) →
        All (IsJoinRow joining) (fed query parts cuts e) }
    ensures on_time { (query : Query) (joining : Joins) → query.shape ≡ shape.Join joining → (parts : List Part) (cuts : Cuts) (e : ℕ) →
        All (IsJoinRow joining) (on_time query parts cuts e) }
    ensures accepted { (query : Query) (joining : Joins) → query.shape ≡ shape.Join joining → (parts : List Part) (cuts : Cuts) (e : ℕ) →
        All (IsJoinRow joining) (accepted query parts cuts e) }
{}
