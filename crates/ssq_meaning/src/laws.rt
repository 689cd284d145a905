//! Laws of epochs, of each query.

ghost use Rattle.std.specs.Prelude.{◌≡◌, ◌+◌, ◌-◌, ◌<◌, ◌≤◌, ℕ, ℤ, List, [], ◌∷◌, Option, None, filter_map, flat_map, map};
ghost use Rattle.std.specs.Cmp.Lexicographic.{slice_cmp};
ghost use Rattle.std.specs.List.{range_with_len};
ghost use Rattle.std.specs.List.Sorted.{IsPermutation, IsStrictlySortedBy};
ghost use Rattle.std.specs.Ordering.{nat_cmp};
ghost use Rattle.ssq_shape.specs.declared.bound.Bound.{Bound as Query};
ghost use Rattle.ssq_shape.specs.declared.bound.Shape.TheVariants as shape;
ghost use Rattle.ssq_meaning.specs.FedRows.{FedRow as Fed};
ghost use Rattle.ssq_meaning.specs.Parts.{Part};
ghost use Rattle.ssq_meaning.specs.Cut.{Cuts, start_of, AreCuts, AreSameTo};
ghost use Rattle.ssq_meaning.specs.Times.{AtMost};
ghost use Rattle.ssq_meaning.specs.Epochs.{accepted, bucket, key_fault, on_time, seen, time_between, watermark, watermark_before};
ghost use Rattle.ssq_meaning.specs.Group.{least_key};
ghost use Rattle.ssq_meaning.specs.Operator.{operator_of};
ghost use Rattle.ssq_meaning.specs.Laws.{ReadsSame, SaysSame, outs, batch};

/// The law of cuts: what is said of the first n epochs, and the watermark of the next, hang on where these epochs end, and on nothing
/// that comes later.
pub fn epochs_hang_on_their_cuts()
    ensures { (query : Query) (parts : List Part) (one other : Cuts) (n : ℕ) → AreSameTo one other n →
        SaysSame query parts parts one other n }
{}

/// The law of what is read: what is said of the first n epochs, and the watermark of the next, hang on what these read of the lines, and on
/// nothing else that the parts hold.
pub fn epochs_hang_on_what_they_read()
    ensures { (query : Query) (parts others : List Part) (one other : Cuts) (n : ℕ) → ReadsSame query parts others one other n →
        SaysSame query parts others one other n }
{}

/// The law of watermarks: they never fall, from none to a time included.
pub fn watermarks_never_fall()
    ensures { (query : Query) (parts : List Part) (cuts : Cuts) (e f : ℕ) → e ≤ f →
        AtMost (watermark query parts cuts e) (watermark query parts cuts f) }
{}

/// The law of greatest times: what was seen of a stream as an epoch begins is the greatest event time among its rows of all lines that
/// the epochs before it cover, however these were cut. So the watermark of an epoch depends on these lines alone, whatever their cuts and
/// the epoch's number. The watermark before an epoch is that of the epoch before it, and so depends on the lines before that one; where
/// there is no epoch before, there are no such lines.
pub fn greatest_times_are_of_all_lines()
    ensures seen { (query : Query) (parts : List Part) (cuts : Cuts) (e stream : ℕ) → AreCuts parts cuts e →
        seen query parts cuts stream e ≡ time_between query parts (start_of parts) (cuts e) stream }
    ensures watermark { (query : Query) (parts : List Part) (one other : Cuts) (e f : ℕ) → AreCuts parts one e → AreCuts parts other f → one e ≡ other f →
        watermark query parts one e ≡ watermark query parts other f }
    ensures before { (query : Query) (parts : List Part) (one other : Cuts) (e f : ℕ) → AreCuts parts one (e - 1) → AreCuts parts other (f - 1) →
        one (e - 1) ≡ other (f - 1) → watermark_before query parts one e ≡ watermark_before query parts other f }
{}

/// The law of epochs without lines: they leave the greatest times as they were, and so the watermark of the epoch after them.
pub fn epochs_without_lines_are_quiet()
    ensures seen { (query : Query) (parts : List Part) (cuts : Cuts) (e : ℕ) → cuts (e + 1) ≡ cuts e → (stream : ℕ) →
        seen query parts cuts stream (e + 1) ≡ seen query parts cuts stream e }
    ensures watermark { (query : Query) (parts : List Part) (cuts : Cuts) (e : ℕ) → cuts (e + 1) ≡ cuts e →
        watermark query parts cuts (e + 1) ≡ watermark query parts cuts e }
{}

/// The law of a query that keeps nothing: the rows of the first epochs, one after the other, are those of the batch query on the
/// lines that these epochs cover, however they were cut. With one part they also come in the same order.
pub fn rows_add_up()
    ensures bag { (query : Query) (parts : List Part) (cuts : Cuts) (n : ℕ) → query.shape ≡ shape.Plain → AreCuts parts cuts n →
        IsPermutation (outs query parts cuts n) (batch query parts (cuts n)) }
    ensures list { (query : Query) (part : Part) (cuts : Cuts) (n : ℕ) → query.shape ≡ shape.Plain → AreCuts (part ∷ []) cuts n →
        outs query (part ∷ []) cuts n ≡ batch query (part ∷ []) (cuts n) }
{}

/// The law of keys that overflow, of a query of any shape: where no partition has one in an epoch, the epoch has none.
pub fn keys_overflow_in_their_partitions()
    ensures { (query : Query) (parts : List Part) (cuts : Cuts) (e partitions : ℕ) → 1 ≤ partitions →
        ((p : ℕ) → p < partitions → (operator_of query).fault (bucket partitions p (accepted query parts cuts e)) (bucket partitions p (on_time query parts cuts e))
        (watermark_before query parts cuts e) (watermark query parts cuts e) ≡ None) →
        key_fault query parts cuts e ≡ None }
{}

/// The law of the least key that overflows, of a query of any shape: it is the least of those of the partitions.
pub fn partitions_overflow_on_the_least_key()
    ensures { (query : Query) (partitions : ℕ) → 1 ≤ partitions → (old new : List Fed) (before now : Option ℤ) →
        least_key (filter_map (λ p. (operator_of query).fault (bucket partitions p old) (bucket partitions p new) before now) (range_with_len 0 partitions)) ≡
        (operator_of query).fault old new before now }
{}

/// The law of partitions, of a query of any shape: what these show together, each of its own rows, is what the epoch shows, as a bag.
pub fn partitions_show_all_rows()
    ensures { (query : Query) (partitions : ℕ) → 1 ≤ partitions → (old new : List Fed) (before now : Option ℤ) →
        IsPermutation (flat_map (λ p. (operator_of query).added (bucket partitions p old) (bucket partitions p new) before now) (range_with_len 0 partitions))
        ((operator_of query).added old new before now) }
{}

/// The law of what is kept, of a query of any shape: the keys ascend by their bytes.
pub fn kept_keys_ascend()
    ensures { (query : Query) (rows : List Fed) (now : Option ℤ) →
        IsStrictlySortedBy (slice_cmp nat_cmp) (map (λ entry. entry.0) ((operator_of query).state rows now)) }
{}
