//! Laws of the rows that are fed.

ghost use Rattle.std.specs.Prelude.{◌≡◌, ◌≤◌, ◌+◌, ◌-◌, ◌*◌, ℕ, List, All, length, sum};
ghost use Rattle.ssq_value.specs.declared.value.Value.{Value as Cell};
ghost use Rattle.ssq_value.specs.Key.{HasShortText, IsSpelled};
ghost use Rattle.ssq_shape.specs.declared.bound.Bound.{Bound as Query};
ghost use Rattle.ssq_shape.specs.Fit.{IsFit};
ghost use Rattle.ssq_shape.specs.Windows.{HasWindows};
ghost use Rattle.ssq_meaning.specs.FedRows.{FedRow as Fed};
ghost use Rattle.ssq_meaning.specs.Cut.{Cuts, AreCuts, AreWithin};
ghost use Rattle.ssq_meaning.specs.Epochs.{accepted, bucket, fed, on_time};
ghost use Rattle.ssq_meaning.specs.Feeding.{fed_in};
ghost use Rattle.ssq_meaning.specs.Fit.{IsFitRow};
ghost use Rattle.ssq_meaning.specs.Parts.{Part};

use ssq_json::rows_fit_their_schema;
use ssq_shape::values_stay_fit;
use ssq_window::windows_hold_their_time;

/// The law of what a state can hold: each row that is fed is one, of a query of any shape whose windows it can have; so is each row of
/// those that are on time, that were accepted, and of a bucket of such rows.
pub fn fed_rows_are_fit()
    ensures part { (query : Query) → HasWindows query → (epoch : ℕ) (part : Part) (from to : ℕ) → All IsFitRow (fed_in query epoch part from to) }
    ensures fed { (query : Query) → HasWindows query → (parts : List Part) (cuts : Cuts) (e : ℕ) → All IsFitRow (fed query parts cuts e) }
    ensures on_time { (query : Query) → HasWindows query → (parts : List Part) (cuts : Cuts) (e : ℕ) → All IsFitRow (on_time query parts cuts e) }
    ensures accepted { (query : Query) → HasWindows query → (parts : List Part) (cuts : Cuts) (e : ℕ) → All IsFitRow (accepted query parts cuts e) }
    ensures bucket { (rows : List Fed) (partitions p : ℕ) → All IsFitRow rows → All IsFitRow (bucket partitions p rows) }
{
    rows_fit_their_schema();
    values_stay_fit();
    windows_hold_their_time();
}

/// The law of how many rows there are: a line feeds at most 64, of a query of any shape whose windows it can have. So an epoch feeds at
/// most 64 for each of its lines, and the first epochs leave at most 64 for each of the lines that they cover; a bucket has no more rows
/// than there are.
pub fn fed_rows_are_few()
    ensures part { (query : Query) → HasWindows query → (epoch : ℕ) (part : Part) (from to : ℕ) → length (fed_in query epoch part from to) ≤ 64 * (to - from) }
    ensures fed { (query : Query) → HasWindows query → (parts : List Part) (cuts : Cuts) (e : ℕ) → AreWithin parts (cuts e) (cuts (e + 1)) →
        length (fed query parts cuts e) ≤ 64 * (sum (cuts (e + 1)) - sum (cuts e)) }
    ensures on_time { (query : Query) → HasWindows query → (parts : List Part) (cuts : Cuts) (e : ℕ) → AreWithin parts (cuts e) (cuts (e + 1)) →
        length (on_time query parts cuts e) ≤ 64 * (sum (cuts (e + 1)) - sum (cuts e)) }
    ensures accepted { (query : Query) → HasWindows query → (parts : List Part) (cuts : Cuts) (e : ℕ) → AreCuts parts cuts e →
        length (accepted query parts cuts e) ≤ 64 * sum (cuts e) }
    ensures bucket { (rows : List Fed) (partitions p : ℕ) → length (bucket partitions p rows) ≤ length rows }
{
    windows_hold_their_time();
}

/// The law of spellings: each value that a query can keep has one, and its text is short enough for the bytes of a key.
pub fn fit_values_are_spelled()
    ensures spelled { (value : Cell) → IsFit value → IsSpelled value }
    ensures short { (value : Cell) → IsFit value → HasShortText value }
{}
