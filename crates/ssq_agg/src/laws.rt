//! Laws of steps.

ghost use Rattle.std.specs.Prelude.{◌≡◌, ◌+◌, ◌<◌, ◌^◌, ℤ, List, Option, length};
ghost use Rattle.std.specs.List.{AllByRecursion};
ghost use Rattle.ssq_value.specs.declared.value.Value.{Value as Cell};
ghost use Rattle.ssq_shape.specs.declared.bound.Bound.{Bound as Query};
ghost use Rattle.ssq_shape.specs.declared.bound.Grouping.{Grouping as Groups};
ghost use Rattle.ssq_meaning.specs.FedRows.{FedRow as Fed};
ghost use Rattle.ssq_meaning.specs.GroupLaws.{held};
ghost use Rattle.ssq_agg.specs.Groups.{AreSteady, HasBigints, Held};

use ssq_meaning::groups_are_due_by_what_is_kept;

/// The law of totals: fewer than 2^64 rows, whose numbers have 64 bits, bring no total out of its type.
pub fn few_rows_are_steady()
    ensures { (query : Query) (grouping : Groups) (own : Held) (old new : List Fed) (before : Option ℤ) →
        ((key : List Cell) → own key ≡ held query grouping old before key) → length old + length new < 2 ^ 64 →
        AllByRecursion HasBigints old → AllByRecursion HasBigints new → AreSteady grouping.aggregates own new }
{
    groups_are_due_by_what_is_kept();
}
