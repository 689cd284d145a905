//! Laws of evaluation.

ghost use Rattle.std.specs.Prelude.{◌≡◌, true, List, Option, Some, All, IfOk, IfSome};
ghost use Rattle.ssq_value.specs.declared.column.ColType.{ColType as Kind};
ghost use Rattle.ssq_value.specs.declared.value.Value.{Value as Cell};
ghost use Rattle.ssq_value.specs.Kind.{IsHeldBy, IfTime};
ghost use Rattle.ssq_time.specs.Time.{is_stamp_time};
ghost use Rattle.ssq_shape.specs.declared.typed.Typed.{Typed as Expression};
ghost use Rattle.ssq_shape.specs.Evaluation.{evaluated, evaluated_with};
ghost use Rattle.ssq_shape.specs.Fit.{IsFit};
ghost use Rattle.ssq_shape.specs.Kinds.{kind_in, kind_with, AreHeldBy, AreFoundIn};

/// The law of types: a well-typed expression, on a row of the types with which it was bound, gives NULL or a value
/// of its type.
pub fn values_have_their_kind()
    ensures { (kinds : List Kind) (row : List Cell) (expression : Expression) (kind : Kind) → AreHeldBy kinds row →
        kind_in kinds expression ≡ Some kind → IfOk (evaluated expression row) (IsHeldBy kind) }
{}

/// The law of times: where each time of the row is of the years 0001 to 9999, so is the value.
pub fn times_stay_printable()
    ensures { (row : List Cell) (expression : Expression) → All (IfTime (λ t. is_stamp_time t ≡ true)) row →
        IfOk (evaluated expression row) (IfTime (λ t. is_stamp_time t ≡ true)) }
{}

/// The law of types of a group: a well-typed expression, on keys and aggregates of the types with which it was bound,
/// gives NULL or a value of its type.
pub fn groups_have_their_kind()
    ensures { (aggregate_kinds kinds : List Kind) (aggregates : List (Option Cell)) (keys : List Cell) (expression : Expression) (kind : Kind) → AreFoundIn aggregate_kinds aggregates → AreHeldBy kinds keys →
        kind_with aggregate_kinds kinds expression ≡ Some kind → IfOk (evaluated_with aggregates expression keys) (IsHeldBy kind) }
{}

/// The law of times of a group: where each time of the keys and of the aggregates is of the years 0001 to 9999, so is
/// the value.
pub fn groups_stay_printable()
    ensures { (aggregates : List (Option Cell)) (keys : List Cell) (expression : Expression) →
        All (λ aggregate. IfSome aggregate (IfTime (λ t. is_stamp_time t ≡ true))) aggregates → All (IfTime (λ t. is_stamp_time t ≡ true)) keys →
        IfOk (evaluated_with aggregates expression keys) (IfTime (λ t. is_stamp_time t ≡ true)) }
{}

/// The law of what a query can give: where each value of the row is a number of 64 bits, a time of the years 0001 to 9999 or a text of at
/// most 1,048,576 bytes, so is the value.
pub fn values_stay_fit()
    ensures { (row : List Cell) (expression : Expression) → All IsFit row → IfOk (evaluated expression row) IsFit }
{}
