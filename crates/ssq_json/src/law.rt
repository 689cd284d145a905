//! What holds of each row that was read.

ghost use Rattle.std.specs.Prelude.{List, ℕ, IfOk, IfSome};
ghost use Rattle.ssq_value.specs.Layout.{Layout};
ghost use Rattle.ssq_json.specs.Fits.{FitsSchema};
ghost use Rattle.ssq_json.specs.Line.{row_of};

/// The law of rows: each row that a line is fits its schema.
pub fn rows_fit_their_schema()
    ensures { (schema : Layout) (line : List ℕ) → IfOk (row_of schema line) (λ row. IfSome row (FitsSchema schema)) }
{}
