//! The rows of an epoch as the text of its sink file.

ghost use Rattle.std.specs.Prelude.{◌≡◌, ◌++◌, ℕ, Bool, List, IfOk, OnOk, count_by};
ghost use Rattle.std.specs.List.{All, flat_map};
ghost use Rattle.std.specs.List.Sorted.{IsPermutation};
ghost use Rattle.std.specs.Str.{IsUtf8};
ghost use Rattle.ssq_value.specs.declared.value.Value.{Value as Cell};
ghost use Rattle.ssq_time.specs.Time.{IsStampTime};
ghost use Rattle.ssq_value.specs.Kind.{IfTime};
ghost use Rattle.ssq_json.specs.RowText.{heads_of};
ghost use Rattle.ssq_shape.specs.declared.bound.Bound.{Bound as Query};
ghost use Rattle.ssq_sink.specs.Sink.{line_with, ordered_text, sink_text};

use crate::columns::output_heads;
use crate::order::sort;
use ssq_json::{Heads, put_row, utf8_text};
use ssq_shape::{Bound, SortKey};
use ssq_value::{Row, Text};
use std::alloc::{AllocError, Global};

/// The text of an epoch's sink file: the rows sorted by the keys of ORDER BY, and where they tie on these value by value from the left,
/// one JSON line each, with a line feed after each. NULL sorts first, and under DESC last. Of no rows the text is empty. The rows have the
/// columns of SELECT, and times of the years 0001 to 9999.
pub fn epoch_text(alloc: Global, bound: &Bound, rows: Vec<Row>) -> Result<Text, AllocError>
    requires { All (All (IfTime IsStampTime)) rows.items }
    ensures { IfOk result (λ text. text ≡ sink_text bound.now rows.items) }
{
    let heads = output_heads(alloc, bound.outputs.as_slice())?;
    rows_text(alloc, &heads, bound.order.as_slice(), rows)
}

/// The rows with these heads, sorted by these keys, one line each.
pub(crate) fn rows_text(
    alloc: Global,
    heads: &Heads,
    order: &[SortKey],
    rows: Vec<Row>,
) -> Result<Text, AllocError>
    requires { All (All (IfTime IsStampTime)) rows.items }
    ensures { (names : List (List ℕ)) → heads.now ≡ heads_of names → IfOk result (λ text. text ≡ ordered_text names order.now rows.items) }
{
    let rows = sort(order, rows);
    let mut text = Vec::new(alloc);
    put_lines(&mut text, heads, rows.as_slice())?;
    Ok(utf8_text(text))
}

/// Adds a row to a text, with a line feed after it.
pub(crate) fn put_line(text: &mut Vec<u8>, heads: &Heads, row: &Row) -> Result<(), AllocError>
    requires { All (IfTime IsStampTime) row.now }
    ensures text { OnOk result (text.new.items ≡ text.old.items ++ line_with heads.now row.now) }
    ensures utf8 { OnOk result (IsUtf8 text.old.items → IsUtf8 text.new.items) }
{
    put_row(text, heads, row)?;
    text.push(b'\n')?;
    Ok(())
}

fn put_lines(text: &mut Vec<u8>, heads: &Heads, rows: &[Row]) -> Result<(), AllocError>
    requires { All (All (IfTime IsStampTime)) rows.now }
    ensures text { OnOk result
        (text.new.items ≡ text.old.items ++ flat_map (line_with heads.now) rows.now) }
    ensures utf8 { OnOk result (IsUtf8 text.old.items → IsUtf8 text.new.items) }
{
    for row in rows {
        put_line(text, heads, row)?;
    }
    Ok(())
}

/// The law of `epoch_text`: the order in which the rows come changes nothing, so two lists with the same rows, each as often,
/// have one text.
pub fn order_is_free()
    ensures permuted { (query : Query) (left right : List (List Cell))
        → IsPermutation left right → sink_text query left ≡ sink_text query right }
    ensures same_rows { (query : Query) (left right : List (List Cell))
        → ((test : List Cell → Bool) → count_by test left ≡ count_by test right)
        → sink_text query left ≡ sink_text query right }
{}
