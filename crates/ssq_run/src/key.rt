//! The text of a key.

ghost use Rattle.std.specs.Prelude.{◌≡◌, ◌++◌, ◌∷◌, [], map, IfOk, OnOk};
ghost use Rattle.ssq_time.specs.Time.{IsStampTime, stamp_text};
ghost use Rattle.ssq_run.specs.Keys.{time_token, value_token, key_text};

use json::Writer;
use ssq_json::utf8_text;
use ssq_time::{is_stamp_time, time_text};
use ssq_value::{Text, Value};
use std::alloc::{AllocError, Global};

/// The text of a time.
fn stamp_text(alloc: Global, time: i64) -> Result<Text, AllocError>
    requires { IsStampTime time }
    ensures { IfOk result (λ text. text ≡ stamp_text time) }
{
    Ok(utf8_text(time_text(alloc, time)?))
}

/// Writes a time: its text, or its number where it has none.
fn put_time(alloc: Global, writer: &mut Writer, time: i64) -> Result<(), AllocError>
    ensures tokens { OnOk result (writer.new.tokens ≡ writer.old.tokens ++ time_token time ∷ []) }
    ensures before { writer.new.before ≡ writer.old.before }
{
    if !is_stamp_time(time) {
        return writer.i64(time);
    }
    let text = stamp_text(alloc, time)?;
    writer.string(text.as_str())
}

/// Writes a value.
fn put_value(alloc: Global, writer: &mut Writer, value: &Value) -> Result<(), AllocError>
    ensures tokens { OnOk result (writer.new.tokens ≡ writer.old.tokens ++ value_token value.now ∷ []) }
    ensures before { writer.new.before ≡ writer.old.before }
{
    match value {
        Value::Null => writer.null(),
        Value::Int(number) => writer.i64(*number),
        Value::Text(text) => writer.string(text.as_str()),
        Value::Time(time) => put_time(alloc, writer, *time),
        Value::Truth(truth) => writer.boolean(*truth),
    }
}

/// Writes values, one after the other.
fn put_values(alloc: Global, writer: &mut Writer, values: &[Value]) -> Result<(), AllocError>
    ensures tokens { OnOk result (writer.new.tokens ≡ writer.old.tokens ++ map value_token values.now) }
    ensures before { writer.new.before ≡ writer.old.before }
{
    for value in values {
        put_value(alloc, writer, value)?;
    }
    Ok(())
}

/// A key's values as a JSON array, a window by its start.
pub(crate) fn key_text(alloc: Global, key: &[Value]) -> Result<Text, AllocError>
    ensures { IfOk result (λ text. text ≡ key_text key.now) }
{
    let mut writer = Writer::new(Vec::new(alloc));
    writer.begin_array()?;
    put_values(alloc, &mut writer, key)?;
    writer.end_array()?;
    Ok(utf8_text(writer.into_inner()))
}
