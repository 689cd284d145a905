//! What is told of a bound query.

ghost use Rattle.std.specs.Prelude.{◌≡◌, string_bytes, IfOk};
ghost use Rattle.ssq_bind.specs.Explained.{shape_name, mode_name, event_name, time_name, answer, told, explained};

use ssq_shape::{Bound, Mode, Shape, Stream, TimeKey, closes, time_key};
use std::alloc::{AllocError, Global};

fn shape_name(shape: &Shape) -> &'static str
    ensures { result.now ≡ shape_name shape.now }
{
    match shape {
        Shape::Plain => "Plain",
        Shape::Group(_) => "Group",
        Shape::Dedup(_) => "Dedup",
        Shape::Join(_) => "Join",
    }
}

fn mode_name(mode: Mode) -> &'static str
    ensures { result.now ≡ mode_name mode }
{
    match mode {
        Mode::Append => "Append",
        Mode::Update => "Update",
        Mode::Complete => "Complete",
    }
}

/// The name of the event column of the stream of FROM.
fn event_name(streams: &[Stream]) -> &str
    ensures { result.now ≡ event_name streams.now }
{
    match streams.first() {
        Some(stream) => match stream.schema.event() {
            Some(at) => match stream.schema.columns().get(at) {
                Some(column) => column.name.as_str(),
                None => "",
            },
            None => "",
        },
        None => "",
    }
}

fn time_name<'a>(streams: &'a [Stream], key: Option<TimeKey>) -> &'a str
    ensures { result.now ≡ time_name streams.now key }
{
    match key {
        None => "none",
        Some(TimeKey::WindowEnd) => "window_end",
        Some(TimeKey::EventTime) => event_name(streams),
        Some(TimeKey::Both) => "both",
    }
}

fn answer(is: bool) -> &'static str
    ensures { result.now ≡ answer is }
{
    if is { "yes" } else { "no" }
}

fn told(
    alloc: Global,
    text: &str,
    shape: &str,
    mode: &str,
    late: &str,
    closes: &str,
) -> Result<String, AllocError>
    ensures { IfOk result (λ line. string_bytes line ≡ told text.now shape.now mode.now late.now closes.now) }
{
    Ok(format!(in alloc; "{text}\nshape {shape} mode {mode} late {late} closes {closes}\n")?)
}

/// What is told of a bound query: its canonical text, and a line `shape S mode M late T closes yes`, or `closes no`.
///
/// S is Plain, Group, Dedup or Join; M is Append, Update or Complete. T is the time by which rows are late, whatever the
/// mode: `window_end`, the name of the event column, `both` for a join with a bound, and `none` where no row is ever late.
/// A query closes where it shows rows once the watermark rises, also where no line comes.
pub fn explain(alloc: Global, bound: &Bound) -> Result<String, AllocError>
    ensures { IfOk result (λ text. string_bytes text ≡ explained bound.now) }
{
    let shape = shape_name(&bound.shape);
    let mode = mode_name(bound.mode);
    let late = time_name(bound.streams.as_slice(), time_key(bound));
    let closes = answer(closes(bound));
    told(alloc, bound.text.as_str(), shape, mode, late, closes)
}
