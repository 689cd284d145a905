//! The streams of a query: what is read of them, and what expressions see of them.

ghost use Rattle.std.specs.Prelude.{◌≡◌, ◌≤◌, ◌++◌, length, map, take, IfOk, OnOk};
ghost use Rattle.std.specs.Option.{ForSome, option_copied, option_map};
ghost use Rattle.ssq_value.specs.Layout.{IsEvent};
ghost use Rattle.ssq_check.specs.Names.{column_of};
ghost use Rattle.ssq_bind.specs.Streams.{timed, event_in, delay_of, stream_of, listed};

use ssq_ast::{ColumnDecl, Watermark};
use ssq_check::{Spot, declared_spot, list_of};
use ssq_shape::Stream;
use ssq_value::{ColType, Schema, Sequence};
use std::alloc::{AllocError, Global};

fn first(decls: &[ColumnDecl], most: usize) -> &[ColumnDecl]
    ensures first { result.now ≡ take most decls.now }
    ensures few { length result.now ≤ most }
{
    if decls.len() <= most {
        decls
    } else {
        &decls[..most]
    }
}

fn timed(spot: Option<Spot>) -> Option<usize>
    ensures { result ≡ timed spot }
{
    match spot {
        Some(spot) => match spot.kind {
            ColType::Timestamp => Some(spot.index),
            ColType::Bigint => None,
            ColType::Str => None,
            ColType::Bool => None,
        },
        None => None,
    }
}

#[tactic(auto, using(crate::proofs::Events::event_of_columns))]
fn event_in(decls: &[ColumnDecl], watermark: &Option<Watermark>) -> Option<usize>
    ensures event { result ≡ event_in (map column_of decls.now) watermark.now }
    ensures time { ForSome result (IsEvent (map column_of decls.now)) }
{
    match watermark {
        Some(watermark) => timed(declared_spot(decls, watermark.column.text.as_str())),
        None => None,
    }
}

fn delay_of(watermark: &Option<Watermark>) -> Option<i64>
    ensures { result ≡ option_map delay_of watermark.now }
{
    match watermark {
        Some(watermark) => Some(watermark.delay.micros),
        None => None,
    }
}

/// The columns of a stream, of which there are 64 at most, and which of them is the event column.
fn schema_of(alloc: Global, stream: &ssq_ast::Stream) -> Result<Schema, AllocError>
    ensures { IfOk result (λ schema. schema ≡ (stream_of stream.now).schema) }
{
    let decls = first(stream.columns.as_slice(), Schema::MAX_COLUMNS);
    let columns = list_of(alloc, decls)?;
    let event = event_in(decls, &stream.watermark);
    Ok(Schema::new(columns.into_vec(), event))
}

/// Puts a stream after those that are read already, where it is declared.
pub(crate) fn list(
    alloc: Global,
    streams: &mut Sequence<Stream>,
    stream: Option<&ssq_ast::Stream>,
) -> Result<(), AllocError>
    ensures { OnOk result (streams.new ≡ streams.old ++ listed (option_copied stream.entry)) }
{
    let Some(stream) = stream else {
        return Ok(());
    };
    let name = stream.name.text.clone()?;
    let source = stream.source.clone()?;
    let schema = schema_of(alloc, stream)?;
    streams.push(Stream {
        name,
        source,
        schema,
        delay: delay_of(&stream.watermark),
    })
}
