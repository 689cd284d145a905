//! Why a run or a look stopped, told by the names of its query.

ghost use Rattle.std.specs.Prelude.{◌≡◌, ◌≤◌, length, IfOk};
ghost use Rattle.ssq_run.specs.Places.{name_of, columns_of, column_of, part_at};
ghost use Rattle.ssq_run.specs.declared.stop.Stop.TheVariants as stop;
ghost use Rattle.ssq_run.specs.Keys.{key_text};
ghost use Rattle.ssq_run.specs.Stopping.{wrong_of, stop_of_parts, stop_of_lines, stop_of_open, stop_of_cause, stop_of_run, stop_of_end, stop_in, IsToldAs};

use crate::key::key_text;
use crate::stop::{Stop, Wrong};
use ssq_board::{Cause, RowFault};
use ssq_logs::{LengthFault, PartsFault};
use ssq_open::OpenFault;
use ssq_runner::RunFault;
use ssq_shape::Stream;
use ssq_value::{Column, Text, Value};
use std::alloc::{AllocError, Global};

/// The declared name of the stream at a place in the order of FROM. Where there is no such place it is empty.
fn name_of(alloc: Global, streams: &[Stream], at: usize) -> Result<Text, AllocError>
    ensures { IfOk result (λ name. name ≡ name_of streams.now at) }
{
    match streams.get(at) {
        Some(stream) => stream.name.clone(),
        None => Ok(Text::from_string(String::new(alloc))),
    }
}

/// The name of the column at a place. Where there is no such place it is empty.
fn column_name(alloc: Global, columns: &[Column], at: usize) -> Result<Text, AllocError>
    ensures { IfOk result (λ name. name ≡ column_of columns.now at) }
{
    match columns.get(at) {
        Some(column) => column.name.clone(),
        None => Ok(Text::from_string(String::new(alloc))),
    }
}

/// The columns of the stream at a place in the order of FROM: none where there is no such place.
fn columns_of(streams: &[Stream], at: usize) -> &[Column]
    ensures { result.now ≡ columns_of streams.now at }
{
    match streams.get(at) {
        Some(stream) => stream.schema.columns(),
        None => &[],
    }
}

/// What is wrong with a line of a stream that has these columns.
fn wrong_of(alloc: Global, columns: &[Column], fault: RowFault) -> Result<Wrong, AllocError>
    ensures { IfOk result (λ wrong. wrong ≡ wrong_of columns.now fault) }
{
    Ok(match fault {
        RowFault::TooLong => Wrong::TooLong,
        RowFault::NotJson => Wrong::NotJson,
        RowFault::NotObject => Wrong::NotObject,
        RowFault::WrongType { column } => Wrong::WrongType {
            column: column_name(alloc, columns, column)?,
        },
        RowFault::NoEventTime => Wrong::NoEventTime,
    })
}

/// A part of a stream, by the stream's place in the order of FROM.
#[derive(Clone, Copy)]
struct StreamPart {
    stream: usize,
    part: usize,
}

/// Which part of which stream the part at this place among all parts is, where the streams have so many parts each. After the last of
/// them it is a part of a stream that is not there.
fn part_at(counts: &[u32], at: usize) -> StreamPart
    ensures stream { result.stream ≡ (part_at counts.now at).stream }
    ensures part { result.part ≡ (part_at counts.now at).part }
    ensures within { result.stream ≤ length counts.now }
{
    let Some((count, counts)) = counts.split_first() else {
        return StreamPart {
            stream: 0,
            part: at,
        };
    };
    let count = *count as usize;
    if at < count {
        return StreamPart {
            stream: 0,
            part: at,
        };
    }
    let later = part_at(counts, at - count);
    StreamPart {
        stream: later.stream + 1,
        part: later.part,
    }
}

/// The stop where the parts of a stream are not counted, or a log is not opened.
fn stop_of_parts(alloc: Global, streams: &[Stream], fault: PartsFault) -> Result<Stop, AllocError>
    ensures { IfOk result (λ stop. stop ≡ stop_of_parts streams.now fault) }
{
    Ok(match fault {
        PartsFault::Full { stream } => Stop::FullParts {
            stream: name_of(alloc, streams, stream)?,
        },
        PartsFault::LogFault => Stop::LogFault,
        PartsFault::NoMemory => Stop::NoMemory,
    })
}

/// The stop where the lines of a log are not counted, of streams that have so many parts each.
fn stop_of_lines(
    alloc: Global,
    streams: &[Stream],
    counts: &[u32],
    fault: LengthFault,
) -> Result<Stop, AllocError>
    ensures { IfOk result (λ stop. stop ≡ stop_of_lines streams.now counts.now fault) }
{
    match fault {
        LengthFault::Full { number, lines } => {
            let StreamPart { stream, part } = part_at(counts, number);
            let stream = name_of(alloc, streams, stream)?;
            Ok(Stop::FullLines {
                stream,
                part,
                lines,
            })
        }
        LengthFault::LogFault => Ok(Stop::LogFault),
        LengthFault::NoMemory => Ok(Stop::NoMemory),
    }
}

/// The stop where a log has lost lines.
fn log_short(
    alloc: Global,
    streams: &[Stream],
    stream: u32,
    part: u32,
    logged: u64,
    found: u64,
) -> Result<Stop, AllocError>
    ensures { IfOk result (λ own. own ≡ stop.LogShort (name_of streams.now stream) part logged found) }
{
    Ok(Stop::LogShort {
        stream: name_of(alloc, streams, stream as usize)?,
        part,
        logged,
        found,
    })
}

/// The stop where a checkpoint is not opened, or not looked at.
pub(crate) fn stop_of_open(
    alloc: Global,
    streams: &[Stream],
    fault: OpenFault,
) -> Result<Stop, AllocError>
    ensures { IfOk result (λ stop. stop ≡ stop_of_open streams.now fault) }
{
    match fault {
        OpenFault::OtherQuery { kept } => Ok(Stop::OtherQuery { kept }),
        OpenFault::OtherPartitions { kept, asked } => Ok(Stop::OtherPartitions { kept, asked }),
        OpenFault::OtherParts {
            stream,
            kept,
            found,
        } => Ok(Stop::OtherParts {
            stream: name_of(alloc, streams, stream)?,
            kept,
            found,
        }),
        OpenFault::LogShort {
            stream,
            part,
            logged,
            found,
        } => log_short(alloc, streams, stream, part, logged, found),
        OpenFault::Damaged { name } => Ok(Stop::Damaged { name }),
        OpenFault::DiskFault => Ok(Stop::DiskFault),
        OpenFault::NoMemory => Ok(Stop::NoMemory),
    }
}

/// The stop where a line is bad.
fn bad_line(
    alloc: Global,
    streams: &[Stream],
    stream: u32,
    part: u32,
    offset: u64,
    fault: RowFault,
) -> Result<Stop, AllocError>
    ensures { IfOk result (λ own. own ≡ stop.BadLine (name_of streams.now stream) part offset (wrong_of (columns_of streams.now stream) fault)) }
{
    let wrong = wrong_of(alloc, columns_of(streams, stream as usize), fault)?;
    Ok(Stop::BadLine {
        stream: name_of(alloc, streams, stream as usize)?,
        part,
        offset,
        wrong,
    })
}

/// The stop where a key overflows.
fn key_overflow(alloc: Global, key: &[Value]) -> Result<Stop, AllocError>
    ensures { IfOk result (λ own. own ≡ stop.KeyOverflow (key_text key.now)) }
{
    Ok(Stop::KeyOverflow {
        key: key_text(alloc, key)?,
    })
}

/// The stop where a round stopped.
fn stop_of_cause(alloc: Global, streams: &[Stream], cause: Cause) -> Result<Stop, AllocError>
    ensures { IfOk result (λ own. own ≡ stop_of_cause streams.now cause) }
{
    match cause {
        Cause::BadLine {
            stream,
            part,
            offset,
            fault,
        } => bad_line(alloc, streams, stream, part, offset, fault),
        Cause::Overflow {
            stream,
            part,
            offset,
        } => Ok(Stop::Overflow {
            stream: name_of(alloc, streams, stream as usize)?,
            part,
            offset,
        }),
        Cause::KeyOverflow => key_overflow(alloc, &[]),
        Cause::LogFault => Ok(Stop::LogFault),
        Cause::LogShort {
            stream,
            part,
            logged,
            found,
        } => log_short(alloc, streams, stream, part, logged, found),
        Cause::Damaged { name } => Ok(Stop::Damaged { name }),
        Cause::DiskFault => Ok(Stop::DiskFault),
        Cause::Full => Ok(Stop::FullEpochs),
        Cause::NoMemory => Ok(Stop::NoMemory),
    }
}

/// The stop where a run ended early, over streams that have so many parts each.
fn stop_of_run(
    alloc: Global,
    streams: &[Stream],
    counts: &[u32],
    fault: RunFault,
) -> Result<Stop, AllocError>
    ensures { IfOk result (λ stop. stop ≡ stop_of_run streams.now counts.now fault) }
{
    match fault {
        RunFault::Parts(fault) => stop_of_parts(alloc, streams, fault),
        RunFault::Lines(fault) => stop_of_lines(alloc, streams, counts, fault),
        RunFault::Open(fault) => stop_of_open(alloc, streams, fault),
        RunFault::Round(cause) => stop_of_cause(alloc, streams, cause),
        RunFault::KeyOverflow { key } => key_overflow(alloc, key.as_slice()),
        RunFault::OutFault => Ok(Stop::OutFault),
        RunFault::NoMemory => Ok(Stop::NoMemory),
    }
}

/// How a run ended, told so.
pub(crate) fn end_of(
    alloc: Global,
    streams: &[Stream],
    counts: &[u32],
    end: Result<(), RunFault>,
) -> Result<(), Stop>
    ensures { IsToldAs (stop_in result) (stop_of_end streams.now counts.now end) }
{
    match end {
        Ok(()) => Ok(()),
        Err(fault) => match stop_of_run(alloc, streams, counts, fault) {
            Ok(stop) => Err(stop),
            Err(AllocError) => Err(Stop::NoMemory),
        },
    }
}
