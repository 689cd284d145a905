//! The record of a checkpoint's job.
ghost use Rattle.std.specs.Prelude.{◌≡◌, ◌++◌, ◌<◌, ◌≤◌, ◌^◌, List, ℕ, All, IfOk, IfSome, IsSomeAnd, Some, codes, decimal, length};
ghost use Rattle.std.specs.Str.{IsUtf8};
ghost use Rattle.ssq_plans.specs.declared.meta.Meta.{Meta as Record};
ghost use Rattle.ssq_plans.specs.Records.{Any, IsCount, IsMeta, IsMetaRecord, meta_text, parts_line};

use crate::fields::{is_all, long_after, long_line_after, short_line_after, split};
use crate::lines::{Line, put_lines, take_lines};
use crate::writer::Writer;
use ssq_field::Bytes;
use ssq_value::{Sequence, Text};
use std::alloc::{AllocError, Global};
use std::str;

/// The job that a checkpoint is of.
#[derive(Drop)]
pub struct Meta {
    /// How many partitions the state has: 1 to 64.
    pub partitions: u32,
    /// How many parts each stream of the query has, in the query's order: at most 64 each.
    pub parts: Sequence<u32>,
    /// The query's canonical text.
    pub query: Text,
}

/// The line of a stream's number of parts, which tells the stream's place too.
impl Line for u32 {
    ghost spelled = { parts_line };

    ghost is_written = { Any };

    ghost is_read = { IsCount };

    fn put(&self, at: u64, out: &mut Writer) {
        out.put_number(b"parts ", at);
        out.put_number_line(b" ", *self as u64);
    }

    fn take(at: u64, text: &[u8]) -> Option<(u32, &[u8])> {
        let (stream, text) = long_after(text, b"parts ")?;
        let (count, text) = short_line_after(text, b" ")?;
        if stream == at && count <= 64 {
            Some((count, text))
        } else {
            None
        }
    }
}

/// The text of a job's record.
pub fn write_meta(alloc: Global, meta: &Meta) -> Result<Bytes, AllocError>
    requires { IsMeta meta.now }
    ensures { IfOk result (λ text. text ≡ meta_text meta.now) }
{
    let mut out = Writer::new(alloc);
    out.put_number_line(b"v1\npartitions ", meta.partitions as u64);
    put_lines(&mut out, meta.parts.as_slice());
    out.put_number_line(b"query ", meta.query.len() as u64);
    out.put(meta.query.as_bytes());
    out.put(b"\nend\n");
    out.finish()
}

/// The number of partitions in front, and what follows its line.
fn partitions_and_rest(text: &[u8]) -> Option<(u32, &[u8])>
    ensures found { IfSome result (λ parts. text.now ≡ codes "v1\npartitions " ++ (decimal parts.0 ++ (codes "\n" ++ parts.1.now))) }
    ensures in_range { IfSome result (λ parts. (1 ≤ parts.0) × (parts.0 ≤ 64)) }
    ensures each { (n : ℕ) (rest : List ℕ) → 1 ≤ n → n ≤ 64 →
        text.now ≡ codes "v1\npartitions " ++ (decimal n ++ (codes "\n" ++ rest)) →
        IsSomeAnd result (λ parts. (parts.0 ≡ n) × (parts.1.now ≡ rest)) }
{
    let (partitions, rest) = short_line_after(text, b"v1\npartitions ")?;
    if partitions >= 1 && partitions <= 64 {
        Some((partitions, rest))
    } else {
        None
    }
}

/// The query, where its length and text and the record's end are all that is left.
fn query_in(text: &[u8]) -> Option<&str>
    ensures found { IfSome result (λ query. text.now ≡ codes "query " ++ (decimal (length query.now) ++ (codes "\n" ++ (query.now ++ codes "\nend\n")))) }
    ensures in_range { IfSome result (λ query. IsUtf8 query.now × (length query.now < 2 ^ 64)) }
    ensures each { (query : List ℕ) → IsUtf8 query →
        text.now ≡ codes "query " ++ (decimal (length query) ++ (codes "\n" ++ (query ++ codes "\nend\n"))) →
        IsSomeAnd result (λ found. found.now ≡ query) }
{
    let (len, rest) = long_line_after(text, b"query ")?;
    let (query, end) = split(rest, len as usize)?;
    if is_all(end, b"\nend\n") {
        match str::from_utf8(query) {
            Ok(query) => Some(query),
            Err(_) => None,
        }
    } else {
        None
    }
}

/// The job whose record these bytes are. `None` where they are no job's.
pub fn read_meta(alloc: Global, text: &[u8]) -> Result<Option<Meta>, AllocError>
    ensures found { IfOk result (λ read. IfSome read (λ meta. text.now ≡ meta_text meta)) }
    ensures in_range { IfOk result (λ read. IfSome read IsMetaRecord) }
    // So `None` comes only where no job has this record.
    ensures each { (meta : Record) → IsMetaRecord meta → text.now ≡ meta_text meta → IfOk result (λ read. read ≡ Some meta) }
{
    let Some((partitions, rest)) = partitions_and_rest(text) else {
        return Ok(None);
    };
    let (parts, rest) = take_lines(alloc, rest)?;
    let Some(query) = query_in(rest) else {
        return Ok(None);
    };
    let query = Text::from_str(alloc, query)?;
    Ok(Some(Meta {
        partitions,
        parts,
        query,
    }))
}
