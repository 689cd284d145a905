//! A file of the state: which partition and version it is of, and its entries.

ghost use Rattle.std.specs.Prelude.{◌≡◌, ◌<◌, ◌++◌, ◌^◌, ℕ, List, None, length, IfOk, IfSome, IsSomeAnd};
ghost use Rattle.std.specs.Int.{w32, w64, to_be_bytes};
ghost use Rattle.ssq_version.specs.State.{Change as Told};
ghost use Rattle.ssq_version.specs.Text.{first_word, file_text, entries_text, AreEntries, IsFile};

use crate::entries::are_entries;
use crate::entry::short_and_rest;
use crate::form::{Form, after_first_word};
use ssq_field::{Bytes, put_be32, put_be64, take_be64};
use std::alloc::{AllocError, Global};

/// A file of the state in its bytes: the partition and the version that it is of, and its entries.
#[derive(Clone, Copy)]
pub(crate) struct StateFile<'a> {
    pub(crate) partition: u32,
    pub(crate) version: u32,
    /// How many entries there are.
    pub(crate) count: u64,
    /// The bytes of the entries.
    pub(crate) entries: &'a [u8],
}

/// How many bytes stand in front of the entries: the first word, the partition, the version and how many entries there are.
const HEAD_LEN: usize = 24;

/// A buffer with room for so many bytes of entries, and in it what stands in front of them.
pub(crate) fn begin(
    alloc: Global,
    form: Form,
    partition: u32,
    version: u32,
    count: u64,
    room: usize,
) -> Result<Bytes, AllocError>
    ensures { (rest : List ℕ) → IfOk result (λ out. out ++ rest
        ≡ first_word form ++ (to_be_bytes w32 partition ++ (to_be_bytes w32 version ++ (to_be_bytes w64 count ++ rest)))) }
{
    let mut out = Bytes::with_capacity(alloc, HEAD_LEN.saturating_add(room))?;
    out.extend(form.first_word())?;
    put_be32(&mut out, partition)?;
    put_be32(&mut out, version)?;
    put_be64(&mut out, count)?;
    Ok(out)
}

/// The number in the first eight bytes, and what follows it.
fn long_and_rest(text: &[u8]) -> Option<(u64, &[u8])>
    ensures found { IfSome result (λ parts. text.now ≡ to_be_bytes w64 parts.0 ++ parts.1.now) }
    ensures small { IfSome result (λ parts. parts.0 < 2 ^ 64) }
    ensures each { (number : ℕ) (rest : List ℕ) → number < 2 ^ 64 → text.now ≡ to_be_bytes w64 number ++ rest →
        IsSomeAnd result (λ parts. (parts.0 ≡ number) × (parts.1.now ≡ rest)) }
{
    let (number, taken) = take_be64(text)?;
    Some((number, &text[taken..]))
}

/// What stands in front of the entries, and the bytes after it.
fn head_and_rest(form: Form, text: &[u8]) -> Option<StateFile<'_>>
    ensures found { IfSome result (λ file. text.now ≡ first_word form
        ++ (to_be_bytes w32 file.partition ++ (to_be_bytes w32 file.version ++ (to_be_bytes w64 file.count ++ file.entries.now)))) }
    ensures few { IfSome result (λ file. file.count < 2 ^ 64) }
    ensures each { (partition version count : ℕ) (rest : List ℕ) → partition < 2 ^ 32 → version < 2 ^ 32 → count < 2 ^ 64 →
        text.now ≡ first_word form ++ (to_be_bytes w32 partition ++ (to_be_bytes w32 version ++ (to_be_bytes w64 count ++ rest))) →
        IsSomeAnd result (λ file. (file.partition ≡ partition) × (file.version ≡ version) × (file.count ≡ count) × (file.entries.now ≡ rest)) }
{
    let behind = after_first_word(form, text)?;
    let (partition, behind) = short_and_rest(behind)?;
    let (version, behind) = short_and_rest(behind)?;
    let (count, entries) = long_and_rest(behind)?;
    Some(StateFile {
        partition,
        version,
        count,
        entries,
    })
}

/// The file of this form whose bytes these are. `None` where they are no such file's.
pub(crate) fn read_file(form: Form, text: &[u8]) -> Option<StateFile<'_>>
    ensures found { IfSome result (λ file. IsFile form text.now file.partition file.version file.count file.entries.now) }
    // So `None` comes only where no entries of a partition and a version have these bytes.
    ensures each { (partition version : ℕ) (entries : Told) → partition < 2 ^ 32 → version < 2 ^ 32 → AreEntries form entries →
        text.now ≡ file_text form partition version entries →
        IsSomeAnd result (λ file. (file.partition ≡ partition) × (file.version ≡ version) × (file.entries.now ≡ entries_text form entries)) }
{
    let file = head_and_rest(form, text)?;
    if are_entries(form, file.entries, file.count) {
        Some(file)
    } else {
        None
    }
}
