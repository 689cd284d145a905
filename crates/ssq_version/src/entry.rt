//! Entries of files of the state: a key and what is said of it.

ghost use Rattle.std.specs.Prelude.{◌≡◌, ◌<◌, ◌++◌, ◌^◌, ℕ, List, Option, Some, None, ◌∷◌, length, IfSome, IsSomeAnd, OnOk, option_copied};
ghost use Rattle.std.specs.Int.{w32, to_be_bytes};
ghost use Rattle.ssq_version.specs.State.{IsShort, IsShortOrNone};
ghost use Rattle.ssq_version.specs.Text.{field, changed_text, kept_text, entry_text, CanSay, IsSpelled};
ghost use Rattle.ssq_version.specs.declared.form.Form.TheVariants.{Delta, Snapshot};

use crate::form::Form;
use ssq_field::{Bytes, put_be32, take_be32};
use std::alloc::AllocError;

/// The first byte of an entry of a delta whose key goes.
const GONE: u8 = 0;

/// The first byte of an entry of a delta whose key has a value.
const GIVEN: u8 = 1;

/// An entry in the bytes of a file: a key, and its value, or none where the key goes.
#[derive(Clone, Copy)]
pub struct Entry<'a> {
    pub key: &'a [u8],
    pub value: Option<&'a [u8]>,
}

/// Appends the bytes after their length.
pub(crate) fn put_slice(out: &mut Bytes, bytes: &[u8]) -> Result<(), AllocError>
    requires { IsShort bytes.now }
    ensures { OnOk result (out.new ≡ out.old ++ field bytes.now) }
{
    put_be32(out, bytes.len() as u32)?;
    out.extend(bytes)
}

/// The same.
pub(crate) fn put_field(out: &mut Bytes, bytes: &Bytes) -> Result<(), AllocError>
    requires { IsShort bytes.now }
    ensures { OnOk result (out.new ≡ out.old ++ field bytes.now) }
{
    put_slice(out, bytes.as_slice())
}

/// Appends the entry of a key in a delta.
pub(crate) fn put_changed(
    out: &mut Bytes,
    key: &Bytes,
    value: &Option<Bytes>,
) -> Result<(), AllocError>
    requires key { IsShort key.now }
    requires value { IsShortOrNone value.now }
    ensures { OnOk result (out.new ≡ out.old ++ changed_text key.now value.now) }
{
    match value {
        Some(value) => {
            out.extend(&[GIVEN])?;
            put_field(out, key)?;
            put_field(out, value)
        }
        None => {
            out.extend(&[GONE])?;
            put_field(out, key)
        }
    }
}

/// So many bytes in front, and what follows them.
fn split(text: &[u8], len: usize) -> Option<(&[u8], &[u8])>
    ensures found { IfSome result (λ parts. text.now ≡ parts.0.now ++ parts.1.now) }
    ensures many { IfSome result (λ parts. length parts.0.now ≡ len) }
    ensures each { (front rest : List ℕ) → length front ≡ len → text.now ≡ front ++ rest →
        IsSomeAnd result (λ parts. (parts.0.now ≡ front) × (parts.1.now ≡ rest)) }
{
    text.split_at_checked(len)
}

/// The number in the first four bytes, and what follows it.
pub(crate) fn short_and_rest(text: &[u8]) -> Option<(u32, &[u8])>
    ensures found { IfSome result (λ parts. text.now ≡ to_be_bytes w32 parts.0 ++ parts.1.now) }
    ensures each { (number : ℕ) (rest : List ℕ) → number < 2 ^ 32 → text.now ≡ to_be_bytes w32 number ++ rest →
        IsSomeAnd result (λ parts. (parts.0 ≡ number) × (parts.1.now ≡ rest)) }
{
    let (number, taken) = take_be32(text)?;
    Some((number, &text[taken..]))
}

/// The bytes after their length in front, and what follows them.
fn field_and_rest(text: &[u8]) -> Option<(&[u8], &[u8])>
    ensures found { IfSome result (λ parts. text.now ≡ field parts.0.now ++ parts.1.now) }
    ensures short { IfSome result (λ parts. IsShort parts.0.now) }
    ensures each { (bytes rest : List ℕ) → IsShort bytes → text.now ≡ field bytes ++ rest →
        IsSomeAnd result (λ parts. (parts.0.now ≡ bytes) × (parts.1.now ≡ rest)) }
{
    let (len, behind) = short_and_rest(text)?;
    split(behind, len as usize)
}

/// The entry of a snapshot in front, and what follows it.
fn kept_entry_and_rest(text: &[u8]) -> Option<(Entry<'_>, &[u8])>
    ensures found { IfSome result (λ parts. text.now ≡ kept_text parts.0.key.now (option_copied parts.0.value) ++ parts.1.now) }
    ensures spelled { IfSome result (λ parts. IsSpelled Snapshot (parts.0.key.now, option_copied parts.0.value)) }
    ensures shorter { IfSome result (λ parts. length parts.1.now < length text.now) }
    ensures each { (key : List ℕ) (value : Option (List ℕ)) (rest : List ℕ) → IsSpelled Snapshot (key, value) →
        text.now ≡ kept_text key value ++ rest →
        IsSomeAnd result (λ parts. (parts.0.key.now ≡ key) × (option_copied parts.0.value ≡ value) × (parts.1.now ≡ rest)) }
{
    let (key, behind) = field_and_rest(text)?;
    let (value, rest) = field_and_rest(behind)?;
    Some((
        Entry {
            key,
            value: Some(value),
        },
        rest,
    ))
}

/// The entry of a delta in front, and what follows it.
fn changed_and_rest(text: &[u8]) -> Option<(Entry<'_>, &[u8])>
    ensures found { IfSome result (λ parts. text.now ≡ changed_text parts.0.key.now (option_copied parts.0.value) ++ parts.1.now) }
    ensures spelled { IfSome result (λ parts. IsSpelled Delta (parts.0.key.now, option_copied parts.0.value)) }
    ensures shorter { IfSome result (λ parts. length parts.1.now < length text.now) }
    ensures each { (key : List ℕ) (value : Option (List ℕ)) (rest : List ℕ) → IsSpelled Delta (key, value) →
        text.now ≡ changed_text key value ++ rest →
        IsSomeAnd result (λ parts. (parts.0.key.now ≡ key) × (option_copied parts.0.value ≡ value) × (parts.1.now ≡ rest)) }
{
    let (kind, behind) = text.split_first()?;
    match *kind {
        GONE => {
            let (key, rest) = field_and_rest(behind)?;
            Some((Entry { key, value: None }, rest))
        }
        GIVEN => kept_entry_and_rest(behind),
        _ => None,
    }
}

/// The entry in front of what is left of a file, and what follows it.
pub(crate) fn entry_and_rest(form: Form, text: &[u8]) -> Option<(Entry<'_>, &[u8])>
    ensures found { IfSome result (λ parts. text.now ≡ entry_text form (parts.0.key.now, option_copied parts.0.value) ++ parts.1.now) }
    ensures spelled { IfSome result (λ parts. IsSpelled form (parts.0.key.now, option_copied parts.0.value)) }
    ensures shorter { IfSome result (λ parts. length parts.1.now < length text.now) }
    ensures each { (key : List ℕ) (value : Option (List ℕ)) (rest : List ℕ) → IsSpelled form (key, value) →
        text.now ≡ entry_text form (key, value) ++ rest →
        IsSomeAnd result (λ parts. (parts.0.key.now ≡ key) × (option_copied parts.0.value ≡ value) × (parts.1.now ≡ rest)) }
{
    match form {
        Form::Delta => changed_and_rest(text),
        Form::Snapshot => kept_entry_and_rest(text),
    }
}
