//! The texts of names.

ghost use Rattle.std.specs.Prelude.{◌≡◌, ◌<◌, ◌≤◌, ◌^◌, ◌++◌, ℕ, List, Option, Some, IfOk, IfSome, codes, decimal, length};
ghost use Rattle.ssq_outside.specs.declared.name.Name.{Name as NameOf};
ghost use Rattle.ssq_plans.specs.Names.{text_of, IsInRange};

use crate::fields::{is_all, short_after};
use ssq_field::Bytes;
use ssq_outside::Name;
use std::alloc::{AllocError, Global};
use std::fmt;

/// A name, shown as its text: the path of its file inside the checkpoint, at most 36 bytes of ASCII.
///
/// Shown to a fixed buffer it takes no memory.
#[derive(Clone, Copy)]
pub struct NameText(pub Name);

impl fmt::Display for NameText {
    ghost output = { λ text. Some (text_of text.0) };

    fn fmt<W: fmt::Write>(&self, f: &mut fmt::Formatter<W>) -> fmt::Result {
        match self.0 {
            Name::Meta => f.write_str("metadata"),
            Name::Plan(epoch) => write!(f, "offsets/{epoch}"),
            Name::Commit(epoch) => write!(f, "commits/{epoch}"),
            Name::Out(epoch) => write!(f, "sink/{epoch}"),
            Name::Delta(partition, version) => write!(f, "state/{partition}/{version}.delta"),
            Name::Snapshot(partition, version) => {
                write!(f, "state/{partition}/{version}.snapshot")
            }
        }
    }
}

/// The text of a name.
pub fn name_text(alloc: Global, name: Name) -> Result<Bytes, AllocError>
    ensures { IfOk result (λ text. text ≡ text_of name) }
{
    let text = format!(in alloc; "{}", NameText(name))?;
    Ok(Bytes::from_vec(text.into_bytes()))
}

/// The name whose text these bytes are. `None` where they are no name's.
pub fn read_name(text: &[u8]) -> Option<Name>
    ensures found { IfSome result (λ name. text.now ≡ text_of name) }
    ensures in_range { IfSome result IsInRange }
    // So `None` comes only where no name has this text.
    ensures each { (name : NameOf) → IsInRange name → text.now ≡ text_of name → result ≡ Some name }
{
    if is_all(text, b"metadata") {
        return Some(Name::Meta);
    }
    if let Some(epoch) = number_after(text, b"offsets/") {
        return Some(Name::Plan(epoch));
    }
    if let Some(epoch) = number_after(text, b"commits/") {
        return Some(Name::Commit(epoch));
    }
    if let Some(epoch) = number_after(text, b"sink/") {
        return Some(Name::Out(epoch));
    }
    read_state(text)
}

/// The name of a file of the state.
fn read_state(text: &[u8]) -> Option<Name>
    ensures found { IfSome result (λ name. text.now ≡ text_of name) }
    ensures each_delta { (p v : ℕ) → p < 2 ^ 32 → v < 2 ^ 32 → text.now ≡ text_of (Name.Delta p v) → result ≡ Some (Name.Delta p v) }
    ensures each_snapshot { (p v : ℕ) → p < 2 ^ 32 → v < 2 ^ 32 → text.now ≡ text_of (Name.Snapshot p v) → result ≡ Some (Name.Snapshot p v) }
{
    let (partition, text) = short_after(text, b"state/")?;
    let (version, text) = short_after(text, b"/")?;
    if is_all(text, b".delta") {
        Some(Name::Delta(partition, version))
    } else if is_all(text, b".snapshot") {
        Some(Name::Snapshot(partition, version))
    } else {
        None
    }
}

/// The number that is all that follows these bytes in front.
fn number_after(text: &[u8], front: &[u8]) -> Option<u32>
    ensures found { IfSome result (λ n. text.now ≡ front.now ++ decimal n) }
    ensures each { (n : ℕ) → n < 2 ^ 32 → text.now ≡ front.now ++ decimal n → result ≡ Some n }
{
    match short_after(text, front)? {
        (number, []) => Some(number),
        _ => None,
    }
}
