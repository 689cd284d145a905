//! The lines of a record that stand one for each item of a list.
ghost use Rattle.std.specs.Prelude.{◌≡◌, ◌≢◌, ◌<◌, ◌++◌, ℕ, List, All, IfOk, IfSome, IsSomeAnd, length};
ghost use Rattle.ssq_plans.specs.Records.{lines};
ghost use Rattle.ssq_plans.specs.Written.{Adds};

use crate::writer::Writer;
use ssq_value::Sequence;
use std::alloc::{AllocError, Global};

/// An item that has a line of its own in a record. The line may tell the item's place in its list.
pub(crate) trait Line: Drop {
    ghost use Rattle.std.specs.Prelude.{List, ℕ};

    /// The line of an item at that place.
    ghost spelled: { ℕ → Self → List ℕ };

    /// Items that have a line.
    ghost is_written: { Self → Type 0 };

    /// Items that are read from lines.
    ghost is_read: { Self → Type 0 };

    /// Appends the item's line.
    fn put(&self, at: u64, out: &mut Writer)
        requires { is_written self.now }
        ensures { Adds out.old (spelled at self.now) out.new };

    /// The item whose line stands in front, and what follows that line.
    fn take(at: u64, text: &[u8]) -> Option<(Self, &[u8])>
        ensures found { IfSome result (λ taken. text.now ≡ spelled at taken.0 ++ taken.1.now) }
        ensures read { IfSome result (λ taken. is_read taken.0) }
        ensures shorter { IfSome result (λ taken. length taken.1.now < length text.now) }
        ensures each { (item : Self) (rest : List ℕ) → is_read item → text.now ≡ spelled at item ++ rest →
            IsSomeAnd result (λ taken. (taken.0 ≡ item) × (taken.1.now ≡ rest)) };
}

/// Appends the lines of all items.
pub(crate) fn put_lines<L: Line>(out: &mut Writer, items: &[L])
    requires { All L.is_written items.now }
    ensures { Adds out.old (lines L.spelled 0 items.now) out.new }
{
    for (at, item) in items.iter().enumerate() {
        item.put(at as u64, out);
    }
}

/// The items whose lines stand in front, as many as there are, and what follows these lines.
pub(crate) fn take_lines<L: Line>(
    alloc: Global,
    text: &[u8],
) -> Result<(Sequence<L>, &[u8]), AllocError>
    ensures found { IfOk result (λ taken. text.now ≡ lines L.spelled 0 taken.0 ++ taken.1.now) }
    ensures read { IfOk result (λ taken. All L.is_read taken.0) }
    ensures each { (items : List L) (rest : List ℕ) → All L.is_read items →
        ((at : ℕ) (item : L) (behind : List ℕ) → rest ≢ L.spelled at item ++ behind) →
        text.now ≡ lines L.spelled 0 items ++ rest →
        IfOk result (λ taken. (taken.0 ≡ items) × (taken.1.now ≡ rest)) }
{
    let mut items = Sequence::new(alloc);
    let mut rest = text;
    while let Some((item, behind)) = L::take(items.len() as u64, rest) {
        items.push(item)?;
        rest = behind;
    }
    Ok((items, rest))
}
