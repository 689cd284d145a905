//! What changes and states have in common.

ghost use Rattle.std.specs.Prelude.{◌≡◌, ◌≤◌, List, ℕ, length};
ghost use Rattle.ssq_version.specs.State.{State as Kept, Change as Told, Ascends, value_at, IsAfter, IsBetween, IsState, IsChange, news, between, front_with, from_key, all_with};
ghost use Rattle.ssq_version.specs.Text.{AreFilesApart};

use ssq_field::fields_are_apart;

/// The laws of states and changes: entries in order are determined by what each key has; so there is one state after a change of a state,
/// and one change from a state to another. It is what any change that leads there says that is new, and it says nothing else.
pub fn versions_are_one()
    ensures states { (one other : Kept) → Ascends one → Ascends other → ((key : List ℕ) → value_at one key ≡ value_at other key) → one ≡ other }
    ensures changes { (one other : Told) → Ascends one → Ascends other → ((key : List ℕ) → value_at one key ≡ value_at other key) → one ≡ other }
    ensures after { (change : Told) (old one other : Kept) → Ascends one → Ascends other → IsAfter change old one → IsAfter change old other → one ≡ other }
    ensures between { (old new : Kept) (one other : Told) → Ascends one → Ascends other → IsBetween old new one → IsBetween old new other → one ≡ other }
    ensures leads { (old new : Kept) (change : Told) → IsBetween old new change → IsAfter change old new }
    ensures news { (old new : Kept) (change : Told) → Ascends change → IsAfter change old new → IsBetween old new (news old change) }
    ensures ascend { (old : Kept) (change : Told) → Ascends change → Ascends (news old change) }
    ensures all_new { (old new : Kept) (change : Told) → Ascends change → IsBetween old new change → news old change ≡ change }
{}

/// The law of the change between two states: it is a change, and leads from the one to the other. It is what any change that leads there
/// says that is new to the first.
pub fn states_have_a_change()
    ensures kept { (old new : Kept) → IsState old → IsState new → IsChange (between old new) }
    ensures leads { (old new : Kept) → Ascends new → IsBetween old new (between old new) }
    ensures news { (old new : Kept) (change : Told) → Ascends change → Ascends new → IsAfter change old new → news old change ≡ between old new }
    ensures news_kept { (old : Kept) (change : Told) → IsChange change → IsChange (news old change) }
    ensures news_few { (old : Kept) (change : Told) → length (news old change) ≤ length change }
{}

/// The law of beginnings: keys that begin alike stand together, as the first ones from their beginning on.
pub fn beginnings_stand_together()
    ensures { (prefix : List ℕ) (state : Kept) → Ascends state → front_with prefix (from_key prefix state) ≡ all_with prefix state }
{}

/// The law of files: no two changes, and no two states, of partitions and versions have one file.
pub fn files_are_apart()
    ensures { AreFilesApart }
{
    fields_are_apart();
}
