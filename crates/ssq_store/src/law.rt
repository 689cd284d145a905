//! What loading comes to.

ghost use Rattle.std.specs.Prelude.{◌≡◌, ◌≤◌, ◌<◌, ◌^◌, ℕ, Some, length};
ghost use Rattle.ssq_outside.specs.declared.name.Name.{Name as NameOf};
ghost use Rattle.ssq_outside.specs.Files.{Files};
ghost use Rattle.ssq_version.specs.State.{State as Kept, Change as Told, IsState, IsChange, IsAfter, news, between};
ghost use Rattle.ssq_version.specs.Text.{delta_text, snapshot_text};
ghost use Rattle.ssq_store.specs.Loaded.{Makes, IsDamaged, AreTrue, IsDelta, IsSnapshot};

use ssq_version::files_are_apart;

/// The law of what is sealed: the file of the change between two states is the delta from the one to the other, and so is that of what any
/// change that leads there says that is new. The file of a state is its snapshot.
pub fn sealed_files_are_true()
    ensures between { (partition version : ℕ) (old new : Kept) → IsState old → IsState new → length (between old new) < 2 ^ 64 →
        IsDelta (Some (delta_text partition version (between old new))) partition version old new }
    ensures news { (partition version : ℕ) (old new : Kept) (change : Told) → IsState new → IsChange change → length change < 2 ^ 64 → IsAfter change old new →
        IsDelta (Some (delta_text partition version (news old change))) partition version old new }
    ensures whole { (partition version : ℕ) (state : Kept) → IsState state → length state < 2 ^ 64 →
        IsSnapshot (Some (snapshot_text partition version state)) partition version state }
{}

/// The law of loading: the files of a partition make one state at most, and none where one of those that are needed is damaged. Where they
/// are true to the partition's states they make the last of these, so that none is damaged.
pub fn loading_is_exact()
    ensures one { (files : Files) (partition count : ℕ) (one other : Kept) → partition < 2 ^ 32 → count ≤ 2 ^ 32 →
        Makes files partition count one → Makes files partition count other → one ≡ other }
    ensures sound { (files : Files) (partition count : ℕ) (state : Kept) (at : NameOf) → partition < 2 ^ 32 → count ≤ 2 ^ 32 →
        Makes files partition count state → IsDamaged files partition count at → ⊥ }
    ensures made { (files : Files) (partition count floor : ℕ) (states : ℕ → Kept) → AreTrue files partition count floor states →
        Makes files partition count (states count) }
{
    files_are_apart();
}
