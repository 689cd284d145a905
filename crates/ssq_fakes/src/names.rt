//! Lists of names in their order.

ghost use Rattle.std.specs.Prelude.{◌≡◌, ◌||◌, not, OnOk, IfOk};
ghost use Rattle.ssq_outside.specs.declared.name.Name.{Name};
ghost use Rattle.ssq_outside.specs.Files.{same_name};
ghost use Rattle.ssq_fakes.specs.Crashes.{index_of};
ghost use Rattle.ssq_fakes.specs.Disks.{has_name};
ghost use Rattle.ssq_fakes.specs.Names.{Lists};

use ssq_outside::Name;
use std::alloc::{AllocError, Global};
use std::collections::BTreeSet;

/// Adds the name to these, and says whether it is new among them.
pub fn add(names: &mut BTreeSet<Name>, name: Name) -> Result<bool, AllocError>
    ensures new { IfOk result (λ is_new. is_new ≡ not (has_name names.old.keys name)) }
    ensures added { OnOk result ((q : Name) → has_name names.new.keys q ≡ (same_name q name || has_name names.old.keys q)) }
{
    Ok(names.insert(name)?)
}

/// The names in their order.
pub fn listed(alloc: Global, names: BTreeSet<Name>) -> Result<Vec<Name>, AllocError>
    ensures { IfOk result (λ list. Lists (has_name names.keys) list.items) }
{
    names.into_iter().collect(alloc)
}

/// Where the name stands among these, or else how many there are.
pub fn index_of(names: &[Name], name: Name) -> usize
    ensures { result ≡ index_of names.now name }
{
    for (i, other) in names.iter().enumerate() {
        if name.is(*other) {
            return i;
        }
    }
    names.len()
}
