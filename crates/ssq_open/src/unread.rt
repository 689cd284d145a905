//! The files of a checkpoint that are not read: by their names alone.

ghost use Rattle.std.specs.Prelude.{◌≤◌, ◌+◌, ◌⊎◌, ℕ, IfNone, IfSome};
ghost use Rattle.ssq_outside.specs.Files.{Files, AreNames};
ghost use Rattle.ssq_open.specs.Epochs.{IsSinkRight, HasNoStray};
ghost use Rattle.ssq_open.specs.Refused.{SinksRefuse, StrayRefuses};
ghost use Rattle.ssq_open.specs.declared.fault.OpenFault.TheVariants.{Damaged};

use crate::listing::{out_from, stray_file, written};
use ssq_outside::Name;

/// The first of these files that is missing or unexpected: of the sink files, and where these are as they have to be, of the files of the state, which
/// are of the partitions that keep state, the first so many, and of planned epochs.
pub(crate) fn first_unexpected(
    names: &[Name],
    keeping: u32,
    planned: u64,
    committed: u32,
) -> Option<Name>
    requires below { committed ≤ planned }
    requires ahead { planned ≤ committed + 1 }
    ensures none { (files : Files) → AreNames files names.now → IfNone result (((e : ℕ) → IsSinkRight files planned committed e) × HasNoStray files keeping planned) }
    ensures some { (files : Files) → AreNames files names.now → IfSome result (λ at. SinksRefuse files planned committed (Damaged at)
        ⊎ (((e : ℕ) → IsSinkRight files planned committed e) × StrayRefuses files keeping planned (Damaged at))) }
{
    let written = written(names);
    if written < committed as u64 {
        return Some(Name::Out(written as u32));
    }
    match out_from(names, planned) {
        Some(name) => Some(name),
        None => stray_file(names, keeping, planned),
    }
}
