//! The records that the files of a checkpoint spell.

ghost use Rattle.std.specs.Prelude.{◌≡◌, ◌≤◌, IfOk, IfSome, IfNone, IsErrOf};
ghost use Rattle.ssq_outside.specs.Faults.{Rises};
ghost use Rattle.ssq_outside.specs.History.{files_now};
ghost use Rattle.ssq_open.specs.Spelled.{Spells, SpellsOnly};

use ssq_outside::{Disk, DiskError, Name};
use ssq_plans::{Commit, Meta, Plan, read_commit, read_meta, read_plan};
use std::alloc::{AllocError, Global};

/// A record that a file holds.
pub(crate) trait Record: Drop {
    ghost use Rattle.std.specs.Prelude.{◌≡◌, List, ℕ, Some, IfOk, IfSome};

    /// A record that can be read back.
    ghost is_canonical: { Self → Type 0 };
    /// Its text.
    ghost text_of: { Self → List ℕ };

    /// The record that has this text. `None` where none has it.
    fn parse(alloc: Global, text: &[u8]) -> Result<Option<Self>, AllocError>
        ensures found { IfOk result (λ read. IfSome read (λ one. text.now ≡ text_of one)) }
        ensures in_range { IfOk result (λ read. IfSome read is_canonical) }
        ensures each { (one : Self) → is_canonical one → text.now ≡ text_of one → IfOk result (λ read. read ≡ Some one) };
}

impl Record for Meta {
    ghost use Rattle.ssq_plans.specs.Records.{IsMetaRecord, meta_text};

    ghost is_canonical = { IsMetaRecord };

    ghost text_of = { meta_text };

    fn parse(alloc: Global, text: &[u8]) -> Result<Option<Meta>, AllocError> {
        read_meta(alloc, text)
    }
}

impl Record for Plan {
    ghost use Rattle.ssq_plans.specs.Records.{IsPlan, plan_text};

    ghost is_canonical = { IsPlan };

    ghost text_of = { plan_text };

    fn parse(alloc: Global, text: &[u8]) -> Result<Option<Plan>, AllocError> {
        read_plan(alloc, text)
    }
}

impl Record for Commit {
    ghost use Rattle.ssq_plans.specs.Records.{IsCommit, commit_text};

    ghost is_canonical = { IsCommit };

    ghost text_of = { commit_text };

    fn parse(alloc: Global, text: &[u8]) -> Result<Option<Commit>, AllocError> {
        read_commit(alloc, text)
    }
}

/// The record that a file spells. `None` where the file is missing or malformed.
pub(crate) fn record_in<D: Disk, R: Record>(
    alloc: Global,
    disk: &mut D,
    name: Name,
) -> Result<Option<R>, DiskError>
    ensures found { D.tells → IfOk result (λ read. IfSome read (SpellsOnly R.is_canonical R.text_of (files_now (D.history disk.old) name))) }
    ensures in_range { IfOk result (λ read. IfSome read R.is_canonical) }
    ensures none { D.tells → IfOk result (λ read. IfNone read ((one : R) → Spells R.is_canonical R.text_of (files_now (D.history disk.old) name) one → ⊥)) }
    ensures same { D.tells → D.history disk.new ≡ D.history disk.old }
    ensures counted { D.faults disk.old ≤ D.faults disk.new }
    ensures cause { IsErrOf result DiskError.Fault → Rises (D.faults disk.old) (D.faults disk.new) }
{
    match disk.read(alloc, name)? {
        Some(text) => Ok(R::parse(alloc, text.as_slice())?),
        None => Ok(None),
    }
}
