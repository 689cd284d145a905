//! The rows of an epoch, taken in turn.

ghost use Rattle.std.specs.Prelude.{◌≡◌, ◌++◌, ◌∷◌, [], Bool, List, None, All, IfOk, OnOk};
ghost use Rattle.ssq_value.specs.Key.{keys_of};
ghost use Rattle.ssq_meaning.specs.FedRows.{FedRow as Fed};
ghost use Rattle.ssq_meaning.specs.Fit.{IsFitRow};
ghost use Rattle.ssq_meaning.specs.Join.{row_key};
ghost use Rattle.ssq_meaning.specs.JoinLaws.{AreApart};
ghost use Rattle.ssq_step.specs.Shown.{ArePrintable};
ghost use Rattle.ssq_join.specs.Changing.{find_row};
ghost use Rattle.ssq_join.specs.Meeting.{AreKept};
ghost use Rattle.ssq_join.specs.Steps.{IsKept};
ghost use Rattle.ssq_join.specs.Turning.{AreFresh, AreTaken, MeetsEarlier};

use crate::bytes::{prefix_of, row_key, row_value};
use crate::meet::{Comer, meet};
use crate::near::has_null;
use ssq_field::Bytes;
use ssq_meaning::FedRow;
use ssq_shape::{Bound, Joining};
use ssq_step::Shown;
use ssq_value::{key_bytes, keys_are_apart};
use ssq_version::{StateMap, beginnings_stand_together, entries_from, states_are_kept};
use std::alloc::{AllocError, Global};
use std::collections::{BTreeMap, BTreeSet};

/// What the rows of an epoch come to.
#[derive(Drop)]
pub(crate) struct Taken {
    pub(crate) found: Shown,
    /// The bytes of the rows, kept ones and new ones, that met a partner.
    pub(crate) met: BTreeSet<Bytes>,
    /// What would be kept of each row if it met none, by its bytes.
    pub(crate) fresh: BTreeMap<Bytes, Bytes>,
}

/// Takes in a new row with each row of the other side that has its join key, among those that are kept and those of the epoch before it.
fn take_row(
    alloc: Global,
    bound: &Bound,
    joining: &Joining,
    state: &StateMap,
    fresh: &BTreeMap<Bytes, Bytes>,
    comer: Comer<'_>,
    found: &mut Shown,
    met: &mut BTreeSet<Bytes>,
) -> Result<(), AllocError>
    requires row { IsFitRow comer.row.now }
    requires key { comer.key_bytes.now ≡ keys_of comer.row.now.key }
    requires bytes { comer.bytes.now ≡ row_key comer.row.now }
    requires printable { ArePrintable found.old.rows.items }
    ensures meets { OnOk result (MeetsEarlier bound.now joining.now comer.entry.row.now state.now fresh.now.entries found.old found.new met.old.keys met.new.keys) }
    ensures printable { OnOk result (ArePrintable found.new.rows.items) }
{
    keys_are_apart();
    beginnings_stand_together();
    states_are_kept(state);
    if has_null(comer.row.key()) {
        return Ok(());
    }
    let prefix = prefix_of(alloc, comer.row.stream() != 0, comer.key_bytes)?;
    let kept = state.iter_from(alloc, &prefix)?;
    meet(alloc, bound, joining, comer, &prefix, kept, found, met)?;
    let between = entries_from(fresh, &prefix);
    meet(alloc, bound, joining, comer, &prefix, between, found, met)
}

fn nothing_taken(alloc: Global) -> Taken
    ensures rows { result.found.rows.items ≡ [] }
    ensures fault { result.found.fault ≡ None }
    ensures met { result.met.keys ≡ [] }
    ensures fresh { result.fresh.entries ≡ [] }
{
    Taken {
        found: Shown::nothing(alloc),
        met: BTreeSet::new(alloc),
        fresh: BTreeMap::new(alloc),
    }
}

/// Takes in one row more: its candidates among the rows before it are considered, and it stands before those after it.
fn take_next(
    alloc: Global,
    bound: &Bound,
    joining: &Joining,
    state: &StateMap,
    row: &FedRow,
    taken: &mut Taken,
) -> Result<(), AllocError>
    requires row { IsFitRow row.now }
    requires printable { ArePrintable taken.old.found.rows.items }
    ensures taken { (held rows : List Fed) (was_met : Fed → Bool) → AreKept bound.now joining.now was_met held state.now → IsKept bound.now joining.now row.now →
        find_row (row_key row.now) rows ≡ None → AreTaken bound.now joining.now held rows taken.old.found taken.old.met.keys → AreFresh bound.now joining.now rows taken.old.fresh.entries →
        OnOk result (AreTaken bound.now joining.now held (rows ++ row.now ∷ []) taken.new.found taken.new.met.keys × AreFresh bound.now joining.now (rows ++ row.now ∷ []) taken.new.fresh.entries) }
    ensures printable { OnOk result (ArePrintable taken.new.found.rows.items) }
{
    let key = key_bytes(alloc, row.key())?;
    let bytes = row_key(alloc, row, key.as_slice())?;
    let comer = Comer {
        row,
        key_bytes: key.as_slice(),
        bytes: &bytes,
    };
    take_row(
        alloc,
        bound,
        joining,
        state,
        &taken.fresh,
        comer,
        &mut taken.found,
        &mut taken.met,
    )?;
    let value = row_value(alloc, false, row)?;
    taken.fresh.insert(bytes, value)?;
    Ok(())
}

/// Takes the rows of an epoch in turn, each with the rows before it, those that are kept and those of the epoch.
pub(crate) fn take_rows(
    alloc: Global,
    bound: &Bound,
    joining: &Joining,
    state: &StateMap,
    rows: &[FedRow],
) -> Result<Taken, AllocError>
    requires { All IsFitRow rows.now }
    ensures taken { (held : List Fed) (was_met : Fed → Bool) → AreKept bound.now joining.now was_met held state.now → All (IsKept bound.now joining.now) rows.now → AreApart (held ++ rows.now) →
        IfOk result (λ taken. AreTaken bound.now joining.now held rows.now taken.found taken.met.keys × AreFresh bound.now joining.now rows.now taken.fresh.entries) }
    ensures printable { IfOk result (λ taken. ArePrintable taken.found.rows.items) }
{
    let mut taken = nothing_taken(alloc);
    for row in rows {
        take_next(alloc, bound, joining, state, row, &mut taken)?;
    }
    Ok(taken)
}
