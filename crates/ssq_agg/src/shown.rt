//! What an epoch shows of groups.

ghost use Rattle.std.specs.Prelude.{◌≡◌, [], ◌∷◌, Some, All, OnOk};
ghost use Rattle.std.specs.HashMap.{IsUnique, get};
ghost use Rattle.ssq_meaning.specs.Group.{is_same};
ghost use Rattle.ssq_step.specs.Shown.{ArePrintable};
ghost use Rattle.ssq_agg.specs.Readable.{AreFit, AreFitGroups, IsFitGroup};
ghost use Rattle.ssq_agg.specs.Shown.{Shows, pairs_of};

use crate::kept::Group;
use crate::show::show;
use crate::totals::Totals;
use ssq_expr::EvalFault;
use ssq_shape::{Bound, Grouping};
use ssq_step::{Key, Shown};
use ssq_value::Value;
use std::alloc::{AllocError, Global};
use std::collections::HashMap;

/// Shows one more group.
fn show_group(
    alloc: Global,
    bound: &Bound,
    grouping: &Grouping,
    shown: &mut Shown,
    key: &[Value],
    totals: &Totals,
) -> Result<(), AllocError>
    requires fit { IsFitGroup key.now totals.now }
    requires printable { ArePrintable shown.old.rows.items }
    ensures shown { OnOk result (Shows bound.now grouping.now ((key.now, totals.now) ∷ []) shown.old shown.new) }
    ensures printable { OnOk result (ArePrintable shown.new.rows.items) }
{
    match show(alloc, bound, grouping, key, totals.as_slice()) {
        Ok(Some(row)) => shown.add_row(row),
        Ok(None) => Ok(()),
        Err(EvalFault::Overflow) => shown.add_fault(alloc, key),
        Err(EvalFault::NoMemory) => Err(AllocError),
    }
}

/// Shows the groups that were touched.
pub(crate) fn show_touched(
    alloc: Global,
    bound: &Bound,
    grouping: &Grouping,
    shown: &mut Shown,
    groups: &HashMap<Key<'_>, Totals>,
) -> Result<(), AllocError>
    requires fit { AreFitGroups groups.now }
    requires printable { ArePrintable shown.old.rows.items }
    ensures shown { OnOk result (Shows bound.now grouping.now groups.now.entries shown.old shown.new) }
    ensures printable { OnOk result (ArePrintable shown.new.rows.items) }
    // Each key of a map is there once, and is found in it.
    ensures unique { IsUnique is_same groups.now }
    ensures found { All (λ entry. get is_same groups.now entry.0 ≡ Some entry.1) groups.now.entries }
{
    for (key, totals) in groups.iter() {
        show_group(alloc, bound, grouping, shown, key.values(), totals)?;
    }
    Ok(())
}

/// Shows each of the groups.
pub(crate) fn show_each(
    alloc: Global,
    bound: &Bound,
    grouping: &Grouping,
    shown: &mut Shown,
    groups: &[Group],
) -> Result<(), AllocError>
    requires fit { AreFit groups.now }
    requires printable { ArePrintable shown.old.rows.items }
    ensures shown { OnOk result (Shows bound.now grouping.now (pairs_of groups.now) shown.old shown.new) }
    ensures printable { OnOk result (ArePrintable shown.new.rows.items) }
{
    for group in groups {
        show_group(
            alloc,
            bound,
            grouping,
            shown,
            group.key.as_slice(),
            &group.totals,
        )?;
    }
    Ok(())
}
