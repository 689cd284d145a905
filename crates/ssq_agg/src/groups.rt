//! The groups that an epoch's rows touch.

ghost use Rattle.std.specs.Prelude.{◌≡◌, Some, List, if◌then◌else◌, All, IfOk, OnOk};
ghost use Rattle.std.specs.HashMap.{get as found};
ghost use Rattle.std.specs.List.{AllByRecursion};
ghost use Rattle.ssq_value.specs.declared.value.Value.{Value as Cell};
ghost use Rattle.ssq_meaning.specs.Fit.{IsFit, IsFitRow};
ghost use Rattle.ssq_meaning.specs.Group.{is_same, members};
ghost use Rattle.ssq_meaning.specs.Totals.{with_row};
ghost use Rattle.ssq_agg.specs.Fits.{AllFit};
ghost use Rattle.ssq_agg.specs.Groups.{AreSteady, Held as Own, goes_on, started, touched};
ghost use Rattle.ssq_agg.specs.Holding.{Holds};
ghost use Rattle.ssq_agg.specs.Readable.{AreFitAt, AreFitGroups, IsFitTotal, IsKey};

use crate::kept::totals_of;
use crate::totals::Totals;
use ssq_meaning::FedRow;
use ssq_shape::Grouping;
use ssq_step::Key;
use ssq_value::Value;
use ssq_version::StateMap;
use std::alloc::{AllocError, Global};
use std::collections::HashMap;

/// The totals from which a key goes on.
fn started(
    alloc: Global,
    grouping: &Grouping,
    state: &StateMap,
    key: &[Value],
) -> Result<Totals, AllocError>
    requires { All IsFit key.now }
    ensures totals { (own : Own) → Holds grouping.now state.now own → IsKey grouping.now key.now →
        IfOk result (λ totals. totals ≡ started grouping.now.aggregates (own key.now)) }
    ensures fit { IfOk result (All IsFitTotal) }
{
    match totals_of(alloc, grouping, state, key)? {
        Some(totals) => Ok(totals),
        None => Totals::of_nothing(alloc, grouping.aggregates.as_slice()),
    }
}

/// Takes one more row into its group, which is looked up where no row before had its key.
fn take_row<'a>(
    alloc: Global,
    grouping: &Grouping,
    state: &StateMap,
    groups: &mut HashMap<Key<'a>, Totals>,
    row: &'a FedRow,
) -> Result<(), AllocError>
    requires { IsFitRow row.now }
    ensures taken { (own : Own) → Holds grouping.now state.now own → IsKey grouping.now row.now.key →
        AllFit (with_row (goes_on grouping.now.aggregates (own row.now.key) (found is_same groups.old row.now.key)) row.now.values) →
        OnOk result ((key : List Cell) → found is_same groups.new key ≡
        (if is_same row.now.key key then Some (with_row (goes_on grouping.now.aggregates (own row.now.key) (found is_same groups.old row.now.key)) row.now.values) else found is_same groups.old key)) }
    ensures fit { AreFitAt (found is_same groups.old) → OnOk result (AreFitAt (found is_same groups.new)) }
{
    let key = Key::of(row.key());
    if let Some(totals) = groups.get_mut(&key) {
        return totals.add_row(row.values());
    }
    let mut totals = started(alloc, grouping, state, row.key())?;
    totals.add_row(row.values())?;
    groups.insert(key, totals)?;
    Ok(())
}

/// The groups that the rows touch, each with its totals after them. A group that was touched is looked up once.
pub(crate) fn touched<'a>(
    alloc: Global,
    grouping: &Grouping,
    state: &StateMap,
    rows: &'a [FedRow],
) -> Result<HashMap<Key<'a>, Totals>, AllocError>
    requires { All IsFitRow rows.now }
    ensures groups { (own : Own) → Holds grouping.now state.now own → AllByRecursion (λ row. IsKey grouping.now row.key) rows.now →
        AreSteady grouping.now.aggregates own rows.now →
        IfOk result (λ groups. (key : List Cell) → found is_same groups key ≡ touched grouping.now.aggregates (own key) (members rows.now key)) }
    ensures fit { IfOk result AreFitGroups }
{
    let mut groups = HashMap::new(alloc);
    for row in rows {
        take_row(alloc, grouping, state, &mut groups, row)?;
    }
    Ok(groups)
}
