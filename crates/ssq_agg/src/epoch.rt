//! The step of an epoch.

ghost use Rattle.std.specs.Prelude.{◌≡◌, [], ℤ, List, None, Option, All, is_some, not, IfOk, IfErr, OnOk};
ghost use Rattle.std.specs.HashMap.{get};
ghost use Rattle.ssq_value.specs.declared.value.Value.{Value as Cell};
ghost use Rattle.ssq_shape.specs.declared.bound.Bound.{Bound as Query};
ghost use Rattle.ssq_shape.specs.declared.bound.Grouping.{Grouping as Groups};
ghost use Rattle.ssq_meaning.specs.FedRows.{FedRow as Fed};
ghost use Rattle.ssq_meaning.specs.Fit.{IsFitRow};
ghost use Rattle.ssq_meaning.specs.Group.{closing_time, is_same};
ghost use Rattle.ssq_step.specs.Shown.{ArePrintable};
ghost use Rattle.ssq_agg.specs.Closed.{AreClosed};
ghost use Rattle.ssq_agg.specs.Groups.{Held as Own};
ghost use Rattle.ssq_agg.specs.Holding.{Holds};
ghost use Rattle.ssq_agg.specs.Indexing.{Indexes};
ghost use Rattle.ssq_agg.specs.Readable.{AreFit, AreFitGroups};
ghost use Rattle.ssq_agg.specs.Shown.{AreOthers};
ghost use Rattle.ssq_agg.specs.Steps.{Given, IsCause, IsStep, IsUngrouped, ShowsDue};

use crate::changed::changed;
use crate::groups::touched;
use crate::kept::{Group, all_groups, groups_at};
use crate::shown::{show_each, show_touched};
use crate::totals::Totals;
use ssq_meaning::{
    FedRow, groups_are_due_by_what_is_kept, groups_are_kept_whole, groups_come_in_any_order,
    kept_groups_are_found,
};
use ssq_shape::{Bound, Grouping, Mode, Shape};
use ssq_step::{Closing, Key, Shown, StepFault, Stepped};
use ssq_version::{Change, StateMap, states_are_kept};
use std::alloc::{AllocError, Global};
use std::collections::HashMap;

/// The groups that are closed at the watermark.
fn closed_groups(
    alloc: Global,
    grouping: &Grouping,
    state: &StateMap,
    closing: &Closing,
    now: Option<i64>,
) -> Result<Vec<Group>, AllocError>
    ensures closed { (query : Query) (own : Own) → Holds grouping.now state.now own → Indexes query grouping.now state.now closing.now →
        IfOk result (λ groups. AreClosed own (closing_time query grouping.now) now groups.items) }
    ensures fit { IfOk result (λ groups. AreFit groups.items) }
{
    let keys = closing.past(alloc, now)?;
    groups_at(alloc, grouping, state, keys.as_slice())
}

/// Whether a group was not touched.
fn is_other(touched: &HashMap<Key<'_>, Totals>, group: &Group) -> bool
    ensures { result ≡ not (is_some (get is_same touched.now group.now.key)) }
{
    !touched.contains_key(&Key::of(group.key.as_slice()))
}

/// The groups of the state that were not touched.
fn others(
    alloc: Global,
    grouping: &Grouping,
    state: &StateMap,
    touched: &HashMap<Key<'_>, Totals>,
) -> Result<Vec<Group>, AllocError>
    ensures { IfOk result (λ others. AreOthers grouping.now state.now (get is_same touched.now) others.items) }
{
    let mut groups = all_groups(alloc, grouping, state)?;
    groups.retain(|group| is_other(touched, group));
    Ok(groups)
}

/// Shows the groups that are due: in Append those that are closed, in Update those that were touched, in Complete all.
fn show_due(
    alloc: Global,
    bound: &Bound,
    grouping: &Grouping,
    state: &StateMap,
    now: Option<i64>,
    touched: &HashMap<Key<'_>, Totals>,
    closed: &[Group],
    shown: &mut Shown,
) -> Result<(), AllocError>
    requires touched { AreFitGroups touched.now }
    requires closed { AreFit closed.now }
    requires printable { ArePrintable shown.old.rows.items }
    // Nothing was shown before.
    ensures due { (own : Own) → shown.old.rows.items ≡ [] → shown.old.fault ≡ None → Holds grouping.now state.now own →
        AreClosed own (closing_time bound.now grouping.now) now closed.now →
        OnOk result (ShowsDue bound.now grouping.now own (closing_time bound.now grouping.now) now (get is_same touched.now) shown.new) }
    ensures printable { OnOk result (ArePrintable shown.new.rows.items) }
{
    states_are_kept(state);
    match bound.mode {
        Mode::Append => show_each(alloc, bound, grouping, shown, closed),
        Mode::Update => show_touched(alloc, bound, grouping, shown, touched),
        Mode::Complete => {
            show_touched(alloc, bound, grouping, shown, touched)?;
            let others = others(alloc, grouping, state, touched)?;
            show_each(alloc, bound, grouping, shown, others.as_slice())
        }
    }
}

/// The step of a query that groups.
fn step_groups(
    alloc: Global,
    bound: &Bound,
    grouping: &Grouping,
    state: &StateMap,
    closing: &Closing,
    rows: &[FedRow],
    now: Option<i64>,
) -> Result<Stepped, StepFault>
    requires { All IsFitRow rows.now }
    ensures stepped { (old : List Fed) (before : Option ℤ) → Given bound.now grouping.now state.now closing.now old rows.now before now →
        IfOk result (IsStep bound.now grouping.now state.now old rows.now before now) }
    ensures cause { (old : List Fed) (before : Option ℤ) → Given bound.now grouping.now state.now closing.now old rows.now before now →
        IfErr result (IsCause bound.now grouping.now old rows.now before now) }
    ensures printable { IfOk result (λ stepped. ArePrintable stepped.rows.items) }
{
    kept_groups_are_found();
    groups_are_kept_whole();
    groups_come_in_any_order();
    groups_are_due_by_what_is_kept();
    let touched = touched(alloc, grouping, state, rows)?;
    let closed = closed_groups(alloc, grouping, state, closing, now)?;
    let gone = closed.as_slice();
    let mut shown = Shown::nothing(alloc);
    show_due(
        alloc, bound, grouping, state, now, &touched, gone, &mut shown,
    )?;
    let rows = shown.into_rows()?;
    let change = changed(alloc, &touched, gone)?;
    Ok(Stepped { change, rows })
}

/// The step of an epoch over the state of a partition and the index of its keys by time: by the epoch's rows that are not late, and its
/// watermark, in microseconds since 1970, what changes in the state, and which rows are shown. Of a query that does not group nothing
/// changes, and nothing is shown.
///
/// A group with new rows is looked up once. No other group is read but those that are closed, or in Complete all, since all are shown. An
/// entry of the state that is no group's counts as not there.
pub fn step(
    alloc: Global,
    bound: &Bound,
    state: &StateMap,
    closing: &Closing,
    rows: &[FedRow],
    _epoch: u32,
    watermark: Option<i64>,
) -> Result<Stepped, StepFault>
    requires { All IsFitRow rows.now }
    // The change leads from the state over the rows before to that over these rows too, and the rows that are shown are the epoch's, as a bag.
    ensures stepped { (grouping : Groups) (old : List Fed) (before : Option ℤ) → Given bound.now grouping state.now closing.now old rows.now before watermark →
        IfOk result (IsStep bound.now grouping state.now old rows.now before watermark) }
    // Nothing is shown where a group overflows: the key is the least of those.
    ensures cause { (grouping : Groups) (old : List Fed) (before : Option ℤ) → Given bound.now grouping state.now closing.now old rows.now before watermark →
        IfErr result (IsCause bound.now grouping old rows.now before watermark) }
    // Whatever the state holds, each time that is shown can be printed.
    ensures printable { IfOk result (λ stepped. ArePrintable stepped.rows.items) }
    ensures ungrouped { IsUngrouped bound.now.shape → IfOk result (λ stepped. (stepped.change ≡ []) × (stepped.rows.items ≡ [])) }
{
    match &bound.shape {
        Shape::Group(grouping) => {
            step_groups(alloc, bound, grouping, state, closing, rows, watermark)
        }
        _ => Ok(Stepped {
            change: Change::new(alloc),
            rows: Vec::new(alloc),
        }),
    }
}
