//! The clauses of a query: the first of the rules that each of them breaks.

ghost use Rattle.std.specs.Prelude.{◌≡◌, ◌*ℤ◌, pos, int_lt, [], None, IfOk};
ghost use Rattle.std.specs.List.{flat_map};
ghost use Rattle.ssq_check.specs.Counted.{tally_of, Counts};
ghost use Rattle.ssq_check.specs.Fault.{FirstOf};
ghost use Rattle.ssq_check.specs.Lists.{Each, Where};
ghost use Rattle.ssq_check.specs.Rules.{type_of};
ghost use Rattle.ssq_check.specs.Clauses as clause;
ghost use Rattle.ssq_check.specs.Clauses.{ConditionFaults, HavingFaults, JoinedFaults, JoinFaults, DeduplicateFaults, SizeFaults, WindowFaults, GroupFaults, OrderFaults, group_windows, slide_of};
ghost use Rattle.ssq_check.specs.Scope.{is_window_name};
ghost use Rattle.ssq_check.specs.declared.scope.Within.TheVariants as within;

use crate::each::{Checked, first_in};
use crate::expr::check_expr;
use crate::fault::{BindFault, Cause, fault_in, rule, sooner, unless};
use crate::joined::{check_on, spot_in};
use crate::list::{Names, beyond, first_double, first_double_column, standing};
use crate::scope::{Scope, Source, Spot, Within, bare_spot, is_window_name};
use crate::tally::Tally;
use indexmap::IndexSet;
use ssq_ast::{Condition, Deduplicate, Group, GroupBy, Ident, Item, Join, OrderBy, Window};
use ssq_value::{ColType, Column, Text};
use std::alloc::{AllocError, Global};

/// How many windows may hold one time.
const MOST_WINDOWS: i128 = 64;

fn is_no_truth(kind: Result<ColType, BindFault>) -> bool
    ensures { result ≡ clause.is_no_truth (type_of kind) }
{
    match kind {
        Ok(ColType::Bool) => false,
        Ok(_) => true,
        Err(_) => false,
    }
}

/// WHERE, ON or HAVING.
#[tactic(auto, using(crate::proofs::First::first_sooner))]
pub(crate) fn check_condition(
    scope: &Scope,
    within: Within,
    condition: &Condition,
) -> Option<BindFault>
    ensures { FirstOf (ConditionFaults scope.now within condition.now) result }
{
    let kind = check_expr(scope, within, &condition.value);
    let own = rule(Cause::WrongType, condition.at, is_no_truth(kind));
    sooner(fault_in(kind), own)
}

/// WHERE.
pub(crate) fn check_filter(scope: &Scope, filter: &Option<Condition>) -> Option<BindFault>
    ensures { FirstOf (Where (ConditionFaults scope.now within.Row) filter.now) result }
{
    match filter {
        Some(condition) => check_condition(scope, Within::Row, condition),
        None => None,
    }
}

#[tactic(auto, using(crate::proofs::First::first_sooner))]
fn check_grouped(
    scope: &Scope,
    within: Within,
    is_group: bool,
    condition: &Condition,
) -> Option<BindFault>
    ensures { FirstOf (HavingFaults scope.now within is_group condition.now) result }
{
    let own = unless(Cause::NotGrouped, condition.at, is_group);
    sooner(check_condition(scope, within, condition), own)
}

/// HAVING.
pub(crate) fn check_having(
    scope: &Scope,
    within: Within,
    is_group: bool,
    having: &Option<Condition>,
) -> Option<BindFault>
    ensures { FirstOf (Where (HavingFaults scope.now within is_group) having.now) result }
{
    match having {
        Some(condition) => check_grouped(scope, within, is_group, condition),
        None => None,
    }
}

#[tactic(auto, using(crate::proofs::First::first_sooner))]
fn check_joined(is_declared: bool, from: &str, stream: &Ident) -> Option<BindFault>
    ensures { FirstOf (JoinedFaults is_declared from.now stream.now) result }
{
    let unknown = unless(Cause::UnknownName, stream.at, is_declared);
    let itself = rule(Cause::DoubleName, stream.at, stream.text.as_str() == from);
    sooner(unknown, itself)
}

#[tactic(auto, using(crate::proofs::First::first_sooner))]
fn check_whole_join(scope: &Scope, from: &str, join: &Join) -> Option<BindFault>
    ensures { FirstOf (JoinFaults scope.now from.now join.now) result }
{
    let stream = check_joined(scope.right.is_some(), from, &join.stream);
    sooner(stream, check_on(scope, &join.on))
}

/// JOIN.
pub(crate) fn check_join(scope: &Scope, from: &str, join: &Option<Join>) -> Option<BindFault>
    ensures { FirstOf (Where (JoinFaults scope.now from.now) join.now) result }
{
    match join {
        Some(join) => check_whole_join(scope, from, join),
        None => None,
    }
}

impl Checked<Scope> for Ident {
    ghost use Rattle.ssq_check.specs.Clauses.{IdentFaults};

    ghost faults = { IdentFaults };

    fn first_fault(&self, _alloc: Global, scope: &Scope) -> Result<Option<BindFault>, AllocError> {
        Ok(fault_in(bare_spot(scope, self)))
    }
}

#[tactic(auto, using(crate::proofs::First::first_sooner))]
fn check_columns(
    alloc: Global,
    scope: &Scope,
    deduplicate: &Deduplicate,
) -> Result<Option<BindFault>, AllocError>
    ensures { IfOk result (FirstOf (DeduplicateFaults scope.now deduplicate.now)) }
{
    let columns = deduplicate.columns.as_slice();
    let known = first_in(alloc, scope, columns)?;
    let doubled = first_double(alloc, columns)?;
    Ok(sooner(known, sooner(doubled, beyond(columns))))
}

/// DEDUPLICATE.
pub(crate) fn check_deduplicate(
    alloc: Global,
    scope: &Scope,
    deduplicate: &Option<Deduplicate>,
) -> Result<Option<BindFault>, AllocError>
    ensures { IfOk result (FirstOf (Where (DeduplicateFaults scope.now) deduplicate.now)) }
{
    match deduplicate {
        Some(deduplicate) => check_columns(alloc, scope, deduplicate),
        None => Ok(None),
    }
}

pub(crate) fn is_no_time(spot: Option<Spot>) -> bool
    ensures { result ≡ clause.is_no_time spot }
{
    match spot {
        Some(spot) => match spot.kind {
            ColType::Timestamp => false,
            _ => true,
        },
        None => false,
    }
}

/// By how many microseconds windows are apart: by their size where nothing else is said.
pub fn slide_of(window: &Window) -> i64
    ensures { result ≡ slide_of window.now }
{
    match &window.slide {
        Some(slide) => slide.micros,
        None => window.size.micros,
    }
}

/// Whether windows are further apart than their size.
fn are_apart(size: i64, slide: i64) -> bool
    ensures { result ≡ int_lt size slide }
{
    size < slide
}

/// Whether more windows hold one time than may.
fn are_many(size: i64, slide: i64) -> bool
    ensures { result ≡ int_lt (pos 64 *ℤ slide) size }
{
    MOST_WINDOWS * i128::from(slide) < i128::from(size)
}

fn size_fault(window: &Window) -> Option<BindFault>
    ensures { FirstOf (SizeFaults window.now.at window.now.size.micros (slide_of window.now)) result }
{
    let size = window.size.micros;
    let slide = slide_of(window);
    let apart = rule(Cause::BadWindow, window.at, are_apart(size, slide));
    let many = rule(Cause::TooMany, window.at, are_many(size, slide));
    sooner(apart, many)
}

fn has_window_name(columns: &[Column]) -> bool
    ensures { result ≡ Rattle.std.specs.List.list_any clause.has_window_name columns.now }
{
    columns
        .iter()
        .any(|column| is_window_name(column.name.as_str()))
}

fn has_window_column(source: &Option<Source>) -> bool
    ensures { result ≡ clause.has_window_column source.now }
{
    match source {
        Some(source) => has_window_name(source.columns.as_slice()),
        None => false,
    }
}

fn has_window_columns(scope: &Scope) -> bool
    ensures { result ≡ clause.has_window_columns scope.now }
{
    has_window_column(&scope.left) || has_window_column(&scope.right)
}

fn window_fault(scope: &Scope, window: &Window) -> Option<BindFault>
    ensures { FirstOf (WindowFaults scope.now window.now) result }
{
    let spot = bare_spot(scope, &window.column);
    let known = fault_in(spot);
    let typed = rule(
        Cause::WrongType,
        window.column.at,
        is_no_time(spot_in(spot)),
    );
    let size = size_fault(window);
    let named = rule(Cause::DoubleName, window.at, has_window_columns(scope));
    sooner(known, sooner(typed, sooner(size, named)))
}

impl Checked<Scope> for Group {
    ghost use Rattle.ssq_check.specs.Clauses.{GroupItemFaults};

    ghost faults = { GroupItemFaults };

    fn first_fault(&self, alloc: Global, scope: &Scope) -> Result<Option<BindFault>, AllocError> {
        match self {
            Group::Column(ident) => ident.first_fault(alloc, scope),
            Group::Window(window) => Ok(window_fault(scope, window)),
        }
    }
}

#[tactic(auto, using(crate::proofs::Tallied::counts_none))]
fn with_window(item: &Group, tally: Tally) -> Tally
    ensures { Counts tally (group_windows item.now) result }
{
    match item {
        Group::Column(_) => tally,
        Group::Window(window) => tally.counting(window.at),
    }
}

/// The places of the windows, of which there may be one.
fn windows_in(items: &[Group]) -> Tally
    ensures { result ≡ tally_of 1 (flat_map group_windows items.now) }
{
    let mut tally = Tally::none_of(1);
    for item in items {
        tally = with_window(item, tally);
    }
    tally
}

#[tactic(auto, using(crate::proofs::First::first_sooner))]
fn check_groups(alloc: Global, scope: &Scope, by: &GroupBy) -> Result<Option<BindFault>, AllocError>
    ensures { IfOk result (FirstOf (GroupFaults scope.now by.now)) }
{
    let items = by.items.as_slice();
    let each = first_in(alloc, scope, items)?;
    let doubled = first_double_column(alloc, items)?;
    let second = standing(Cause::BadWindow, windows_in(items).past);
    Ok(sooner(each, sooner(doubled, sooner(second, beyond(items)))))
}

/// GROUP BY.
pub(crate) fn check_group(
    alloc: Global,
    scope: &Scope,
    group: &Option<GroupBy>,
) -> Result<Option<BindFault>, AllocError>
    ensures { IfOk result (FirstOf (Where (GroupFaults scope.now) group.now)) }
{
    match group {
        Some(by) => check_groups(alloc, scope, by),
        None => Ok(None),
    }
}

impl Checked<IndexSet<Text>> for OrderBy {
    ghost use Rattle.ssq_check.specs.Clauses.{OutputFaults};

    ghost faults = { λ names order. OutputFaults names.keys order };

    fn first_fault(
        &self,
        _alloc: Global,
        names: &IndexSet<Text>,
    ) -> Result<Option<BindFault>, AllocError> {
        let is_output = names.contains(&self.name.text);
        Ok(unless(Cause::UnknownName, self.name.at, is_output))
    }
}

fn order_fault(
    alloc: Global,
    items: &[Item],
    orders: &[OrderBy],
    names: &mut Names,
) -> Result<Option<BindFault>, AllocError>
    requires seen { names.old.seen.keys ≡ [] }
    requires double { names.old.double ≡ None }
    ensures { IfOk result (FirstOf (Each (OrderFaults items.now) orders.now)) }
{
    names.take_all(alloc, items)?;
    first_in(alloc, &names.seen, orders)
}

/// ORDER BY.
pub(crate) fn check_order(
    alloc: Global,
    items: &[Item],
    orders: &[OrderBy],
) -> Result<Option<BindFault>, AllocError>
    ensures { IfOk result (FirstOf (Each (OrderFaults items.now) orders.now)) }
{
    let mut names = Names::none(alloc);
    let order = order_fault(alloc, items, orders, &mut names);
    drop(names);
    order
}
