//! A whole query: the first of the rules that it breaks.

ghost use Rattle.std.specs.Prelude.{◌≡◌, ◌||◌, Option, OnOk, IfOk, IfErr};
ghost use Rattle.ssq_check.specs.Erased.{TypesStay};
ghost use Rattle.ssq_check.specs.Worked.{AreWorked};
ghost use Rattle.ssq_check.specs.Fault.{AreNone, FirstOf};
ghost use Rattle.ssq_check.specs.Lists.{Where};
ghost use Rattle.ssq_check.specs.Names.{is_there, row_scope};
ghost use Rattle.ssq_check.specs.Sound.{IsSound};
ghost use Rattle.ssq_check.specs.Whole.{LimitFaults, DeduplicatedTwice, GroupedTwice, StatefulFaults, WordFaults, RowFaults, ShownFaults, OwnFaults, SelectFaults, QueryFaults, IsRefusedBy};

use crate::clause::{
    check_deduplicate, check_filter, check_group, check_having, check_join, check_order,
};
use crate::fault::{BindFault, Cause, Refusal, rule, sooner, unless};
use crate::item::check_items;
use crate::list::{beyond, standing};
use crate::names::{add_keys, row_scope};
use crate::scope::Scope;
use crate::shown::{group_place, shown_aggregates, within};
use crate::stream::check_streams;
use ssq_ast::{Deduplicate, Limit, Query, Select};
use std::alloc::{AllocError, Global};

fn is_either(is_join: bool, deduplicate: &Option<Deduplicate>) -> bool
    ensures { result ≡ (is_join || is_there deduplicate.now) }
{
    is_join || deduplicate.is_some()
}

#[tactic(auto, using(crate::proofs::Nodes::first_rule))]
fn check_limit(limit: &Option<Limit>) -> Option<BindFault>
    ensures { FirstOf (Where LimitFaults limit.now) result }
{
    match limit {
        Some(limit) => Some(BindFault {
            at: limit.at,
            cause: Cause::Limit,
        }),
        None => None,
    }
}

fn check_twice(is_join: bool, deduplicate: &Option<Deduplicate>) -> Option<BindFault>
    ensures { FirstOf (Where (DeduplicatedTwice is_join) deduplicate.now) result }
{
    match deduplicate {
        Some(deduplicate) => rule(Cause::TwoStateful, deduplicate.at, is_join),
        None => None,
    }
}

fn check_grouped(is_other: bool, grouped: Option<usize>) -> Option<BindFault>
    ensures { FirstOf (Where (GroupedTwice is_other) grouped) result }
{
    match grouped {
        Some(at) => rule(Cause::TwoStateful, at, is_other),
        None => None,
    }
}

#[tactic(auto, using(crate::proofs::First::first_sooner))]
fn check_stateful(
    is_join: bool,
    deduplicate: &Option<Deduplicate>,
    grouped: Option<usize>,
) -> Option<BindFault>
    ensures { FirstOf (StatefulFaults is_join deduplicate.now grouped) result }
{
    let is_other = is_either(is_join, deduplicate);
    sooner(
        check_twice(is_join, deduplicate),
        check_grouped(is_other, grouped),
    )
}

#[tactic(auto, using(crate::proofs::First::first_sooner))]
fn check_words(select: &Select, grouped: Option<usize>) -> Option<BindFault>
    ensures { FirstOf (WordFaults select.now grouped) result }
{
    let distinct = standing(Cause::Distinct, select.distinct);
    let limit = check_limit(&select.limit);
    let stateful = check_stateful(select.join.is_some(), &select.deduplicate, grouped);
    sooner(distinct, sooner(limit, stateful))
}

#[tactic(auto, using(crate::proofs::First::first_sooner))]
fn check_rows(
    alloc: Global,
    scope: &Scope,
    select: &Select,
) -> Result<Option<BindFault>, AllocError>
    ensures { IfOk result (FirstOf (RowFaults scope.now select.now)) }
{
    let from = unless(Cause::UnknownName, select.from.at, scope.left.is_some());
    let join = check_join(scope, select.from.text.as_str(), &select.join);
    let filter = check_filter(scope, &select.filter);
    let deduplicate = check_deduplicate(alloc, scope, &select.deduplicate)?;
    let group = check_group(alloc, scope, &select.group)?;
    Ok(sooner(
        from,
        sooner(join, sooner(filter, sooner(deduplicate, group))),
    ))
}

#[tactic(auto, using(crate::proofs::First::first_sooner))]
fn check_shown(
    alloc: Global,
    scope: &Scope,
    grouped: Option<usize>,
    past: Option<usize>,
    select: &Select,
) -> Result<Option<BindFault>, AllocError>
    ensures { IfOk result (FirstOf (ShownFaults scope.now grouped past select.now)) }
{
    let is_group = grouped.is_some();
    let within = within(is_group);
    let items = check_items(alloc, scope, within, select.items.as_slice())?;
    let many = beyond(select.items.as_slice());
    let aggregates = standing(Cause::TooMany, past);
    let having = check_having(scope, within, is_group, &select.having);
    let order = check_order(alloc, select.items.as_slice(), select.order.as_slice())?;
    Ok(sooner(
        items,
        sooner(many, sooner(aggregates, sooner(having, order))),
    ))
}

/// The first fault of what a query shows, and of its words.
#[tactic(auto, using(crate::proofs::First::first_sooner))]
fn check_own(alloc: Global, scope: &Scope, query: &Query) -> Result<Option<BindFault>, AllocError>
    ensures { IfOk result (FirstOf (OwnFaults scope.now query.now)) }
{
    let select = &query.select;
    let aggregates = shown_aggregates(query);
    let grouped = group_place(&select.group, aggregates.first);
    let shown = check_shown(alloc, scope, grouped, aggregates.past, select)?;
    let words = check_words(select, grouped);
    Ok(sooner(shown, words))
}

/// The first fault after the declarations. `names` are those of rows at first, and then those of groups too.
fn check_select(
    alloc: Global,
    query: &Query,
    names: &mut Scope,
) -> Result<Option<BindFault>, AllocError>
    requires { names.old ≡ row_scope query.now }
    ensures { IfOk result (FirstOf (SelectFaults query.now)) }
{
    let rows = check_rows(alloc, names, &query.select)?;
    add_keys(alloc, &query.select.group, names)?;
    let own = check_own(alloc, names, query)?;
    Ok(sooner(rows, own))
}

fn check_behind(alloc: Global, query: &Query) -> Result<Option<BindFault>, AllocError>
    ensures { IfOk result (FirstOf (SelectFaults query.now)) }
{
    let mut names = row_scope(alloc, query)?;
    let select = check_select(alloc, query, &mut names);
    drop(names);
    select
}

/// The first fault of a query.
fn check_query(alloc: Global, query: &Query) -> Result<Option<BindFault>, AllocError>
    ensures { IfOk result (FirstOf (QueryFaults query.now)) }
{
    let streams = check_streams(alloc, query.streams.as_slice())?;
    let select = check_behind(alloc, query)?;
    Ok(sooner(streams, select))
}

/// Whether a query breaks no rule of binding.
///
/// # Errors
///
/// [`Refusal::Broken`] is the first of the rules that it breaks: the one with the least place, and of several at one
/// place the one that stands first in [`Cause`]. [`Refusal::NoMemory`] comes only where memory ran out.
#[tactic(auto, using(crate::proofs::SoundLemmas::sound_where_none))]
pub fn check(alloc: Global, query: &Query) -> Result<(), Refusal>
    ensures taken { OnOk result (AreNone (QueryFaults query.now)) }
    ensures sound { OnOk result (IsSound query.now) }
    ensures refused { IfErr result (IsRefusedBy (QueryFaults query.now)) }
{
    match check_query(alloc, query) {
        Ok(None) => Ok(()),
        Ok(Some(fault)) => Err(Refusal::Broken(fault)),
        Err(_) => Err(Refusal::NoMemory),
    }
}

/// Small values.
pub fn small_values()
    ensures { AreWorked }
{}

/// The law of places: the type of an expression doesn't depend on them.
pub fn types_stay()
    ensures { TypesStay }
{}
