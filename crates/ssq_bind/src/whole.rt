//! The whole query, once it is bound.

ghost use Rattle.std.specs.Prelude.{◌≡◌, true, false, IfOk, IfErr, OnOk};
ghost use Rattle.std.specs.Option.{option_map};
ghost use Rattle.ssq_check.specs.Fault.{AreNone};
ghost use Rattle.ssq_check.specs.Shown.{is_group};
ghost use Rattle.ssq_check.specs.Whole.{QueryFaults, IsRefusedBy};
ghost use Rattle.ssq_bind.specs.Bound.{context_of, kept_by, kept_of, with_kept, mode_of, filter_value, bound_of};
ghost use Rattle.ssq_bind.specs.Limits.{HasLimits};
ghost use Rattle.ssq_bind.specs.Places.{IsOfEach};
ghost use Rattle.ssq_bind.specs.Sound.{IsSoundBound};
ghost use Rattle.ssq_bind.specs.Streams.{streams_of};
ghost use Rattle.ssq_bind.specs.Typed.{IsTyped};
ghost use Rattle.ssq_bind.specs.Windows.{HasWindowsIfWritten};

use crate::context::Context;
use crate::group::{columns_by, keys_by, order_by, window_size};
use crate::join::joining_of;
use crate::output::{having_of, outputs_of};
use crate::stream::list;
use crate::value::row_value;
use ssq_ast::{Condition, Deduplicate, Join, Query, text};
use ssq_check::{Refusal, Within, check, is_group, left_stream, right_stream, scope_of};
use ssq_shape::{Bound, Grouping, Mode, Output, Shape, SortKey, Stream, Typed};
use ssq_value::{Sequence, Text, texts_are_utf8};
use std::alloc::{AllocError, Global};

fn streams_of(alloc: Global, query: &Query) -> Result<Sequence<Stream>, AllocError>
    ensures { IfOk result (λ streams. streams ≡ streams_of query.now) }
{
    let mut streams = Sequence::new(alloc);
    list(alloc, &mut streams, left_stream(query))?;
    list(alloc, &mut streams, right_stream(query))?;
    Ok(streams)
}

#[tactic(auto, unfolding(crate::specs::Bound::context_of))]
fn context_of(alloc: Global, query: &Query) -> Result<Context, AllocError>
    ensures { IfOk result (λ context. context ≡ context_of query.now) }
{
    Ok(Context {
        scope: scope_of(alloc, query)?,
        size: window_size(&query.select.group),
    })
}

fn kept_by(
    alloc: Global,
    context: &Context,
    join: &Option<Join>,
    deduplicate: &Option<Deduplicate>,
) -> Result<Shape, AllocError>
    ensures { IfOk result (λ shape. shape ≡ kept_by context.now join.now deduplicate.now) }
{
    match (join, deduplicate) {
        (Some(join), _) => Ok(Shape::Join(joining_of(alloc, context, join)?)),
        (None, Some(deduplicate)) => Ok(Shape::Dedup(columns_by(
            alloc,
            &context.scope,
            deduplicate.columns.as_slice(),
        )?)),
        (None, None) => Ok(Shape::Plain),
    }
}

fn mode_of(mode: ssq_ast::Mode) -> Mode
    ensures { result ≡ mode_of mode }
{
    match mode {
        ssq_ast::Mode::Append => Mode::Append,
        ssq_ast::Mode::Update => Mode::Update,
        ssq_ast::Mode::Complete => Mode::Complete,
    }
}

fn filter_of(
    alloc: Global,
    context: &Context,
    filter: &Option<Condition>,
) -> Result<Option<Typed>, AllocError>
    ensures { IfOk result (λ typed. typed ≡ option_map (filter_value context.now) filter.now) }
{
    match filter {
        Some(condition) => Ok(Some(row_value(alloc, context, &condition.value)?)),
        None => Ok(None),
    }
}

/// What the query shows and what it keeps.
#[derive(Drop)]
pub struct Kept {
    pub outputs: Sequence<Output>,
    pub shape: Shape,
}

/// What a query of groups shows and keeps. The aggregates are those of SELECT, then those of HAVING.
fn grouped(alloc: Global, query: &Query, context: &Context) -> Result<Kept, AllocError>
    requires context { context.now ≡ context_of query.now }
    requires is_grouped { is_group query.now ≡ true }
    ensures { IfOk result (λ kept. kept ≡ kept_of query.now) }
{
    let keys = keys_by(alloc, &context.scope, &query.select.group)?;
    let mut aggregates = Sequence::new(alloc);
    let items = query.select.items.as_slice();
    let outputs = outputs_of(alloc, context, Within::Group, &mut aggregates, items)?;
    let having = &query.select.having;
    let having = having_of(alloc, context, Within::Group, &mut aggregates, having)?;
    Ok(Kept {
        outputs,
        shape: Shape::Group(Grouping {
            keys,
            aggregates,
            having,
        }),
    })
}

/// What a query of rows shows and keeps. It has no aggregates.
fn ungrouped(alloc: Global, query: &Query, context: &Context) -> Result<Kept, AllocError>
    requires context { context.now ≡ context_of query.now }
    requires is_ungrouped { is_group query.now ≡ false }
    ensures { IfOk result (λ kept. kept ≡ kept_of query.now) }
{
    let mut none = Sequence::new(alloc);
    let items = query.select.items.as_slice();
    let outputs = outputs_of(alloc, context, Within::Row, &mut none, items)?;
    let shape = kept_by(
        alloc,
        context,
        &query.select.join,
        &query.select.deduplicate,
    )?;
    Ok(Kept { outputs, shape })
}

/// What a query shows and keeps.
fn kept_of(alloc: Global, query: &Query, context: &Context) -> Result<Kept, AllocError>
    requires context { context.now ≡ context_of query.now }
    ensures { IfOk result (λ kept. kept ≡ kept_of query.now) }
{
    if is_group(query) {
        grouped(alloc, query, context)
    } else {
        ungrouped(alloc, query, context)
    }
}

/// The bound query of these parts.
fn with_kept(
    mode: ssq_ast::Mode,
    text: Text,
    streams: Sequence<Stream>,
    kept: Kept,
    filter: Option<Typed>,
    order: Sequence<SortKey>,
) -> Bound
    ensures { result ≡ with_kept mode text streams kept filter order }
{
    let Kept { outputs, shape } = kept;
    Bound {
        text,
        streams,
        mode: mode_of(mode),
        shape,
        filter,
        outputs,
        order,
    }
}

/// The bound query, once its names are known.
fn bound_in(alloc: Global, query: &Query, context: &Context) -> Result<Bound, AllocError>
    requires context { context.now ≡ context_of query.now }
    ensures { IfOk result (λ bound. bound ≡ bound_of query.now) }
{
    let select = &query.select;
    let text = text(alloc, query)?;
    let streams = streams_of(alloc, query)?;
    let order = order_by(alloc, select.items.as_slice(), select.order.as_slice())?;
    let filter = filter_of(alloc, context, &select.filter)?;
    match kept_of(alloc, query, context) {
        Ok(kept) => Ok(with_kept(select.mode, text, streams, kept, filter, order)),
        Err(error) => {
            drop(filter);
            Err(error)
        }
    }
}

/// The bound query that a query is: a function of the query, also of one that breaks a rule.
pub fn build(alloc: Global, query: &Query) -> Result<Bound, AllocError>
    ensures bound { IfOk result (λ bound. bound ≡ bound_of query.now) }
{
    let context = context_of(alloc, query)?;
    let bound = bound_in(alloc, query, &context);
    drop(context);
    bound
}

/// The bound query that a query is, where it breaks no rule of binding.
///
/// # Errors
///
/// [`Refusal::Broken`] is the first of the rules that it breaks: the one with the least place, and of several at one
/// place the one that stands first in [`ssq_check::Cause`]. [`Refusal::NoMemory`] comes only where memory ran out.
#[tactic(auto, using(crate::proofs::SoundLemmas::sound_bound))]
pub fn bind(alloc: Global, query: &Query) -> Result<Bound, Refusal>
    ensures bound { IfOk result (λ bound. bound ≡ bound_of query.now) }
    ensures taken { OnOk result (AreNone (QueryFaults query.now)) }
    ensures sound { IfOk result IsSoundBound }
    ensures windows { IfOk result (HasWindowsIfWritten query.now) }
    ensures limits { IfOk result HasLimits }
    ensures typed { IfOk result IsTyped }
    ensures places { IfOk result (IsOfEach query.now) }
    ensures refused { IfErr result (IsRefusedBy (QueryFaults query.now)) }
{
    check(alloc, query)?;
    let Ok(bound) = build(alloc, query) else {
        return Err(Refusal::NoMemory);
    };
    texts_are_utf8(&bound.text);
    Ok(bound)
}
