//! The table of modes.

ghost use Rattle.std.specs.Prelude.{◌≡◌, OnOk, IfErr};
ghost use Rattle.std.specs.List.{list_any};
ghost use Rattle.ssq_modes.specs.Modes.{is_key, are_shown, is_unwatched, append_without_time, complete_without_groups, join_in_update, outer_without_bound, bound_without_watermark, sorted_elsewhere, having_in_update, hides_a_key, AppliesNone, IsFirst};

use crate::fault::ModeFault;
use ssq_shape::{Bound, JoinKind, Mode, Output, Shape, Stream, time_key};

fn append_without_time(bound: &Bound) -> bool
    ensures { result ≡ append_without_time bound.now }
{
    match &bound.shape {
        Shape::Group(_) => bound.mode == Mode::Append && time_key(bound).is_none(),
        _ => false,
    }
}

fn complete_without_groups(bound: &Bound) -> bool
    ensures { result ≡ complete_without_groups bound.now }
{
    match &bound.shape {
        Shape::Group(_) => false,
        _ => bound.mode == Mode::Complete,
    }
}

fn join_in_update(bound: &Bound) -> bool
    ensures { result ≡ join_in_update bound.now }
{
    match &bound.shape {
        Shape::Join(_) => bound.mode == Mode::Update,
        _ => false,
    }
}

fn outer_without_bound(bound: &Bound) -> bool
    ensures { result ≡ outer_without_bound bound.now }
{
    match &bound.shape {
        Shape::Join(joining) => joining.kind != JoinKind::Inner && joining.bound.is_none(),
        _ => false,
    }
}

fn is_unwatched(stream: &Stream) -> bool
    ensures { result ≡ is_unwatched stream.now }
{
    stream.schema.event().is_none()
}

fn has_unwatched(streams: &[Stream]) -> bool
    ensures { result ≡ list_any is_unwatched streams.now }
{
    streams.iter().any(|stream| is_unwatched(stream))
}

fn bound_without_watermark(bound: &Bound) -> bool
    ensures { result ≡ bound_without_watermark bound.now }
{
    match &bound.shape {
        Shape::Join(joining) => {
            joining.bound.is_some() && has_unwatched(bound.streams.as_slice())
        }
        _ => false,
    }
}

fn sorted_elsewhere(bound: &Bound) -> bool
    ensures { result ≡ sorted_elsewhere bound.now }
{
    match &bound.shape {
        Shape::Group(_) => !bound.order.is_empty() && bound.mode != Mode::Complete,
        _ => !bound.order.is_empty(),
    }
}

fn having_in_update(bound: &Bound) -> bool
    ensures { result ≡ having_in_update bound.now }
{
    match &bound.shape {
        Shape::Group(grouping) => bound.mode == Mode::Update && grouping.having.is_some(),
        _ => false,
    }
}

fn is_key(at: usize, output: &Output) -> bool
    ensures { result ≡ is_key at output.now }
{
    match output.key {
        Some(key) => key == at,
        None => false,
    }
}

fn is_shown(outputs: &[Output], at: usize) -> bool
    ensures { result ≡ list_any (is_key at) outputs.now }
{
    outputs.iter().any(|output| is_key(at, output))
}

/// Whether each of the first `count` keys is shown.
#[tactic(auto, using(crate::proofs::Refusals::shown_next), unfolding(crate::specs::Modes::are_shown))]
fn are_shown(outputs: &[Output], count: usize) -> bool
    ensures { result ≡ are_shown outputs.now count }
{
    let mut all = true;
    for at in 0..count {
        all = is_shown(outputs, at) && all;
    }
    all
}

fn hides_a_key(bound: &Bound) -> bool
    ensures { result ≡ hides_a_key bound.now }
{
    match &bound.shape {
        Shape::Group(grouping) => {
            bound.mode == Mode::Update && !are_shown(bound.outputs.as_slice(), grouping.keys.len())
        }
        _ => false,
    }
}

/// The first rule of modes that a bound query breaks, where it breaks one. It takes no memory.
#[tactic(auto, using(crate::proofs::Refusals::table))]
pub fn check(bound: &Bound) -> Result<(), ModeFault>
    ensures taken { OnOk result (AppliesNone bound.now) }
    ensures refused { IfErr result (IsFirst bound.now) }
{
    if append_without_time(bound) {
        return Err(ModeFault::AppendNeedsWatermark);
    }
    if complete_without_groups(bound) {
        return Err(ModeFault::CompleteNeedsAggregate);
    }
    if join_in_update(bound) {
        return Err(ModeFault::JoinNeedsAppend);
    }
    if outer_without_bound(bound) {
        return Err(ModeFault::OuterNeedsBound);
    }
    if bound_without_watermark(bound) {
        return Err(ModeFault::BoundNeedsWatermark);
    }
    if sorted_elsewhere(bound) {
        return Err(ModeFault::SortNeedsComplete);
    }
    if having_in_update(bound) {
        return Err(ModeFault::HavingInUpdate);
    }
    if hides_a_key(bound) {
        return Err(ModeFault::KeyNotShown);
    }
    Ok(())
}
