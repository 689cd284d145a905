//! Declared streams: the first of the rules that they break.

ghost use Rattle.std.specs.Prelude.{IfOk};
ghost use Rattle.ssq_check.specs.Fault.{FirstOf};
ghost use Rattle.ssq_check.specs.Lists.{Where};
ghost use Rattle.ssq_check.specs.Clauses.{EventFaults, WatermarkFaults, StreamsFaults};

use crate::clause::is_no_time;
use crate::each::{Checked, first_in};
use crate::fault::{BindFault, Cause, rule, sooner, unless};
use crate::list::{beyond, first_double, past};
use crate::names::declared_spot;
use crate::scope::Spot;
use ssq_ast::{Stream, Watermark};
use std::alloc::{AllocError, Global};

/// How many streams a query may declare.
const MOST_STREAMS: usize = 2;

fn event_fault(spot: Option<Spot>, at: usize) -> Option<BindFault>
    ensures { FirstOf (EventFaults spot at) result }
{
    let unknown = unless(Cause::UnknownName, at, spot.is_some());
    let untimed = rule(Cause::WrongType, at, is_no_time(spot));
    sooner(unknown, untimed)
}

fn watermark_fault(stream: &Stream, watermark: &Option<Watermark>) -> Option<BindFault>
    ensures { FirstOf (Where (WatermarkFaults stream.now) watermark.now) result }
{
    match watermark {
        Some(watermark) => {
            let column = &watermark.column;
            let spot = declared_spot(stream.columns.as_slice(), column.text.as_str());
            event_fault(spot, column.at)
        }
        None => None,
    }
}

impl Checked<()> for Stream {
    ghost use Rattle.ssq_check.specs.Clauses.{StreamFaults};

    ghost faults = { λ _ stream. StreamFaults stream };

    fn first_fault(&self, alloc: Global, _names: &()) -> Result<Option<BindFault>, AllocError> {
        let columns = self.columns.as_slice();
        let doubled = first_double(alloc, columns)?;
        let event = watermark_fault(self, &self.watermark);
        Ok(sooner(doubled, sooner(beyond(columns), event)))
    }
}

/// The declarations.
#[tactic(auto, using(crate::proofs::First::first_sooner))]
pub(crate) fn check_streams(
    alloc: Global,
    streams: &[Stream],
) -> Result<Option<BindFault>, AllocError>
    ensures { IfOk result (FirstOf (StreamsFaults streams.now)) }
{
    let each = first_in(alloc, &(), streams)?;
    let doubled = first_double(alloc, streams)?;
    let third = past(Cause::TooMany, MOST_STREAMS, streams);
    Ok(sooner(each, sooner(doubled, third)))
}
