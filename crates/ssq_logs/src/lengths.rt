//! How many lines the logs have.

ghost use Rattle.std.specs.Prelude.{◌≡◌, ◌++◌, ◌∷◌, [], ℕ, List, length, IfOk, IfErr, OnOk};
ghost use Rattle.ssq_logs.specs.Asked.{AreAsked, IsStopped};

use crate::fault::LengthFault;
use ssq_outside::Log;
use std::alloc::{AllocError, Global};

/// More lines than these are not taken of a part.
const MOST_LINES: u64 = 1_099_511_627_776;

fn put(found: &mut Vec<u64>, lines: u64) -> Result<(), AllocError>
    ensures { OnOk result (found.new.items ≡ found.old.items ++ lines ∷ []) }
{
    found.push(lines)?;
    Ok(())
}

/// Asks each log, and puts the answers after those that are there.
fn put_lengths<L: Log>(found: &mut Vec<u64>, logs: &mut [L]) -> Result<(), LengthFault>
    ensures asked { OnOk result ((answers : List ℕ) × (found.new.items ≡ found.old.items ++ answers)
        × AreAsked L.tells L.lines L.available L.answers L.faults logs.old logs.new answers) }
    ensures stopped { IfErr result (IsStopped L.tells L.lines L.available L.answers L.faults (length found.old.items) logs.old logs.new) }
{
    let Some((log, rest)) = logs.split_first_mut() else {
        return Ok(());
    };
    let Ok(lines) = log.lines() else {
        return Err(LengthFault::LogFault);
    };
    if lines > MOST_LINES {
        return Err(LengthFault::Full {
            number: found.as_slice().len(),
            lines,
        });
    }
    put(found, lines)?;
    put_lengths(found, rest)
}

/// How many lines each log has, as it answers now: each is asked once, in order, up to the first that has too many or fails.
pub fn count_lines<L: Log>(alloc: Global, logs: &mut [L]) -> Result<Vec<u64>, LengthFault>
    ensures asked { IfOk result (λ found. AreAsked L.tells L.lines L.available L.answers L.faults logs.old logs.new found.items) }
    ensures stopped { IfErr result (IsStopped L.tells L.lines L.available L.answers L.faults 0 logs.old logs.new) }
{
    let mut found = Vec::new(alloc);
    put_lengths(&mut found, logs)?;
    Ok(found)
}
