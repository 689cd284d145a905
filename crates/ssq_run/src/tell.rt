//! What the program writes at its end, and its status.

ghost use Rattle.std.specs.Prelude.{◌≡◌, ◌≤◌, ◌++◌, ℕ, List, take, string_bytes, IfOk, OnOk, OnErr};
ghost use Rattle.ssq_run.specs.Lines.{stop_line};
ghost use Rattle.ssq_run.specs.Program.{Wrote, IsStatus, HasEnded};
ghost use Rattle.ssq_run.specs.Stopping.{stop_in};

use crate::stop::Stop;
use ssq_outside::{OutError, Output};
use std::alloc::{AllocError, Global};

/// The line that tells a stop.
fn stop_line(alloc: Global, stop: &Stop) -> Result<String, AllocError>
    ensures { IfOk result (λ line. string_bytes line ≡ stop_line stop.now) }
{
    format!(in alloc; "{stop}\n")
}

/// Adds the line of a stop to what was told. After an `Err` the text is as before.
fn add_stop(alloc: Global, told: &mut Vec<u8>, stop: &Stop) -> Result<(), AllocError>
    ensures ok { OnOk result (told.new.items ≡ told.old.items ++ stop_line stop.now) }
    ensures err { OnErr result (told.new.items ≡ told.old.items) }
{
    let line = stop_line(alloc, stop)?;
    told.extend_from_slice(line.as_bytes())
}

/// Writes a line where the output still takes it.
fn say<O: Output>(out: &mut O, line: &[u8])
    ensures wrote { O.tells → ((n : ℕ) × (O.content out.new ≡ O.content out.old ++ take n line.now)) }
    ensures counted { O.faults out.old ≤ O.faults out.new }
{
    let _ = out.put(line);
}

/// The status, and what there is to write: what was told, and the line of the stop, if there is one. Where memory runs out that
/// line is missing, and the status is 10.
fn ended(alloc: Global, mut told: Vec<u8>, end: Result<(), Stop>) -> (u8, Vec<u8>)
    ensures { HasEnded (stop_in end) told.items result.0 result.1.items }
{
    match end {
        Ok(()) => (0, told),
        Err(stop) => match add_stop(alloc, &mut told, &stop) {
            Ok(()) => (stop.status(), told),
            Err(_) => (10, told),
        },
    }
}

/// Writes what was told and how the program ended, and answers its status.
pub(crate) fn tell<O: Output>(
    alloc: Global,
    out: &mut O,
    told: Vec<u8>,
    end: Result<(), Stop>,
) -> u8
    ensures counted { O.faults out.old ≤ O.faults out.new }
    ensures status { IsStatus (stop_in end) (O.faults out.old) (O.faults out.new) result }
    ensures wrote { O.tells → Wrote (stop_in end) told.items (O.content out.old) (O.content out.new) (O.faults out.old) (O.faults out.new) result }
{
    let (status, text) = ended(alloc, told, end);
    match out.put(text.as_slice()) {
        Ok(()) => status,
        Err(OutError::NoMemory) => {
            say(out, b"stopped 10 NoMemory\n");
            10
        }
        Err(OutError::Fault) => {
            if status != 0 {
                return status;
            }
            say(out, b"stopped 8 OutFault\n");
            8
        }
    }
}
