//! What is told of a query: its table, what it is, how far its checkpoint has come, or what comes of generated lines.

ghost use Rattle.std.specs.Prelude.{◌≡◌, ◌≤◌, ◌++◌, List, ℕ, [], length, IfOk, IfErr};
ghost use Rattle.ssq_outside.specs.History.{files_now};
ghost use Rattle.ssq_bind.specs.Explained.{explained};
ghost use Rattle.ssq_terms.specs.Setting.{CanRun};
ghost use Rattle.ssq_words.specs.Asking.{Asked};
ghost use Rattle.ssq_run.specs.declared.stop.Stop.TheVariants.{NoMemory};
ghost use Rattle.ssq_run.specs.Generated.{GenEnd};
ghost use Rattle.ssq_run.specs.Looked.{LookEnd};
ghost use Rattle.ssq_run.specs.Prepared.{CanLook, IsLook};
ghost use Rattle.ssq_run.specs.Queries.{IsSomeQuery};
ghost use Rattle.ssq_run.specs.Shown.{ShowEnd};
ghost use Rattle.ssq_run.specs.Program.{HasTold, went_of};
ghost use Rattle.ssq_run.specs.Stopping.{HasCount, IsPastWords, stop_in};

use crate::done::{Done, stopped};
use crate::generate::generate;
use crate::prepare::Look;
use crate::show::show;
use crate::status::status;
use crate::stop::Stop;
use ssq_bind::explain;
use ssq_outside::{Disk, Gate, Output};
use ssq_shape::Bound;
use std::alloc::{AllocError, Global};

/// Tells what a query is.
fn explained<D: Disk>(alloc: Global, bound: &Bound, disk: D) -> Done<D>
    ensures same { result.disk ≡ disk }
    ensures told { IfOk result.end (λ done. result.text.items ≡ explained bound.now) }
    ensures starved { IfErr result.end (λ stop. (stop ≡ NoMemory) × (result.text.items ≡ [])) }
{
    match explain(alloc, bound) {
        Ok(text) => Done {
            disk,
            text: text.into_bytes(),
            end: Ok(()),
        },
        Err(AllocError) => stopped(alloc, disk, Stop::NoMemory),
    }
}

/// Tells how far the checkpoint of a query has come.
fn looked<D: Disk>(alloc: Global, bound: &Bound, disk: D) -> Done<D>
    requires few { length bound.now.streams ≤ 2 }
    ensures same { D.tells → D.history result.disk ≡ D.history disk }
    ensures looked { D.tells → LookEnd bound.now (files_now (D.history disk)) result.text.items (stop_in result.end) }
    ensures only { IsPastWords (stop_in result.end) }
    ensures cause { HasCount 0 0 (D.faults disk) (D.faults result.disk) 0 0 (stop_in result.end) }
{
    let mut disk = disk;
    match status(alloc, &mut disk, bound) {
        Ok(text) => Done {
            disk,
            text,
            end: Ok(()),
        },
        Err(stop) => stopped(alloc, disk, stop),
    }
}

/// Shows the table of a query's checkpoint.
fn shown<D: Disk, O: Output>(alloc: Global, bound: &Bound, disk: D, out: &mut O) -> Done<D>
    ensures same { D.tells → D.history result.disk ≡ D.history disk }
    ensures text { result.text.items ≡ [] }
    ensures shown { D.tells → (shown : List ℕ) × (O.tells → O.content out.new ≡ O.content out.old ++ shown) × ShowEnd bound.now (files_now (D.history disk)) shown (stop_in result.end) }
    ensures only { IsPastWords (stop_in result.end) }
    ensures cause { HasCount 0 0 (D.faults disk) (D.faults result.disk) (O.faults out.old) (O.faults out.new) (stop_in result.end) }
    ensures counted { O.faults out.old ≤ O.faults out.new }
{
    let mut disk = disk;
    let end = show(alloc, &mut disk, bound, out);
    Done {
        disk,
        text: Vec::new(alloc),
        end,
    }
}

/// Runs generated input in memory, and tells what came of it. The disk is as it was.
fn generated<D: Disk, G: Gate>(
    alloc: Global,
    gate: &G,
    bound: &Bound,
    number: u32,
    lines: u32,
    disk: D,
) -> Done<D>
    requires number { number ≤ 65536 }
    requires lines { (1 ≤ lines) × (lines ≤ 10000000) }
    requires can { CanRun bound.now }
    requires known { IsSomeQuery bound.now }
    ensures same { result.disk ≡ disk }
    ensures ended { GenEnd bound.now number lines result.text.items (stop_in result.end) }
    ensures only { IsPastWords (stop_in result.end) }
    ensures cause { HasCount 0 0 0 0 0 0 (stop_in result.end) }
{
    match generate(alloc, gate, bound, number, lines) {
        Ok(line) => Done {
            disk,
            text: line.into_bytes(),
            end: Ok(()),
        },
        Err(stop) => stopped(alloc, disk, stop),
    }
}

/// Tells of a query what is asked. Nothing on the disk is changed.
pub(crate) fn look_at<D: Disk, O: Output, G: Gate>(
    alloc: Global,
    gate: &G,
    bound: &Bound,
    look: Look,
    disk: D,
    out: &mut O,
) -> Done<D>
    requires can { CanRun bound.now }
    requires known { IsSomeQuery bound.now }
    requires can_look { CanLook look }
    // (whatever logs came back before)
    ensures told { D.tells → (returned : List (List ℕ)) (what : Asked) → IsLook look what → HasTold bound.now O.tells
        (went_of (D.history disk) (D.history result.disk) (D.faults disk) (D.faults result.disk) returned returned (O.content out.old) (O.content out.new) result.text.items) (stop_in result.end) what }
    ensures same { D.tells → D.history result.disk ≡ D.history disk }
    ensures only { IsPastWords (stop_in result.end) }
    ensures cause { HasCount 0 0 (D.faults disk) (D.faults result.disk) (O.faults out.old) (O.faults out.new) (stop_in result.end) }
    ensures counted { O.faults out.old ≤ O.faults out.new }
{
    match look {
        Look::Table => shown(alloc, bound, disk, out),
        Look::Query => explained(alloc, bound, disk),
        Look::Checkpoint => looked(alloc, bound, disk),
        Look::Generated { number, lines } => generated(alloc, gate, bound, number, lines, disk),
    }
}
