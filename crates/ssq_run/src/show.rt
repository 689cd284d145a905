//! The table of a query's checkpoint.

ghost use Rattle.std.specs.Prelude.{◌≡◌, ◌≤◌, ◌++◌, List, ℕ, true, false, IfOk, IfErr};
ghost use Rattle.ssq_outside.specs.Files.{IsEmpty};
ghost use Rattle.ssq_outside.specs.History.{files_now};
ghost use Rattle.ssq_open.specs.Looking.{query_of, HasRecordOf};
ghost use Rattle.ssq_run.specs.Shown.{IsRecordFault, ShowEnd};
ghost use Rattle.ssq_run.specs.Stopping.{HasCount, IsPastWords, stop_in};

use crate::faults::stop_of_open;
use crate::stop::Stop;
use ssq_open::own_names;
use ssq_outside::{Disk, Output};
use ssq_shape::Bound;
use ssq_sink::table;
use std::alloc::Global;

/// Whether a file is there, of which the record of the job is checked. The list of names is in memory here alone.
fn is_there<D: Disk>(alloc: Global, disk: &mut D, bound: &Bound) -> Result<bool, Stop>
    ensures found { D.tells → IfOk result (λ there. there ≡ true → HasRecordOf (query_of bound.now) (files_now (D.history disk.old))) }
    ensures none { D.tells → IfOk result (λ there. there ≡ false → IsEmpty (files_now (D.history disk.old))) }
    ensures fault { D.tells → IfErr result (IsRecordFault bound.now (files_now (D.history disk.old))) }
    ensures only { IsPastWords (stop_in result) }
    ensures same { D.tells → D.history disk.new ≡ D.history disk.old }
    ensures counted { D.faults disk.old ≤ D.faults disk.new }
    ensures cause { HasCount 0 0 (D.faults disk.old) (D.faults disk.new) 0 0 (stop_in result) }
{
    match own_names(alloc, disk, bound) {
        Ok(names) => Ok(names.is_some()),
        Err(fault) => Err(stop_of_open(alloc, bound.streams.as_slice(), fault)?),
    }
}

/// Writes the table of a query, of the sink files of its checkpoint, and nothing where no file is there. Nothing on the disk is changed.
///
/// The record of the job is read as it is when a checkpoint is opened, and then each sink file, before the first row is written: so a refusal
/// stands alone, but where the output fails.
pub(crate) fn show<D: Disk, O: Output>(
    alloc: Global,
    disk: &mut D,
    bound: &Bound,
    out: &mut O,
) -> Result<(), Stop>
    ensures ended { D.tells → (shown : List ℕ) × (O.tells → O.content out.new ≡ O.content out.old ++ shown) × ShowEnd bound.now (files_now (D.history disk.old)) shown (stop_in result) }
    ensures only { IsPastWords (stop_in result) }
    ensures same { D.tells → D.history disk.new ≡ D.history disk.old }
    ensures cause { HasCount 0 0 (D.faults disk.old) (D.faults disk.new) (O.faults out.old) (O.faults out.new) (stop_in result) }
    ensures counted { O.faults out.old ≤ O.faults out.new }
{
    if is_there(alloc, disk, bound)? {
        let table = table(alloc, disk, bound)?;
        out.put(table.as_bytes())?;
    }
    Ok(())
}
