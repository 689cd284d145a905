//! The table: what a reader makes of the sink files.

ghost use Rattle.std.specs.Prelude.{◌≡◌, ◌≤◌, ◌^◌, ◌++◌, ◌∷◌, [], List, max, Some, IfOk, IfErr, OnOk};
ghost use Rattle.ssq_outside.specs.Files.{Files, AreNames};
ghost use Rattle.ssq_outside.specs.History.{files_now};
ghost use Rattle.ssq_outside.specs.declared.name.Name.TheVariants as name;
ghost use Rattle.ssq_meaning.specs.Meaning.{Values};
ghost use Rattle.ssq_sink.specs.Fault.{HasRisen, IfDamaged, IsAbsent, IsBad};
ghost use Rattle.ssq_sink.specs.Passing.{AreColumnsOf, HasText, IsKept, past};
ghost use Rattle.ssq_sink.specs.Table.{reading, AreCounted, IsBadSink, IsFirstBad, IsSinkOf, IsTable};

use crate::columns::Columns;
use crate::fault::SinkFault;
use crate::kept::Kept;
use ssq_outside::{Disk, Name};
use ssq_shape::{Bound, Mode, Shape};
use ssq_value::Text;
use std::alloc::Global;

/// How the table is read of the sink files.
#[derive(Clone, Copy)]
pub enum Reading {
    /// All rows, one file after the other.
    Each,
    /// The last row of each key.
    Latest,
    /// The rows of the last file.
    Last,
}

impl Reading {
    /// How the table of a query is read.
    pub fn of(bound: &Bound) -> Reading
        ensures { result ≡ reading bound.now }
    {
        match (&bound.shape, bound.mode) {
            (Shape::Group(_), Mode::Update) => Reading::Latest,
            (Shape::Group(_), Mode::Complete) => Reading::Last,
            _ => Reading::Each,
        }
    }
}

/// One more than the epoch of a sink file, and 0 of any other file.
fn past(name: Name) -> u64
    ensures is { result ≡ past name }
    ensures few { result ≤ 2 ^ 32 }
{
    match name {
        Name::Out(epoch) => u64::from(epoch) + 1,
        _ => 0,
    }
}

/// The greater of a count and one more than the epoch of a sink file.
fn raised(count: u64, name: Name) -> u64
    ensures is { result ≡ max count (past name) }
    ensures few { count ≤ 2 ^ 32 → result ≤ 2 ^ 32 }
{
    let past = past(name);
    if count < past { past } else { count }
}

/// How many sink files there have to be where the files have these names: all up to the last that is there.
fn count_sinks(names: &[Name]) -> u64
    ensures counted { (files : Files) → AreNames files names.now → AreCounted files result }
    ensures few { result ≤ 2 ^ 32 }
{
    let mut count = 0;
    for name in names {
        count = raised(count, *name);
    }
    count
}

/// The bytes of the sink file of an epoch, whatever they are.
fn sink_bytes<D: Disk>(alloc: Global, disk: &mut D, epoch: u32) -> Result<Vec<u8>, SinkFault>
    ensures found { D.tells → IfOk result (λ bytes. files_now (D.history disk.old) (name.Out epoch) ≡ Some bytes.items) }
    ensures absent { D.tells → IfErr result (IfDamaged (IsAbsent (files_now (D.history disk.old)) epoch)) }
    ensures same { D.tells → D.history disk.new ≡ D.history disk.old }
    ensures counted { D.faults disk.old ≤ D.faults disk.new }
    ensures cause { IfErr result (λ fault. HasRisen fault (D.faults disk.old) (D.faults disk.new)) }
{
    let name = Name::Out(epoch);
    match disk.read(alloc, name)? {
        Some(bytes) => Ok(bytes),
        None => Err(SinkFault::Damaged { name }),
    }
}

/// Takes the rows of the sink file of an epoch.
fn take_sink<D: Disk>(
    alloc: Global,
    disk: &mut D,
    bound: &Bound,
    columns: &Columns,
    kept: &mut Kept,
    epoch: u32,
) -> Result<(), SinkFault>
    requires { AreColumnsOf bound.now columns.now.heads columns.now.kinds.items }
    ensures taken { (epochs : List (List Values)) → IsKept bound.now epochs kept.old → OnOk result ((rows : List Values)
        × IsKept bound.now (epochs ++ rows ∷ []) kept.new × (D.tells → IsSinkOf bound.now (files_now (D.history disk.old)) epoch rows)) }
    ensures bad { D.tells → IfErr result (IfDamaged (IsBad bound.now (files_now (D.history disk.old)) epoch)) }
    ensures same { D.tells → D.history disk.new ≡ D.history disk.old }
    ensures counted { D.faults disk.old ≤ D.faults disk.new }
    ensures cause { IfErr result (λ fault. HasRisen fault (D.faults disk.old) (D.faults disk.new)) }
{
    let bytes = sink_bytes(alloc, disk, epoch)?;
    if kept.take(alloc, bound, columns, bytes.as_slice())? {
        Ok(())
    } else {
        Err(SinkFault::Damaged {
            name: Name::Out(epoch),
        })
    }
}

/// The table of the first sink files.
fn first_files<D: Disk>(
    alloc: Global,
    disk: &mut D,
    bound: &Bound,
    count: u64,
) -> Result<Text, SinkFault>
    requires { count ≤ 2 ^ 32 }
    ensures read { D.tells → IfOk result (HasText bound.now (files_now (D.history disk.old)) count) }
    ensures bad { D.tells → IfErr result (IfDamaged (IsFirstBad bound.now (files_now (D.history disk.old)) count)) }
    ensures same { D.tells → D.history disk.new ≡ D.history disk.old }
    ensures counted { D.faults disk.old ≤ D.faults disk.new }
    ensures cause { IfErr result (λ fault. HasRisen fault (D.faults disk.old) (D.faults disk.new)) }
{
    let columns = Columns::new(alloc, bound.outputs.as_slice())?;
    let mut kept = Kept::new(alloc, bound);
    for epoch in 0..count {
        take_sink(alloc, disk, bound, &columns, &mut kept, epoch as u32)?;
    }
    Ok(kept.into_text(alloc, bound)?)
}

/// How many sink files there have to be. The list of names is in memory here alone.
fn sinks<D: Disk>(alloc: Global, disk: &mut D) -> Result<u64, SinkFault>
    ensures found { D.tells → IfOk result (AreCounted (files_now (D.history disk.old))) }
    ensures few { IfOk result (λ count. count ≤ 2 ^ 32) }
    ensures outside { IfErr result (IfDamaged (λ at. ⊥)) }
    ensures same { D.tells → D.history disk.new ≡ D.history disk.old }
    ensures counted { D.faults disk.old ≤ D.faults disk.new }
    ensures cause { IfErr result (λ fault. HasRisen fault (D.faults disk.old) (D.faults disk.new)) }
{
    let names = disk.names(alloc)?;
    Ok(count_sinks(names.as_slice()))
}

/// The table of a query, and how many sink files it was read of.
#[derive(Drop)]
pub struct Counted {
    pub sinks: u64,
    pub table: Text,
}

/// The table of a query as [`table`] gives it, and how many sink files there are. The names on the disk are listed once.
///
/// # Errors
///
/// As of [`table`].
pub fn counted_table<D: Disk>(
    alloc: Global,
    disk: &mut D,
    bound: &Bound,
) -> Result<Counted, SinkFault>
    ensures sinks { D.tells → IfOk result (λ read. AreCounted (files_now (D.history disk.old)) read.sinks) }
    ensures read { D.tells → IfOk result (λ read. IsTable bound.now (files_now (D.history disk.old)) read.table) }
    ensures bad { D.tells → IfErr result (IfDamaged (IsBadSink bound.now (files_now (D.history disk.old)))) }
    ensures same { D.tells → D.history disk.new ≡ D.history disk.old }
    // A fault of the disk is answered only where it was counted.
    ensures counted { D.faults disk.old ≤ D.faults disk.new }
    ensures cause { IfErr result (λ fault. HasRisen fault (D.faults disk.old) (D.faults disk.new)) }
{
    let sinks = sinks(alloc, disk)?;
    let table = first_files(alloc, disk, bound, sinks)?;
    Ok(Counted { sinks, table })
}

/// The table of a query, of its sink files: all rows, one file after the other; of groups in Update the last row of each key, in the order of a sink
/// file; in Complete the rows of the last file. Nothing on the disk is changed.
///
/// Each file is read once. What is in memory is the table and one file, and of groups in Update the last row of each key.
///
/// # Errors
///
/// [`SinkFault::Damaged`] with the first sink file that is missing below another, or does not have canonical rows of the query.
pub fn table<D: Disk>(alloc: Global, disk: &mut D, bound: &Bound) -> Result<Text, SinkFault>
    ensures read { D.tells → IfOk result (IsTable bound.now (files_now (D.history disk.old))) }
    ensures bad { D.tells → IfErr result (IfDamaged (IsBadSink bound.now (files_now (D.history disk.old)))) }
    ensures same { D.tells → D.history disk.new ≡ D.history disk.old }
    // A fault of the disk is answered only where it was counted.
    ensures counted { D.faults disk.old ≤ D.faults disk.new }
    ensures cause { IfErr result (λ fault. HasRisen fault (D.faults disk.old) (D.faults disk.new)) }
{
    let Counted { sinks: _, table } = counted_table(alloc, disk, bound)?;
    Ok(table)
}
