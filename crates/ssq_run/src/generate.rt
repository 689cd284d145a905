//! A run over generated input, in memory.

ghost use Rattle.std.specs.Prelude.{◌≡◌, ◌≤◌, [], None, Some, List, string_bytes, IfOk, IfErr};
ghost use Rattle.ssq_outside.specs.History.{files_now};
ghost use Rattle.ssq_fakes.specs.Disks.{disk_history};
ghost use Rattle.ssq_meaning.specs.Meaning.{Values};
ghost use Rattle.ssq_sink.specs.Fault.{IfDamaged};
ghost use Rattle.ssq_sink.specs.Table.{AreSinks, IsBadSink};
ghost use Rattle.ssq_terms.specs.Setting.{CanRun};
ghost use Rattle.ssq_run.specs.Generated.{AreTold, GenEnd, in_memory};
ghost use Rattle.ssq_run.specs.Queries.{IsSomeQuery};

use crate::done::{Done, named};
use crate::stop::Stop;
use ssq_bind::{queries_are_typed, queries_read_their_streams};
use ssq_fakes::{MemDisk, MemInputs, MemOut};
use ssq_gen::{CountsFault, counts_line, made};
use ssq_outside::Gate;
use ssq_runner::{Ask, run_query, runs_go_on};
use ssq_shape::Bound;
use ssq_sink::{SinkFault, counted_table};
use ssq_tables::checkpoints_hold_tables;
use std::alloc::Global;

/// The partitions of such a run, the most lines of a part in an epoch, and one round.
const ASK: Ask = Ask {
    partitions: Some(4),
    cap: Some(1000),
    rounds: 1,
};

/// Tells the table of a checkpoint in memory as counts.
fn counted(alloc: Global, bound: &Bound, disk: MemDisk, lines: u32) -> Result<String, SinkFault>
    ensures told { IfOk result (λ line. (epochs : List (List Values)) × AreSinks bound.now (files_now (disk_history disk)) epochs × AreTold bound.now lines epochs (string_bytes line)) }
    ensures bad { IfErr result (IfDamaged (IsBadSink bound.now (files_now (disk_history disk)))) }
{
    let mut disk = disk;
    let read = counted_table(alloc, &mut disk, bound)?;
    drop(disk);
    match counts_line(
        alloc,
        lines,
        read.sinks,
        bound.outputs.as_slice(),
        read.table.as_bytes(),
    ) {
        Ok(line) => Ok(line),
        Err(CountsFault::NotRows) => unreachable!(),
        Err(CountsFault::NoMemory) => Err(SinkFault::NoMemory),
    }
}

/// Why a run in memory stopped: what fails there fails because memory ran out.
fn in_memory(stop: Stop) -> Stop
    ensures { result ≡ in_memory stop }
{
    match stop {
        Stop::LogFault => Stop::NoMemory,
        Stop::DiskFault => Stop::NoMemory,
        Stop::OutFault => Stop::NoMemory,
        _ => stop,
    }
}

/// Runs the generated query over generated lines, with a disk of its own, and gives the line that tells how many lines, epochs and rows there were,
/// and the sums of the rows' counts and totals.
pub(crate) fn generate<G: Gate>(
    alloc: Global,
    gate: &G,
    bound: &Bound,
    number: u32,
    lines: u32,
) -> Result<String, Stop>
    requires number { number ≤ 65536 }
    requires lines { (1 ≤ lines) × (lines ≤ 10000000) }
    requires can { CanRun bound.now }
    requires known { IsSomeQuery bound.now }
    ensures told { IfOk result (λ line. GenEnd bound.now number lines (string_bytes line) None) }
    ensures stop { IfErr result (λ stop. GenEnd bound.now number lines [] (Some stop)) }
{
    runs_go_on::<MemDisk, MemInputs, MemOut>();
    queries_are_typed();
    queries_read_their_streams();
    checkpoints_hold_tables();
    let mut inputs = made(alloc, number, lines)?;
    let mut out = MemOut::new(alloc);
    let ran = run_query(
        alloc,
        gate,
        bound,
        MemDisk::new(alloc),
        &mut inputs,
        &mut out,
        ASK,
    );
    drop(inputs);
    drop(out);
    let Done { disk, text: _, end } = named(alloc, bound, ran);
    match end {
        Ok(()) => match counted(alloc, bound, disk, lines) {
            Ok(line) => Ok(line),
            Err(fault) => Err(in_memory(Stop::from(fault))),
        },
        Err(stop) => Err(in_memory(stop)),
    }
}
