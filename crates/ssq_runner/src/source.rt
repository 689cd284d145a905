//! A run over the parts of its streams, with the loop over its rounds.

ghost use Rattle.std.specs.Prelude.{◌≡◌, ◌≤◌, ◌-◌, ◌^◌, ℕ, List, [], length, map, min, sum, All, Err, IfOk, IfErr, OnOk, OnErr};
ghost use Rattle.std.specs.Option.{ForSome};
ghost use Rattle.ssq_outside.specs.History.{LeavesNow, LeavesOnly};
ghost use Rattle.ssq_core.specs.Standing.{Stands};
ghost use Rattle.ssq_core.specs.Sound.{StandsOrEmpty};
ghost use Rattle.ssq_course.specs.Setting.{Setting as SettingOf, job_of};
ghost use Rattle.ssq_board.specs.Rounds.{HasCap};
ghost use Rattle.ssq_terms.specs.Setting.{CanRun};
ghost use Rattle.ssq_logs.specs.declared.fault.LengthFault.{LengthFault as LengthFaultOf};
ghost use Rattle.ssq_logs.specs.Parts.{counts_in, lines_in};
ghost use Rattle.ssq_logs.specs.Opened.{parts_of, AreLogsOf};
ghost use Rattle.ssq_runner.specs.declared.fault.RunFault.TheVariants as fault;
ghost use Rattle.ssq_runner.specs.Sources.{CameUnasked, HasCount, IsSettingFor, IsUnparted, RunOver};

use crate::ask::Ask;
use crate::fault::RunFault;
use crate::rounds::{Left, Ready, next_round};
use crate::run::begin;
use ssq_drive::run_round;
use ssq_logs::{count_parts, give_back, open_logs, room};
use ssq_outside::{Disk, Gate, Inputs, Output};
use ssq_shape::{Bound, Stream};
use ssq_value::Sequence;
use std::alloc::Global;

/// What a run leaves: the disk, what is left to be written before it is said why it ended, how many parts each stream has, where that was
/// counted, and why it ended.
#[derive(Drop)]
pub struct Ran<D: Disk> {
    pub disk: D,
    pub text: Vec<u8>,
    pub counts: Sequence<u32>,
    pub end: Result<(), RunFault>,
}

/// How many parts each stream has, and their logs, in order. Where one cannot be had, those that were opened are given back.
fn open_parts<I: Inputs>(
    alloc: Global,
    inputs: &mut I,
    streams: &[Stream],
) -> Result<(Sequence<u32>, Vec<I::Log>), RunFault>
    ensures few { IfOk result (λ opened. All (λ count. count ≤ 64) opened.0) }
    ensures each { IfOk result (λ opened. length opened.0 ≡ length streams.now) }
    ensures log_each { IfOk result (λ opened. length opened.1.items ≡ sum opened.0) }
    ensures counts { I.tells → IfOk result (λ opened. opened.0 ≡ counts_in (I.held inputs.old) streams.now) }
    ensures logs { IfOk result (λ opened. AreLogsOf I.tells I.Log.lines I.Log.available I.Log.answers I.Log.faults (I.held inputs.old) (I.available inputs.old) (parts_of streams.now opened.0) opened.1.items) }
    ensures lines { I.tells → IfOk result (λ opened. map I.Log.lines opened.1.items ≡ lines_in (I.held inputs.old) streams.now) }
    ensures unparted { IfErr result (IsUnparted I.tells (I.held inputs.old) streams.now) }
    ensures held { I.tells → I.held inputs.new ≡ I.held inputs.old }
    ensures grown { I.tells → (stream : List ℕ) (part : ℕ) → I.available inputs.old stream part ≤ I.available inputs.new stream part }
    ensures unasked { I.tells → OnErr result (CameUnasked (I.returned inputs.old) (I.returned inputs.new)) }
    ensures unreturned { I.tells → OnOk result (I.returned inputs.new ≡ I.returned inputs.old) }
    ensures counted { min (I.faults inputs.old) (2 ^ 64 - 1) ≤ I.faults inputs.new }
    ensures same_count { OnOk result (I.faults inputs.old ≤ I.faults inputs.new) }
    ensures cause { IfErr result (λ why. HasCount 0 0 (I.faults inputs.old) (I.faults inputs.new) 0 0 (Err why)) }
{
    let counts = count_parts(alloc, inputs, streams)?;
    let mut logs = room(alloc, counts.as_slice())?;
    match open_logs(alloc, inputs, streams, counts.as_slice(), &mut logs) {
        Ok(()) => Ok((counts, logs)),
        Err(fault) => {
            give_back(inputs, logs);
            Err(RunFault::Parts(fault))
        }
    }
}

/// Runs a query over the parts of its streams: they are counted and their logs opened, the lines are counted, the checkpoint is opened, and
/// `ask.rounds` rounds are run, each of which asks the logs anew. The lines of each round's epochs are written when it is over.
///
/// What is left to be written comes back: how many epochs there are, where all rounds are over; or the lines of the epochs of a round that
/// stopped. The logs are given back whatever the end.
pub fn run_query<D: Disk, I: Inputs, O: Output, G: Gate>(
    alloc: Global,
    gate: &G,
    bound: &Bound,
    disk: D,
    inputs: &mut I,
    out: &mut O,
    ask: Ask,
) -> Ran<D>
    requires partitions { ForSome ask.partitions (λ count. (1 ≤ count) × (count ≤ 64)) }
    requires few_streams { length bound.now.streams ≤ 2 }
    requires runs { CanRun bound.now }
    requires cap { HasCap ask.cap }
    requires rounds { 1 ≤ ask.rounds }
    // How it goes, in the order of its work: what it leaves, what is written, and why it ends.
    ensures end { RunOver I.tells (D.tells × I.Log.tells) I.Log.lines I.Log.available I.Log.answers I.Log.faults (I.held inputs.old) (I.available inputs.old) bound.now ask (D.history disk) (D.history result.disk) (D.faults disk) (D.faults result.disk)
        (I.returned inputs.old) (I.returned inputs.new) O.tells (O.content out.old) (O.content out.new) result.text.items result.end }
    // Where each image stands for the query over what the inputs hold, or stands empty, so does each image of each moment.
    ensures stands { D.tells → I.tells → (s : SettingOf) → IsSettingFor (I.held inputs.old) bound.now ask.partitions (D.history disk) s → LeavesNow (D.history disk) (StandsOrEmpty (job_of s)) → LeavesOnly (D.history disk) (D.history result.disk) (StandsOrEmpty (job_of s)) }
    // And where each image stands, so does each of each moment: none is empty.
    ensures stay { D.tells → I.tells → (s : SettingOf) → IsSettingFor (I.held inputs.old) bound.now ask.partitions (D.history disk) s → LeavesNow (D.history disk) (Stands (job_of s)) → LeavesOnly (D.history disk) (D.history result.disk) (Stands (job_of s)) }
    ensures held { I.tells → I.held inputs.new ≡ I.held inputs.old }
    // No line that was known to be there went away.
    ensures grown { I.tells → (stream : List ℕ) (part : ℕ) → I.available inputs.old stream part ≤ I.available inputs.new stream part }
    // Where the lines of a log were not counted, the parts were.
    ensures counts { I.tells → (why : LengthFaultOf) → result.end ≡ Err (fault.Lines why) → result.counts ≡ counts_in (I.held inputs.old) bound.now.streams }
    // A fault of the outside is told only where it was counted.
    ensures cause { HasCount (D.faults disk) (D.faults result.disk) (I.faults inputs.old) (I.faults inputs.new) (O.faults out.old) (O.faults out.new) result.end }
    ensures counted { O.faults out.old ≤ O.faults out.new }
{
    let mut text = Vec::new(alloc);
    let (counts, logs) = match open_parts(alloc, inputs, bound.streams.as_slice()) {
        Ok(opened) => opened,
        Err(fault) => {
            return Ran {
                disk,
                text,
                counts: Sequence::new(alloc),
                end: Err(fault),
            };
        }
    };
    let mut run = begin::<D, I::Log, O>(alloc, bound, ask, disk, logs, counts.as_slice());
    let mut done = 0;
    loop {
        match run {
            Ok(ready) => {
                let Ready {
                    disk,
                    logs,
                    opened,
                    closings,
                    found,
                } = ready;
                let went = run_round(
                    alloc, gate, bound, disk, logs, opened, closings, found, ask.cap,
                );
                done += 1;
                run = next_round(alloc, out, &mut text, went, done < ask.rounds);
            }
            Err(left) => {
                let Left { disk, logs, end } = left;
                give_back(inputs, logs);
                return Ran {
                    disk,
                    text,
                    counts,
                    end,
                };
            }
        }
    }
}
