//! The top call.

ghost use Rattle.std.specs.Prelude.{◌≡◌, ◌≢◌, ◌<◌, ◌≤◌, ◌⊎◌, ℕ, true, List, None, All, map, string_bytes};
ghost use Rattle.std.specs.List.Sorted.{IsPermutation};
ghost use Rattle.ssq_shape.specs.declared.bound.Grouping.{Grouping as GroupingOf};
ghost use Rattle.ssq_shape.specs.declared.bound.Joining.{Joining as JoiningOf};
ghost use Rattle.ssq_shape.specs.declared.bound.Mode.TheVariants as mode;
ghost use Rattle.ssq_shape.specs.declared.bound.Shape.TheVariants as shape;
ghost use Rattle.ssq_meaning.specs.Cut.{Cuts as OffsetsOf, AreCuts};
ghost use Rattle.ssq_meaning.specs.DedupLaws.{IsKnownAt, meaning_at as first_rows_at};
ghost use Rattle.ssq_meaning.specs.Epochs.{accepted, key_fault, on_time, watermark, watermark_before};
ghost use Rattle.ssq_meaning.specs.Group.{has_key, is_closed};
ghost use Rattle.ssq_meaning.specs.GroupLaws.{IsWholeAt, meaning_at, times_considered};
ghost use Rattle.ssq_meaning.specs.JoinLaws.{FindsAll, alone_at, alone_so_far, meaning_at as joined_rows_at};
ghost use Rattle.ssq_meaning.specs.Laws.{outs, batch};
ghost use Rattle.ssq_meaning.specs.Meaning.{Values as ValuesOf};
ghost use Rattle.ssq_meaning.specs.Table.{table};
ghost use Rattle.ssq_meaning.specs.Times.{AtMost};
ghost use Rattle.ssq_outside.specs.Faults.{Rises};
ghost use Rattle.ssq_outside.specs.Files.{Files as FilesOf};
ghost use Rattle.ssq_outside.specs.History.{LeavesNow, LeavesOnly, files_now};
ghost use Rattle.ssq_core.specs.Course.{Cuts as CutsOf};
ghost use Rattle.ssq_core.specs.Sound.{StandsOrEmpty};
ghost use Rattle.ssq_core.specs.Standing.{Stands, StandsAt};
ghost use Rattle.ssq_course.specs.Growing.{HasGrown};
ghost use Rattle.ssq_course.specs.Setting.{Setting as SettingOf, parts_in, course_of, job_of};
ghost use Rattle.ssq_words.specs.Asking.{asked};
ghost use Rattle.ssq_run.specs.Going.{IsAskedFor, CanGoOn, HasRoom, IsFaultless, CanLook, CanShow, NoneFailed, IsDone, IsDoneToAFault};
ghost use Rattle.ssq_run.specs.Program.{ProgramWrote};
ghost use Rattle.ssq_run.specs.Queries.{IsSomeQuery};
ghost use Rattle.ssq_run.specs.Shown.{HasWrittenTable};

use crate::done::{Done, named, stopped};
use crate::look::look_at;
use crate::prepare::{Todo, prepare};
use crate::tell::tell;
use ssq_accept::files_have_one_answer;
use ssq_bind::{queries_are_typed, queries_read_their_streams};
use ssq_course::checkpoints_stand_as_logs_grow;
use ssq_meaning::{
    first_rows_add_up, forgotten_groups_lose_no_row, forgotten_keys_lose_no_row,
    forgotten_rows_lose_no_partner, greatest_times_are_of_all_lines, groups_in_append_add_up,
    groups_in_complete_are_shown_whole, groups_in_update_replace_their_rows, joined_rows_add_up,
    rows_add_up, rows_alone_are_considered_once, watermarks_never_fall,
};
use ssq_outside::{Disk, Gate, Inputs, Output};
use ssq_runner::{run_query, runs_go_on};
use ssq_tables::{checkpoints_hold_tables, tables_agree};
use ssq_terms::job_is_wanted;
use std::alloc::Global;
use std::sync::Wait;
use std::thread::Threads;

/// What is left of the outside when the program has ended, and its status.
#[derive(Drop)]
pub struct Ended<D: Disk, I: Inputs, O: Output> {
    /// 0 where the job was done to its end, else the status of the refusal.
    pub status: u8,
    pub disk: D,
    pub inputs: I,
    pub out: O,
}

/// Does all that the program does: what the words ask for, on this disk and these inputs, with what there is to say on this
/// output. `words` begin with the program's name. The outside comes back with the program's status.
///
/// `run QUERY [--partitions P] [--max-lines N] [--rounds R]` runs the query of the file QUERY over the parts of its streams, in R rounds, and in
/// epochs of at most N lines of each part, over a checkpoint that is empty or of this query. As a round ends it writes one line for each of its
/// epochs, and at the end how many epochs there are. `show QUERY` writes the table that the checkpoint's sink files make. `explain QUERY` tells
/// what the query is. `status QUERY` says how far the checkpoint has come. `gen NUMBER LINES` runs a query
/// over generated lines, in memory alone, and tells counts of its rows. These change nothing.
///
/// A refusal is one line, and its number is the status: 2, the words are none of these; 3, the file is no query that can be run; 4
/// and 5, the first line of the planned epoch that is bad or overflows, or where none is the least key that overflows; 6, 7 and 8, the inputs, the disk or the output failed; 9, the
/// checkpoint is not of this query, these partitions and these parts, is damaged, or a log has lost lines; 10, memory ran out; 11, a limit is
/// met.
pub fn stream_main<R: Threads + Wait + Sync, D: Disk, I: Inputs, O: Output, G: Gate>(
    _rt: &R,
    alloc: Global,
    words: &[String],
    disk: D,
    inputs: I,
    out: O,
    gate: &G,
) -> Ended<D, I, O>
    // Whenever a crash comes: where each image of the disk stood for the query that is to be run, or stood empty, so does each image of each
    // moment.
    ensures stands { D.tells → I.tells → (s : SettingOf) → IsAskedFor (record { words = map string_bytes words.now; held = I.held inputs; known = I.available inputs }) (D.history disk) s →
        LeavesNow (D.history disk) (StandsOrEmpty (job_of s)) → LeavesOnly (D.history disk) (D.history result.disk) (StandsOrEmpty (job_of s)) }
    // And where each stood, so does each: none is empty.
    ensures stay { D.tells → I.tells → (s : SettingOf) → IsAskedFor (record { words = map string_bytes words.now; held = I.held inputs; known = I.available inputs }) (D.history disk) s →
        LeavesNow (D.history disk) (Stands (job_of s)) → LeavesOnly (D.history disk) (D.history result.disk) (Stands (job_of s)) }
    // Logs may grow between two runs. Where files stand for a query over its logs, or there are none, so it is for that query over the same logs with
    // more lines after: what one run left stands for the next, whatever line the one took for a log's last.
    ensures stands_as_logs_grow { (s longer : SettingOf) (files : FilesOf) → HasGrown s longer → StandsOrEmpty (job_of s) files → StandsOrEmpty (job_of longer) files }
    // And where they stand for the one, so they do for the other: there are some.
    ensures stays_as_logs_grow { (s longer : SettingOf) (files : FilesOf) → HasGrown s longer → Stands (job_of s) files → Stands (job_of longer) files }

    // What the epochs of a query that keeps nothing show, one after the other, are the rows of the batch query on all lines that they cover,
    // each as often, however these were cut.
    ensures adds_up { (s : SettingOf) (cuts : OffsetsOf) (n : ℕ) → s.job.bound.shape ≡ shape.Plain → AreCuts (parts_in s) cuts n →
        IsPermutation (outs s.job.bound (parts_in s) cuts n) (batch s.job.bound (parts_in s) (cuts n)) }

    // What a query that groups its rows means after so many epochs is the batch query over all rows of these that were not late: in Append on the
    // groups that are closed by then. In Append that is what the epochs show, one after the other, each row as often, and each such group was
    // considered by exactly one of them; in Complete it is what the last one shows.
    ensures groups_add_up { (s : SettingOf) (grouping : GroupingOf) (cuts : OffsetsOf) (n : ℕ) → s.job.bound.shape ≡ shape.Group grouping → s.job.bound.mode ≡ mode.Append →
        IsPermutation (outs s.job.bound (parts_in s) cuts n) (meaning_at s.job.bound grouping (parts_in s) cuts n) }
    ensures groups_come_once { (s : SettingOf) (grouping : GroupingOf) (cuts : OffsetsOf) (n : ℕ) (key : ValuesOf) → s.job.bound.shape ≡ shape.Group grouping → s.job.bound.mode ≡ mode.Append →
        has_key (accepted s.job.bound (parts_in s) cuts n) key ≡ true → is_closed s.job.bound grouping (watermark_before s.job.bound (parts_in s) cuts n) key ≡ true →
        times_considered s.job.bound grouping (parts_in s) cuts key n ≡ 1 }
    ensures groups_are_whole { (s : SettingOf) (grouping : GroupingOf) (cuts : OffsetsOf) (n : ℕ) → s.job.bound.shape ≡ shape.Group grouping → s.job.bound.mode ≡ mode.Complete →
        IsPermutation (table s.job.bound (parts_in s) cuts n) (meaning_at s.job.bound grouping (parts_in s) cuts n) }
    // And in Update it is the last row of each key, for each query that a file can be, where no key overflows.
    ensures groups_are_replaced { (s : SettingOf) (grouping : GroupingOf) (cuts : OffsetsOf) (n : ℕ) → IsSomeQuery s.job.bound →
        s.job.bound.shape ≡ shape.Group grouping → s.job.bound.mode ≡ mode.Update → ((e : ℕ) → e < n → key_fault s.job.bound (parts_in s) cuts e ≡ None) →
        IsPermutation (table s.job.bound (parts_in s) cuts n) (meaning_at s.job.bound grouping (parts_in s) cuts n) }
    // What a query that deduplicates its rows shows over so many epochs, one after the other, is the first row of each key among all rows of these
    // that were not late, in their order. No such row comes after its key was forgotten: the key is kept exactly where a row before has it.
    ensures first_rows_add_up { (s : SettingOf) (columns : List ℕ) (cuts : OffsetsOf) (n : ℕ) → s.job.bound.shape ≡ shape.Dedup columns →
        outs s.job.bound (parts_in s) cuts n ≡ first_rows_at s.job.bound (parts_in s) cuts n }
    ensures repeats_are_known { (s : SettingOf) (columns : List ℕ) (cuts : OffsetsOf) (e : ℕ) → s.job.bound.shape ≡ shape.Dedup columns →
        All (λ row. IsKnownAt s.job.bound columns (parts_in s) cuts e row.key) (on_time s.job.bound (parts_in s) cuts e) }
    // What a query that a file can be, where it joins two streams, shows over so many epochs, one after the other, is what it means on all rows of
    // these that were not late, at the last watermark, each row as often: the pairs, and the rows without a partner whose last partner would be late.
    // Each row without a partner that is over by then was considered by one of these epochs, and by no other.
    // No such row comes after a row was forgotten that meets the key equalities and the bound with it: what is kept has each such row that came before.
    ensures joined_rows_add_up { (s : SettingOf) (joining : JoiningOf) (cuts : OffsetsOf) (n : ℕ) → IsSomeQuery s.job.bound → s.job.bound.shape ≡ shape.Join joining →
        IsPermutation (outs s.job.bound (parts_in s) cuts n) (joined_rows_at s.job.bound joining (parts_in s) cuts n) }
    ensures rows_alone_come_once { (s : SettingOf) (joining : JoiningOf) (cuts : OffsetsOf) (n : ℕ) → IsSomeQuery s.job.bound → s.job.bound.shape ≡ shape.Join joining →
        IsPermutation (alone_so_far s.job.bound joining (parts_in s) cuts n) (alone_at s.job.bound joining (parts_in s) cuts n) }
    ensures partners_are_kept { (s : SettingOf) (joining : JoiningOf) (cuts : OffsetsOf) (e : ℕ) → s.job.bound.shape ≡ shape.Join joining →
        All (FindsAll s.job.bound joining (parts_in s) cuts e) (on_time s.job.bound (parts_in s) cuts e) }
    // No row that is not late comes after its group was forgotten: what is kept of the group has each of its rows.
    ensures groups_lose_no_row { (s : SettingOf) (grouping : GroupingOf) (cuts : OffsetsOf) (e : ℕ) → s.job.bound.shape ≡ shape.Group grouping →
        All (λ row. IsWholeAt s.job.bound grouping (parts_in s) cuts e row.key) (on_time s.job.bound (parts_in s) cuts e) }
    // Watermarks never fall, and that of an epoch depends on the lines that the epochs before it cover, however these were cut.
    ensures watermarks_rise { (s : SettingOf) (cuts : OffsetsOf) (e f : ℕ) → e ≤ f → AtMost (watermark s.job.bound (parts_in s) cuts e) (watermark s.job.bound (parts_in s) cuts f) }
    ensures watermarks_are_of_lines { (s : SettingOf) (one other : OffsetsOf) (e f : ℕ) → AreCuts (parts_in s) one e → AreCuts (parts_in s) other f → one e ≡ other f →
        watermark s.job.bound (parts_in s) one e ≡ watermark s.job.bound (parts_in s) other f }

    // How it ends, in the order of its work: what is left on the disk, which logs came back, what was written, and why.
    ensures ending { D.tells → I.tells → ProgramWrote I.tells (D.tells × I.Log.tells) I.Log.lines I.Log.available I.Log.answers I.Log.faults
        (record { words = map string_bytes words.now; held = I.held inputs; known = I.available inputs })
        (D.history disk) (D.history result.disk) (D.faults disk) (D.faults result.disk) (I.returned inputs) (I.returned result.inputs) O.tells (O.content out) (O.content result.out) (O.faults out) (O.faults result.out) result.status }
    // The inputs hold what they held, and lines that were known to be there are known still.
    ensures held { I.tells → I.held result.inputs ≡ I.held inputs }
    ensures grown { I.tells → (stream : List ℕ) (part : ℕ) → I.available inputs stream part ≤ I.available result.inputs stream part }

    // A checkpoint that stands for the query that is to be run, and whose logs have lost no line, is never refused as another's or as damaged.
    ensures goes_on { D.tells → I.tells → CanGoOn
        (record { words = map string_bytes words.now; held = I.held inputs; known = I.available inputs }) (D.history disk) → result.status ≢ 9 }

    // And these are all the ways to end. Where the outside did not fail, it is done to its end, or memory ran out: for a run that can go
    // on with no limit in its way, unless a line or a key is a fault; and for a look at a checkpoint that stands or is empty.
    ensures is_done_to_a_fault { D.tells → I.tells → HasRoom
        (record { words = map string_bytes words.now; held = I.held inputs; known = I.available inputs }) (D.history disk) →
        NoneFailed (I.faults inputs) (I.faults result.inputs) (D.faults disk) (D.faults result.disk) (O.faults out) (O.faults result.out) →
        IsDoneToAFault result.status }
    ensures is_done { D.tells → I.tells → IsFaultless
        (record { words = map string_bytes words.now; held = I.held inputs; known = I.available inputs }) (D.history disk) →
        NoneFailed (I.faults inputs) (I.faults result.inputs) (D.faults disk) (D.faults result.disk) (O.faults out) (O.faults result.out) →
        IsDone result.status }
    ensures is_told { D.tells → I.tells → CanLook
        (record { words = map string_bytes words.now; held = I.held inputs; known = I.available inputs }) (D.history disk) →
        NoneFailed (I.faults inputs) (I.faults result.inputs) (D.faults disk) (D.faults result.disk) (O.faults out) (O.faults result.out) →
        IsDone result.status }
    // So it is for the table of such a checkpoint: no sink file is ever refused.
    ensures is_shown { D.tells → I.tells → CanShow
        (record { words = map string_bytes words.now; held = I.held inputs; known = I.available inputs }) (D.history disk) →
        NoneFailed (I.faults inputs) (I.faults result.inputs) (D.faults disk) (D.faults result.disk) (O.faults out) (O.faults result.out) →
        IsDone result.status }
    // And where it is done to its end, what it writes is the table of the query's meaning, for whatever cuts the checkpoint stands: its rows, each as
    // often, after as many epochs as have a sink file.
    ensures shows_table { D.tells → I.tells → O.tells → (can : CanShow
        (record { words = map string_bytes words.now; held = I.held inputs; known = I.available inputs }) (D.history disk)) → (cuts : CutsOf) (planned committed : ℕ) →
        StandsAt (course_of can.setting cuts) planned committed (files_now (D.history disk)) → result.status ≡ 0 →
        HasWrittenTable can.setting cuts planned committed (files_now (D.history disk)) (O.content out) (O.content result.out) }

    // The words are refused exactly where they are no command, unless memory runs out.
    ensures usage { result.status ≡ 2 → asked (map string_bytes words.now) ≡ None }
    ensures no_command { asked (map string_bytes words.now) ≡ None → (result.status ≡ 2) ⊎ (result.status ≡ 10) }

    // A fault of the outside is answered only where it was counted.
    ensures inputs_fault { result.status ≡ 6 → Rises (I.faults inputs) (I.faults result.inputs) }
    ensures disk_fault { result.status ≡ 7 → Rises (D.faults disk) (D.faults result.disk) }
    ensures out_fault { result.status ≡ 8 → Rises (O.faults out) (O.faults result.out) }
{
    runs_go_on::<D, I, O>();
    checkpoints_stand_as_logs_grow();
    rows_add_up();
    groups_in_append_add_up();
    groups_in_complete_are_shown_whole();
    groups_in_update_replace_their_rows();
    forgotten_groups_lose_no_row();
    first_rows_add_up();
    forgotten_keys_lose_no_row();
    joined_rows_add_up();
    rows_alone_are_considered_once();
    forgotten_rows_lose_no_partner();
    watermarks_never_fall();
    greatest_times_are_of_all_lines();
    files_have_one_answer();
    job_is_wanted();
    queries_are_typed();
    queries_read_their_streams();
    checkpoints_hold_tables();
    tables_agree();
    let mut inputs = inputs;
    let mut out = out;
    let Done { disk, text, end } = match prepare(alloc, words, &mut inputs) {
        Ok(Todo::Run { bound, ask }) => {
            let ran = run_query(alloc, gate, &bound, disk, &mut inputs, &mut out, ask);
            let done = named(alloc, &bound, ran);
            drop(bound);
            done
        }
        Ok(Todo::Look { bound, look }) => {
            let done = look_at(alloc, gate, &bound, look, disk, &mut out);
            drop(bound);
            done
        }
        Err(stop) => stopped(alloc, disk, stop),
    };
    let status = tell(alloc, &mut out, text, end);
    Ended {
        status,
        disk,
        inputs,
        out,
    }
}
