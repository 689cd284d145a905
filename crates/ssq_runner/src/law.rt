//! What holds of the ends of all runs.

ghost use Rattle.ssq_runner.specs.Complete.{RunsGoOn, RunsMeetNoLimit, RunsMeetNoFault};

use ssq_meaning::epochs_without_lines_are_quiet;
use ssq_outside::{Disk, Inputs, Output};
use ssq_terms::{job_is_wanted, plans_say_their_cuts, tasks_have_terms};

/// The law of runs that can go on: where the checkpoint stands for the job, or is empty, and no log has lost a line that is planned, nothing
/// but the outside refuses it, no log is found short and no file damaged. Where there is also room for the lines and epochs to come, no limit
/// is met; and where also no line that is not committed is a fault, and no key overflows, none is found.
pub fn runs_go_on<D: Disk, I: Inputs, O: Output>()
    ensures goes_on { RunsGoOn I.tells (D.tells × I.Log.tells) I.Log.lines I.Log.available I.Log.answers I.Log.faults O.tells }
    ensures no_limit { RunsMeetNoLimit I.tells (D.tells × I.Log.tells) I.Log.lines I.Log.available I.Log.answers I.Log.faults O.tells }
    ensures no_fault { RunsMeetNoFault I.tells (D.tells × I.Log.tells) I.Log.lines I.Log.available I.Log.answers I.Log.faults O.tells }
{
    job_is_wanted();
    plans_say_their_cuts();
    tasks_have_terms();
    epochs_without_lines_are_quiet();
}
