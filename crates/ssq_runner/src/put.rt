//! What a round tells is written.

ghost use Rattle.std.specs.Prelude.{◌≡◌, ◌≤◌, ◌++◌, ℕ, List, [], take, All, Ok, IfOk, IfErr, OnOk};
ghost use Rattle.std.specs.Option.{ForSome};
ghost use Rattle.ssq_outside.specs.Faults.{Rises};
ghost use Rattle.ssq_time.specs.Time.{IsStampTime};
ghost use Rattle.ssq_runner.specs.declared.fault.RunFault.TheVariants as fault;
ghost use Rattle.ssq_runner.specs.Told.{told_text};
ghost use Rattle.ssq_runner.specs.Putting.{IsUntold, OutCause};

use crate::fault::RunFault;
use crate::line::push_all;
use ssq_desk::{NextRound, Told};
use ssq_drive::Stopped;
use ssq_outside::{OutError, Output};
use std::alloc::Global;

/// Writes the text, and empties it. Where the output fails it is emptied too, since a front of it was written. Where memory runs out it
/// stays.
fn put_text<O: Output>(out: &mut O, text: &mut Vec<u8>) -> Result<(), RunFault>
    ensures put { O.tells → OnOk result (O.content out.new ≡ O.content out.old ++ text.old.items) }
    ensures empty { OnOk result (text.new.items ≡ []) }
    ensures failed { IfErr result (λ why. (why ≡ fault.OutFault) → (text.new.items ≡ []) × (O.tells → (n : ℕ) × (O.content out.new ≡ O.content out.old ++ take n text.old.items))) }
    ensures starved { IfErr result (λ why. (why ≡ fault.NoMemory) → (text.new.items ≡ text.old.items) × (O.tells → O.content out.new ≡ O.content out.old)) }
    ensures only { IfErr result (λ why. OutCause (O.faults out.old) (O.faults out.new) why) }
    ensures counted { O.faults out.old ≤ O.faults out.new }
{
    match out.put(text.as_slice()) {
        Ok(()) => {
            text.clear();
            Ok(())
        }
        Err(OutError::Fault) => {
            text.clear();
            Err(RunFault::OutFault)
        }
        Err(OutError::NoMemory) => Err(RunFault::NoMemory),
    }
}

/// Tells the epochs of a round. Where the round is over their lines are written, and what the next begins on comes back; where it stopped,
/// they are left in the text, to be written before it is said why.
pub(crate) fn tell_round<O: Output>(
    alloc: Global,
    out: &mut O,
    text: &mut Vec<u8>,
    told: &[Told],
    end: Result<NextRound, Stopped>,
) -> Result<NextRound, RunFault>
    requires stamps { All (λ told. ForSome told.watermark IsStampTime) told.now }
    requires empty { text.old.items ≡ [] }
    ensures over { OnOk result ((O.tells → O.content out.new ≡ O.content out.old ++ told_text told.now) × (text.new.items ≡ [])) }
    ensures same { IfOk result (λ next. end ≡ Ok next) }
    ensures untold { IfErr result (IsUntold O.tells (O.content out.old) (O.content out.new) (O.faults out.old) (O.faults out.new) text.new.items told.now end) }
    ensures counted { O.faults out.old ≤ O.faults out.new }
{
    push_all(alloc, text, told)?;
    match end {
        Ok(next) => {
            put_text(out, text)?;
            Ok(next)
        }
        Err(stopped) => Err(RunFault::from(stopped)),
    }
}
