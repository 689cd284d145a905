//! Whether a log has lost lines.

ghost use Rattle.std.specs.Prelude.{◌≡◌, ℕ, Option, Some, None, OnOk, IfErr};
ghost use Rattle.ssq_open.specs.Fault.{DiskRises};
ghost use Rattle.ssq_open.specs.Opening.{first_short};
ghost use Rattle.ssq_open.specs.Lengths.{ShortRefuses};

use crate::fault::OpenFault;
use ssq_plans::PartEnd;

/// Checks that of each part as many lines are found as lie before its end.
pub(crate) fn check_ends(ends: &[PartEnd], found: &[PartEnd]) -> Result<(), OpenFault>
    ensures ok { OnOk result (first_short ends.now found.now ≡ None) }
    ensures err { IfErr result (ShortRefuses ends.now found.now) }
    ensures not_the_disk { (before now : ℕ) → IfErr result (λ fault. DiskRises fault before now) }
{
    for (at, end) in ends.iter().enumerate() {
        if at < found.len() && found[at].end < end.end {
            return Err(OpenFault::LogShort {
                stream: end.stream,
                part: end.part,
                logged: end.end,
                found: found[at].end,
            });
        }
    }
    Ok(())
}
