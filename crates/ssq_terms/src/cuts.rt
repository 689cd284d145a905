//! What plans say of the cuts that they are of.

ghost use Rattle.ssq_terms.specs.Laws.{PlansSayTheirCuts, FilesSayTheirCuts};

use ssq_course::files_say_their_course;
use ssq_plans::records_are_apart;

/// The law of cuts: where the plans of two proper cuts spell the same, the cuts are the same as far as epochs are planned; so they are
/// where the same files stand for both.
pub fn plans_say_their_cuts()
    ensures plans { PlansSayTheirCuts }
    ensures files { FilesSayTheirCuts }
{
    records_are_apart();
    files_say_their_course();
}
