//! What the texts of names have in common, and those of records.

ghost use Rattle.ssq_plans.specs.Names.{AreTextsApart};
ghost use Rattle.ssq_plans.specs.Records.{AreRecordsApart};

use ssq_field::fields_are_apart;

/// The law of names: no two names have one text.
pub fn names_are_apart()
    ensures { AreTextsApart }
{
    fields_are_apart();
}

/// The law of records: no two jobs, plans or commits have one text.
pub fn records_are_apart()
    ensures { AreRecordsApart }
{}
