//! The plans of a checkpoint, in order.

ghost use Rattle.std.specs.Prelude.{◌≡◌, ◌<◌, ◌≤◌, ◌+◌, ◌^◌, ℕ, List, length, IfOk, IfErr, OnOk, IsTrue};
ghost use Rattle.ssq_outside.specs.Files.{Files};
ghost use Rattle.ssq_outside.specs.History.{files_now};
ghost use Rattle.ssq_open.specs.Epochs.{is_next, last_ends, ArePlannedTo, ArePlanned};
ghost use Rattle.ssq_open.specs.Spelled.{IsThePlan};
ghost use Rattle.ssq_open.specs.Fault.{DiskRises};
ghost use Rattle.ssq_open.specs.Refused.{PlansRefuse};
ghost use Rattle.ssq_open.specs.Numbers.{ArePlansInOrder};
ghost use Rattle.ssq_plans.specs.Records.{IsPlan};
ghost use Rattle.ssq_plans.specs.declared.part.PartEnd.{PartEnd as PartEndOf};

use crate::cuts::is_next;
use crate::fault::OpenFault;
use crate::read::record_in;
use ssq_outside::{Disk, Name};
use ssq_plans::{PartEnd, Plan};
use ssq_value::Sequence;
use std::alloc::Global;

/// The plan of an epoch, where the epochs before it end there.
fn next_plan<D: Disk>(
    alloc: Global,
    disk: &mut D,
    before: &[PartEnd],
    epoch: u32,
) -> Result<Plan, OpenFault>
    ensures plan { D.tells → IfOk result (IsThePlan (files_now (D.history disk.old)) epoch) }
    ensures next { IfOk result (λ plan. IsTrue (is_next before.now epoch plan)) }
    ensures in_range { IfOk result IsPlan }
    ensures refused { D.tells → (first : List PartEndOf) → ArePlannedTo (files_now (D.history disk.old)) first epoch before.now →
        IfErr result (PlansRefuse (files_now (D.history disk.old)) first (epoch + 1)) }
    ensures same { D.tells → D.history disk.new ≡ D.history disk.old }
    ensures counted { D.faults disk.old ≤ D.faults disk.new }
    ensures cause { IfErr result (λ fault. DiskRises fault (D.faults disk.old) (D.faults disk.new)) }
{
    match record_in(alloc, disk, Name::Plan(epoch))? {
        Some(plan) => {
            if is_next(before, epoch, &plan) {
                Ok(plan)
            } else {
                Err(OpenFault::Damaged {
                    name: Name::Plan(epoch),
                })
            }
        }
        None => Err(OpenFault::Damaged {
            name: Name::Plan(epoch),
        }),
    }
}

/// Where these epochs end, of parts that begin there.
pub(crate) fn last_ends<'a>(first: &'a [PartEnd], plans: &'a [Plan]) -> &'a [PartEnd]
    ensures { result.now ≡ last_ends first.now plans.now }
{
    if plans.is_empty() {
        first
    } else {
        plans[plans.len() - 1].ends.as_slice()
    }
}

/// One epoch more, of parts that begin there.
fn advance<D: Disk>(
    alloc: Global,
    disk: &mut D,
    first: &[PartEnd],
    plans: &mut Sequence<Plan>,
    epoch: u32,
) -> Result<(), OpenFault>
    requires { length plans.old ≡ epoch }
    ensures planned { D.tells → ArePlanned (files_now (D.history disk.old)) first.now plans.old →
        OnOk result (ArePlanned (files_now (D.history disk.old)) first.now plans.new) }
    ensures count { OnOk result (length plans.new ≡ epoch + 1) }
    ensures few { OnOk result (epoch < 4294967295) }
    ensures in_order { ArePlansInOrder first.now plans.old → OnOk result (ArePlansInOrder first.now plans.new) }
    ensures refused { D.tells → ArePlanned (files_now (D.history disk.old)) first.now plans.old →
        IfErr result (PlansRefuse (files_now (D.history disk.old)) first.now (epoch + 1)) }
    ensures same { D.tells → D.history disk.new ≡ D.history disk.old }
    ensures counted { D.faults disk.old ≤ D.faults disk.new }
    ensures cause { IfErr result (λ fault. DiskRises fault (D.faults disk.old) (D.faults disk.new)) }
{
    let plan = next_plan(alloc, disk, last_ends(first, plans.as_slice()), epoch)?;
    Ok(plans.push(plan)?)
}

/// The plans of the first epochs, of parts that begin there.
pub(crate) fn plans_to<D: Disk>(
    alloc: Global,
    disk: &mut D,
    first: &[PartEnd],
    count: u64,
) -> Result<Sequence<Plan>, OpenFault>
    requires { count ≤ 2 ^ 32 }
    ensures planned { D.tells → IfOk result (ArePlanned (files_now (D.history disk.old)) first.now) }
    ensures count { IfOk result (λ plans. length plans ≡ count) }
    ensures few { OnOk result (count ≤ 4294967295) }
    ensures in_order { IfOk result (ArePlansInOrder first.now) }
    ensures refused { D.tells → IfErr result (PlansRefuse (files_now (D.history disk.old)) first.now count) }
    ensures same { D.tells → D.history disk.new ≡ D.history disk.old }
    ensures counted { D.faults disk.old ≤ D.faults disk.new }
    ensures cause { IfErr result (λ fault. DiskRises fault (D.faults disk.old) (D.faults disk.new)) }
{
    let mut plans = Sequence::new(alloc);
    for epoch in 0..count {
        advance(alloc, disk, first, &mut plans, epoch as u32)?;
    }
    Ok(plans)
}
