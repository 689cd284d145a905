//! The items of SELECT: the first of the rules that they break.

ghost use Rattle.std.specs.Prelude.{IfOk};
ghost use Rattle.ssq_check.specs.Fault.{FirstOf};
ghost use Rattle.ssq_check.specs.Lists.{ItemsFaults};

use crate::each::{Checked, first_in};
use crate::expr::check_expr;
use crate::fault::{BindFault, fault_in, sooner};
use crate::list::first_double;
use crate::scope::{Scope, Within, column_kind};
use ssq_ast::Item;
use std::alloc::{AllocError, Global};

/// Where items stand.
#[derive(Clone, Copy)]
pub(crate) struct Place<'a> {
    scope: &'a Scope,
    within: Within,
}

impl<'a> Checked<Place<'a>> for Item {
    ghost use Rattle.ssq_check.specs.Lists.{ItemFaults};

    ghost faults = { λ place item. ItemFaults place.scope.now place.within item };

    fn first_fault(
        &self,
        _alloc: Global,
        place: &Place<'a>,
    ) -> Result<Option<BindFault>, AllocError> {
        match self {
            Item::Column { column, .. } => {
                Ok(fault_in(column_kind(place.scope, place.within, column)))
            }
            Item::Named { value, .. } => Ok(fault_in(check_expr(place.scope, place.within, value))),
        }
    }
}

/// The items, doubled names of outputs among them.
#[tactic(auto, using(crate::proofs::First::first_sooner))]
pub(crate) fn check_items(
    alloc: Global,
    scope: &Scope,
    within: Within,
    items: &[Item],
) -> Result<Option<BindFault>, AllocError>
    ensures { IfOk result (FirstOf (ItemsFaults scope.now within items.now)) }
{
    let each = first_in(alloc, &Place { scope, within }, items)?;
    let doubled = first_double(alloc, items)?;
    Ok(sooner(each, doubled))
}
