//! What an epoch shows.

ghost use Rattle.std.specs.Prelude.{◌≡◌, [], ◌∷◌, ◌++◌, if◌then◌else◌, None, Some, IfOk, IfErr, OnOk};
ghost use Rattle.ssq_meaning.specs.Group.{lesser_key};
ghost use Rattle.ssq_step.specs.Shown.{IsExcess};

use crate::copies::copied_row;
use crate::fault::StepFault;
use ssq_value::{Row, Value, order_rows};
use std::alloc::{AllocError, Global};

/// What an epoch shows so far.
#[derive(Drop)]
pub struct Shown {
    /// The rows that are shown so far, in no order.
    pub rows: Vec<Row>,
    /// The least key so far that overflows.
    pub fault: Option<Row>,
}

impl Shown {
    /// Nothing is shown yet.
    pub fn nothing(alloc: Global) -> Shown
        ensures rows { result.rows.items ≡ [] }
        ensures fault { result.fault ≡ None }
    {
        Shown {
            rows: Vec::new(alloc),
            fault: None,
        }
    }

    /// This row is shown too.
    pub fn add_row(&mut self, row: Row) -> Result<(), AllocError>
        ensures rows { OnOk result (self.new.rows.items ≡ self.old.rows.items ++ row ∷ []) }
        ensures fault { OnOk result (self.new.fault ≡ self.old.fault) }
    {
        self.rows.push(row)?;
        Ok(())
    }

    /// This key overflows too.
    pub fn add_fault(&mut self, alloc: Global, key: &[Value]) -> Result<(), AllocError>
        ensures rows { OnOk result (self.new.rows.items ≡ self.old.rows.items) }
        ensures fault { OnOk result (self.new.fault ≡ Some (lesser_key key.now self.old.fault)) }
    {
        if is_least(key, &self.fault) {
            self.fault = Some(copied_row(alloc, key)?);
        }
        Ok(())
    }

    /// The rows that are shown, where no key overflows; else the least that does is the fault.
    pub fn into_rows(self) -> Result<Vec<Row>, StepFault>
        ensures rows { IfOk result (λ rows. rows.items ≡ self.rows.items) }
        ensures faultless { IfOk result (λ rows. self.fault ≡ None) }
        ensures cause { IfErr result (IsExcess self.fault) }
    {
        let Shown { rows, fault } = self;
        match fault {
            Some(key) => Err(StepFault::Overflow { key }),
            None => Ok(rows),
        }
    }
}

/// Whether a key is less than the least so far. Where the two tie they are the same, so that none is copied again.
fn is_least(key: &[Value], least: &Option<Row>) -> bool
    ensures { Some (lesser_key key.now least.now) ≡ (if result then Some key.now else least.now) }
{
    match least {
        Some(other) => order_rows(key, other.as_slice()).is_lt(),
        None => true,
    }
}
