//! The totals of a group.

ghost use Rattle.std.specs.Prelude.{◌≡◌, [], All, IfOk, OnOk};
ghost use Rattle.ssq_meaning.specs.Fit.{IsFit};
ghost use Rattle.ssq_meaning.specs.Totals.{totals_of, with_row};
ghost use Rattle.ssq_agg.specs.Fits.{AllFit};
ghost use Rattle.ssq_agg.specs.Readable.{IsFitTotal};

use crate::total::{add_row, nothing};
use ssq_meaning::Total;
use ssq_shape::Aggregate;
use ssq_value::Value;
use std::alloc::{AllocError, Global};
use std::marker::Model;

/// The totals of a group, in the order of the query's aggregates. Contracts see the list of these.
#[derive(Drop)]
pub(crate) struct Totals(Vec<Total>);

impl Model for Totals {
    ghost use Rattle.std.specs.Prelude.{List};
    ghost use Rattle.ssq_meaning.specs.declared.total.Total.{Total as Sum};

    ghost Value = { List Sum };

    ghost view = { λ totals. totals.0.items };
}

impl Totals {
    /// Takes the totals over, without a copy.
    pub fn from_vec(totals: Vec<Total>) -> Totals
        ensures { result ≡ totals.items }
    {
        Totals(totals)
    }

    /// The totals of no row.
    pub fn of_nothing(alloc: Global, aggregates: &[Aggregate]) -> Result<Totals, AllocError>
        ensures totals { IfOk result (λ totals. totals ≡ totals_of aggregates.now []) }
        ensures fit { IfOk result (All IsFitTotal) }
    {
        Ok(Totals(nothing(alloc, aggregates)?))
    }

    pub fn as_slice(&self) -> &[Total]
        ensures { result.now ≡ self.now }
    {
        self.0.as_slice()
    }

    /// Takes one more row of the group, where the types of the totals hold what comes out. After an `Err` they are of no use.
    pub fn add_row(&mut self, row: &[Value]) -> Result<(), AllocError>
        ensures added { AllFit (with_row self.old row.now) → OnOk result (self.new ≡ with_row self.old row.now) }
        ensures fit { All IsFitTotal self.old → All IsFit row.now → OnOk result (All IsFitTotal self.new) }
    {
        add_all(&mut self.0, row)
    }
}

fn add_all(totals: &mut Vec<Total>, row: &[Value]) -> Result<(), AllocError>
    ensures added { AllFit (with_row totals.old.items row.now) → OnOk result (totals.new.items ≡ with_row totals.old.items row.now) }
    ensures fit { All IsFitTotal totals.old.items → All IsFit row.now → OnOk result (All IsFitTotal totals.new.items) }
{
    add_row(totals.as_mut_slice(), row)
}
