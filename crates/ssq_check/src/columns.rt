//! The columns of a stream, which are found by their names.

ghost use Rattle.std.specs.Prelude.{◌≡◌, List, [], ◌∷◌, ◌++◌, length, position, IfOk, OnOk};
ghost use Rattle.std.specs.Str.{bytes_eq};
ghost use Rattle.ssq_value.specs.declared.column.Column.{Column as spec};
ghost use Rattle.ssq_check.specs.Scope.{spot_at, in_columns};
ghost use Rattle.ssq_check.specs.Columns.{FindsFirsts};

use crate::scope::{Side, Spot};
use indexmap::IndexMap;
use ssq_value::{Column, Sequence, Text};
use std::alloc::{AllocError, Global};
use std::marker::Model;

/// The columns of a stream, with the first of each name at hand. Contracts see the list of the columns.
#[derive(Drop)]
pub struct Columns {
    list: Sequence<Column>,
    /// From a name to the index of the first column that has it.
    firsts: IndexMap<Text, usize>,
}

impl Model for Columns {
    ghost use Rattle.std.specs.Prelude.{List};
    ghost use Rattle.ssq_value.specs.declared.column.Column.{Column as Listed};
    ghost use Rattle.ssq_check.specs.Columns.{FindsFirsts};

    ghost Value = { List Listed };

    ghost view = { λ c. c.list };

    ghost invariant = { λ c. FindsFirsts c.list c.firsts };
}

#[tactic(auto, using(crate::proofs::FirstNames::first_of_its_name, crate::proofs::FirstNames::second_of_its_name))]
fn note(firsts: &mut IndexMap<Text, usize>, column: &Column, at: usize) -> Result<(), AllocError>
    ensures { (columns : List spec) → length columns ≡ at → FindsFirsts columns firsts.old
        → OnOk result (FindsFirsts (columns ++ column.now ∷ []) firsts.new) }
{
    if firsts.get(&column.name).is_none() {
        let name = column.name.clone()?;
        firsts.insert(name, at)?;
    }
    Ok(())
}

fn firsts_of(alloc: Global, columns: &[Column]) -> Result<IndexMap<Text, usize>, AllocError>
    ensures { IfOk result (λ firsts. FindsFirsts columns.now firsts) }
{
    let mut firsts = IndexMap::new(alloc);
    for (at, column) in columns.iter().enumerate() {
        note(&mut firsts, column, at)?;
    }
    Ok(firsts)
}

/// The column at an index of a stream that stands on this side.
pub fn spot_at(side: Side, columns: &[Column], at: usize) -> Option<Spot>
    ensures { result ≡ spot_at side columns.now at }
{
    match columns.get(at) {
        Some(column) => Some(Spot {
            side,
            index: at,
            kind: column.kind,
        }),
        None => None,
    }
}

impl Columns {
    /// Takes the columns over, and notes where each name stands first.
    pub fn new(alloc: Global, list: Sequence<Column>) -> Result<Columns, AllocError>
        ensures { IfOk result (λ columns. columns ≡ list) }
    {
        let firsts = firsts_of(alloc, list.as_slice())?;
        Ok(Columns { list, firsts })
    }

    /// The columns in order.
    pub fn as_slice(&self) -> &[Column]
        ensures { result.now ≡ self.now }
    {
        self.list.as_slice()
    }

    fn position(&self, name: &Text) -> Option<usize>
        ensures { result ≡ position (λ column. bytes_eq column.name name.now) self.now }
    {
        self.firsts.get(name).copied()
    }

    /// The first column of the name, in a stream that stands on this side. It takes one look-up, however many columns there
    /// are.
    pub fn spot(&self, side: Side, name: &Text) -> Option<Spot>
        ensures { result ≡ in_columns side self.now name.now }
    {
        match self.position(name) {
            Some(at) => spot_at(side, self.list.as_slice(), at),
            None => None,
        }
    }
}
