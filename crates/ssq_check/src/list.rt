//! Lists of a query: names that are given twice, and what stands beyond a limit.

ghost use Rattle.std.specs.Prelude.{◌≡◌, None, [], map, not, slice_get, IfOk, OnOk};
ghost use Rattle.std.specs.List.{flat_map};
ghost use Rattle.ssq_check.specs.Fault.{FirstOf, sooner};
ghost use Rattle.ssq_check.specs.Lists.{has_name, with_name, item_name, names_from, double_at, Standing, Doubled, Past, Beyond};
ghost use Rattle.ssq_check.specs.Clauses.{ident_name, ident_place, group_columns};

use crate::fault::{BindFault, Cause, sooner};
use indexmap::IndexSet;
use ssq_ast::{ColumnDecl, Group, Ident, Item, Stream};
use ssq_value::Text;
use std::alloc::{AllocError, Global};

/// How many columns a stream or DEDUPLICATE may have, and how many items SELECT or groups GROUP BY.
const MOST_LISTED: usize = 64;

/// The name of an output.
pub fn item_name(item: &Item) -> &Text
    ensures { result.now ≡ item_name item.now }
{
    match item {
        Item::Column { column, .. } => &column.column.text,
        Item::Named { name, .. } => &name.text,
    }
}

/// What stands at a place.
pub(crate) trait Placed {
    ghost use Rattle.std.specs.Prelude.{ℕ};

    ghost place: { Self → ℕ };

    /// Its first token.
    fn place(&self) -> usize
        ensures { result ≡ place self.now };
}

/// What has a name.
pub(crate) trait Named {
    ghost use Rattle.std.specs.Prelude.{List, ℕ};

    ghost name: { Self → List ℕ };

    ghost named_at: { Self → ℕ };

    fn name(&self) -> &str
        ensures { result.now ≡ name self.now };

    /// Where the name is written.
    fn named_at(&self) -> usize
        ensures { result ≡ named_at self.now };
}

impl Placed for Ident {
    ghost use Rattle.ssq_check.specs.Clauses.{ident_place};

    ghost place = { ident_place };

    fn place(&self) -> usize {
        self.at
    }
}

impl Named for Ident {
    ghost use Rattle.ssq_check.specs.Clauses.{ident_name, ident_place};

    ghost name = { ident_name };

    ghost named_at = { ident_place };

    fn name(&self) -> &str {
        self.text.as_str()
    }

    fn named_at(&self) -> usize {
        self.at
    }
}

impl Placed for ColumnDecl {
    ghost use Rattle.ssq_check.specs.Clauses.{decl_place};

    ghost place = { decl_place };

    fn place(&self) -> usize {
        self.name.at
    }
}

impl Named for ColumnDecl {
    ghost use Rattle.ssq_check.specs.Clauses.{decl_name, decl_place};

    ghost name = { decl_name };

    ghost named_at = { decl_place };

    fn name(&self) -> &str {
        self.name.text.as_str()
    }

    fn named_at(&self) -> usize {
        self.name.at
    }
}

impl Placed for Stream {
    ghost use Rattle.ssq_check.specs.Clauses.{stream_first};

    ghost place = { stream_first };

    fn place(&self) -> usize {
        self.at
    }
}

impl Named for Stream {
    ghost use Rattle.ssq_check.specs.Clauses.{stream_name, stream_name_place};

    ghost name = { stream_name };

    ghost named_at = { stream_name_place };

    fn name(&self) -> &str {
        self.name.text.as_str()
    }

    fn named_at(&self) -> usize {
        self.name.at
    }
}

impl Placed for Item {
    ghost use Rattle.ssq_check.specs.Lists.{item_first};

    ghost place = { item_first };

    fn place(&self) -> usize {
        match self {
            Item::Column { at, .. } => *at,
            Item::Named { at, .. } => *at,
        }
    }
}

impl Named for Item {
    ghost use Rattle.ssq_check.specs.Lists.{item_name, item_place};

    ghost name = { item_name };

    ghost named_at = { item_place };

    fn name(&self) -> &str {
        item_name(self).as_str()
    }

    fn named_at(&self) -> usize {
        match self {
            Item::Column { named_at, .. } => *named_at,
            Item::Named { name, .. } => name.at,
        }
    }
}

impl Placed for Group {
    ghost use Rattle.ssq_check.specs.Clauses.{group_first};

    ghost place = { group_first };

    fn place(&self) -> usize {
        match self {
            Group::Column(ident) => ident.at,
            Group::Window(window) => window.at,
        }
    }
}

/// The names of a list, each once, and the first that is given for a second time.
#[derive(Drop)]
pub struct Names {
    pub(crate) seen: IndexSet<Text>,
    pub(crate) double: Option<BindFault>,
}

/// A name at this place, which is a fault where it was given before.
fn doubled(at: usize, is_new: bool) -> Option<BindFault>
    ensures { result ≡ double_at at (not is_new) }
{
    if is_new {
        None
    } else {
        Some(BindFault {
            at,
            cause: Cause::DoubleName,
        })
    }
}

impl Names {
    /// No names.
    pub(crate) fn none(alloc: Global) -> Names
        ensures seen { result.seen.keys ≡ [] }
        ensures double { result.double ≡ None }
    {
        Names {
            seen: IndexSet::new(alloc),
            double: None,
        }
    }

    /// Takes one name more, which is written at this place.
    fn take(&mut self, alloc: Global, name: &str, at: usize) -> Result<(), AllocError>
        ensures seen { OnOk result (self.new.seen.keys ≡ with_name self.old.seen.keys name.now) }
        ensures double { OnOk result (self.new.double ≡ sooner self.old.double (double_at at (has_name name.now self.old.seen.keys))) }
    {
        let name = Text::from_str(alloc, name)?;
        let (_, is_new) = self.seen.insert_full(name)?;
        self.double = sooner(self.double, doubled(at, is_new));
        Ok(())
    }

    /// Takes the names of a list, and tells the first that one in front of it has.
    pub(crate) fn take_all<N: Named>(
        &mut self,
        alloc: Global,
        items: &[N],
    ) -> Result<Option<BindFault>, AllocError>
        requires seen { self.old.seen.keys ≡ [] }
        requires double { self.old.double ≡ None }
        ensures first { IfOk result (FirstOf (Doubled N.name N.named_at [] items.now)) }
        ensures names { OnOk result (self.new.seen.keys ≡ names_from N.name [] items.now) }
    {
        for item in items {
            self.take(alloc, item.name(), item.named_at())?;
        }
        Ok(self.double)
    }

    /// Takes the columns of GROUP BY, and tells the first that stands there for a second time.
    fn take_columns(
        &mut self,
        alloc: Global,
        items: &[Group],
    ) -> Result<Option<BindFault>, AllocError>
        requires seen { self.old.seen.keys ≡ [] }
        requires double { self.old.double ≡ None }
        ensures { IfOk result (FirstOf
            (Doubled ident_name ident_place [] (flat_map group_columns items.now))) }
    {
        for item in items {
            match item {
                Group::Column(ident) => self.take(alloc, ident.text.as_str(), ident.at)?,
                Group::Window(_) => {}
            }
        }
        Ok(self.double)
    }
}

/// The first of the names that one in front of it has.
pub(crate) fn first_double<N: Named>(
    alloc: Global,
    items: &[N],
) -> Result<Option<BindFault>, AllocError>
    ensures { IfOk result (FirstOf (Doubled N.name N.named_at [] items.now)) }
{
    let mut names = Names::none(alloc);
    let double = names.take_all(alloc, items);
    drop(names);
    double
}

/// The first column of GROUP BY that stands there for a second time.
pub(crate) fn first_double_column(
    alloc: Global,
    items: &[Group],
) -> Result<Option<BindFault>, AllocError>
    ensures { IfOk result (FirstOf
        (Doubled ident_name ident_place [] (flat_map group_columns items.now))) }
{
    let mut names = Names::none(alloc);
    let double = names.take_columns(alloc, items);
    drop(names);
    double
}

/// A rule that is broken by what stands at a place, where something stands there.
#[tactic(auto, using(crate::proofs::Nodes::first_rule))]
pub(crate) fn standing(cause: Cause, at: Option<usize>) -> Option<BindFault>
    ensures { FirstOf (Standing cause at) result }
{
    match at {
        Some(at) => Some(BindFault { at, cause }),
        None => None,
    }
}

fn place_of<P: Placed>(items: &[P], at: usize) -> Option<usize>
    ensures { result ≡ slice_get (map P.place items.now) at }
{
    match items.get(at) {
        Some(item) => Some(item.place()),
        None => None,
    }
}

/// A rule that is broken by what stands after the first so many.
pub(crate) fn past<P: Placed>(cause: Cause, most: usize, items: &[P]) -> Option<BindFault>
    ensures { FirstOf (Past cause most (map P.place items.now)) result }
{
    standing(cause, place_of(items, most))
}

/// A 65th of a list.
pub(crate) fn beyond<P: Placed>(items: &[P]) -> Option<BindFault>
    ensures { FirstOf (Beyond (map P.place items.now)) result }
{
    past(Cause::TooMany, MOST_LISTED, items)
}
