//! The streams of a query, and the names that its expressions may use.

ghost use Rattle.std.specs.Prelude.{◌≡◌, ◌++◌, map, IfOk, OnOk};
ghost use Rattle.std.specs.List.{flat_map};
ghost use Rattle.std.specs.Option.{option_copied, option_map};
ghost use Rattle.ssq_check.specs.declared.scope.Side.TheVariants as side;
ghost use Rattle.ssq_check.specs.Scope.{in_columns};
ghost use Rattle.ssq_check.specs.Names.{column_of, watermark_name, source_of, declared, left_stream, right_stream, row_scope, keys_of, group_keys, with_keys, scope_of};

use crate::columns::Columns;
use crate::keys::Keys;
use crate::scope::{Key, Scope, Side, Source, Spot, bare_spot};
use ssq_ast::{ColumnDecl, Group, GroupBy, Query, Stream, Watermark};
use ssq_value::{Column, Sequence, Text};
use std::alloc::{AllocError, Global};

/// A column, as it is declared.
pub fn column_of(decl: &ColumnDecl) -> Result<Column, AllocError>
    ensures { IfOk result (λ column. column ≡ column_of decl.now) }
{
    let name = decl.name.text.clone()?;
    Ok(Column {
        name,
        kind: decl.kind,
    })
}

/// The columns, as they are declared.
pub fn list_of(alloc: Global, decls: &[ColumnDecl]) -> Result<Sequence<Column>, AllocError>
    ensures { IfOk result (λ columns. columns ≡ map column_of decls.now) }
{
    let mut columns = Sequence::new(alloc);
    for decl in decls {
        let column = column_of(decl)?;
        columns.push(column)?;
    }
    Ok(columns)
}

fn columns_of(alloc: Global, decls: &[ColumnDecl]) -> Result<Columns, AllocError>
    ensures { IfOk result (λ columns. columns ≡ map column_of decls.now) }
{
    let list = list_of(alloc, decls)?;
    Columns::new(alloc, list)
}

/// The first of the columns that has this name, as they are declared.
pub fn declared_spot(decls: &[ColumnDecl], name: &str) -> Option<Spot>
    ensures { result ≡ in_columns side.Left (map column_of decls.now) name.now }
{
    for (at, decl) in decls.iter().enumerate() {
        if decl.name.text.as_str() == name {
            return Some(Spot {
                side: Side::Left,
                index: at,
                kind: decl.kind,
            });
        }
    }
    None
}

fn watermark_name(watermark: &Option<Watermark>) -> Result<Option<Text>, AllocError>
    ensures { IfOk result (λ name. name ≡ option_map watermark_name watermark.now) }
{
    match watermark {
        Some(watermark) => {
            let name = watermark.column.text.clone()?;
            Ok(Some(name))
        }
        None => Ok(None),
    }
}

/// What expressions see of a stream.
fn source_of(alloc: Global, stream: &Stream) -> Result<Source, AllocError>
    ensures { IfOk result (λ source. source ≡ source_of stream.now) }
{
    let name = stream.name.text.clone()?;
    let watermark = watermark_name(&stream.watermark)?;
    let columns = columns_of(alloc, stream.columns.as_slice())?;
    Ok(Source {
        name,
        columns,
        watermark,
    })
}

/// The first stream that is declared under the name.
fn declared<'a>(streams: &'a [Stream], name: &str) -> Option<&'a Stream>
    ensures { option_copied result ≡ declared streams.now name.now }
{
    for stream in streams {
        if stream.name.text.as_str() == name {
            return Some(stream);
        }
    }
    None
}

/// The stream of FROM, where it is declared.
pub fn left_stream(query: &Query) -> Option<&Stream>
    ensures { option_copied result ≡ left_stream query.now }
{
    declared(query.streams.as_slice(), query.select.from.text.as_str())
}

/// The stream of JOIN, where it is declared.
pub fn right_stream(query: &Query) -> Option<&Stream>
    ensures { option_copied result ≡ right_stream query.now }
{
    match &query.select.join {
        Some(join) => declared(query.streams.as_slice(), join.stream.text.as_str()),
        None => None,
    }
}

fn source_if(alloc: Global, stream: Option<&Stream>) -> Result<Option<Source>, AllocError>
    ensures { IfOk result (λ source. source ≡ option_map source_of (option_copied stream.entry)) }
{
    match stream {
        Some(stream) => Ok(Some(source_of(alloc, stream)?)),
        None => Ok(None),
    }
}

/// The names of a query's rows, from those of the stream of FROM.
fn with_right(alloc: Global, query: &Query, left: Option<Source>) -> Result<Scope, AllocError>
    requires { left ≡ (row_scope query.now).left }
    ensures { IfOk result (λ scope. scope ≡ row_scope query.now) }
{
    match source_if(alloc, right_stream(query)) {
        Ok(right) => Ok(Scope {
            left,
            right,
            keys: Keys::none(alloc),
        }),
        Err(error) => {
            drop(left);
            Err(error)
        }
    }
}

/// The names of a query's rows.
pub(crate) fn row_scope(alloc: Global, query: &Query) -> Result<Scope, AllocError>
    ensures { IfOk result (λ scope. scope ≡ row_scope query.now) }
{
    let left = source_if(alloc, left_stream(query))?;
    with_right(alloc, query, left)
}

fn push_key(scope: &Scope, item: &Group, keys: &mut Sequence<Key>) -> Result<(), AllocError>
    ensures { OnOk result (keys.new ≡ keys.old ++ keys_of scope.now item.now) }
{
    match item {
        Group::Column(ident) => match bare_spot(scope, ident) {
            Ok(spot) => keys.push(Key::Column(spot)),
            Err(_) => Ok(()),
        },
        Group::Window(_) => keys.push(Key::Window),
    }
}

fn keys_in(alloc: Global, scope: &Scope, items: &[Group]) -> Result<Sequence<Key>, AllocError>
    ensures { IfOk result (λ keys. keys ≡ flat_map (keys_of scope.now) items.now) }
{
    let mut keys = Sequence::new(alloc);
    for item in items {
        push_key(scope, item, &mut keys)?;
    }
    Ok(keys)
}

/// What GROUP BY lists, as far as its names are known.
fn group_keys(
    alloc: Global,
    scope: &Scope,
    group: &Option<GroupBy>,
) -> Result<Sequence<Key>, AllocError>
    ensures { IfOk result (λ keys. keys ≡ group_keys scope.now group.now) }
{
    match group {
        Some(by) => keys_in(alloc, scope, by.items.as_slice()),
        None => Ok(Sequence::new(alloc)),
    }
}

/// Puts in what GROUP BY lists.
pub(crate) fn add_keys(
    alloc: Global,
    group: &Option<GroupBy>,
    scope: &mut Scope,
) -> Result<(), AllocError>
    ensures { OnOk result (scope.new ≡ with_keys scope.old (group_keys scope.old group.now)) }
{
    let keys = group_keys(alloc, scope, group)?;
    scope.keys = Keys::new(keys);
    Ok(())
}

/// The names that the expressions of a query may use.
pub fn scope_of(alloc: Global, query: &Query) -> Result<Scope, AllocError>
    ensures { IfOk result (λ scope. scope ≡ scope_of query.now) }
{
    let mut scope = row_scope(alloc, query)?;
    match add_keys(alloc, &query.select.group, &mut scope) {
        Ok(()) => Ok(scope),
        Err(error) => {
            drop(scope);
            Err(error)
        }
    }
}
