//! Queries, one function for each line of the grammar.

ghost use Rattle.std.specs.Prelude.{◌≡◌, length};
ghost use Rattle.ssq_parse.specs.Queries as spec;
ghost use Rattle.ssq_parse.specs.Reading.{Reads, Makes};

use crate::expr::expr;
use crate::fault::Stop;
use crate::reader::Reader;
use crate::tree::Tree;
use ssq_ast::{
    ColumnDecl, ColumnRef, Condition, Deduplicate, Direction, Expr, Group, GroupBy, Ident, Item,
    Join, JoinKind, Limit, Mode, OrderBy, Query, Select, Span, Stream, Watermark, Window,
};
use ssq_lex::{Keyword, Symbol};
use ssq_value::{ColType, Sequence};
use std::alloc::Global;

/// What stands in lists with commas.
trait Part: Drop {
    ghost use Rattle.ssq_parse.specs.Reading.{Ahead, Read};

    /// How it is read.
    ghost reading: { Ahead → Read Self };

    fn read(alloc: Global, reader: &mut Reader<'_>) -> Result<Self, Stop>
        ensures { Reads (reading reader.old) result reader.new };
}

/// One part at least, with commas between them.
fn list<T: Part>(alloc: Global, reader: &mut Reader<'_>) -> Result<Sequence<T>, Stop>
    ensures { Reads (spec.list_at T.reading reader.old) result reader.new }
{
    let mut found = Sequence::new(alloc);
    for _turn in 0..reader.len() {
        found.push(T::read(alloc, reader)?)?;
        if reader.eat_symbol(Symbol::Comma).is_none() {
            return Ok(found);
        }
    }
    Err(reader.expected())
}

impl Part for Ident {
    ghost use Rattle.ssq_parse.specs.Reading.{name_at};

    ghost reading = { name_at };

    fn read(alloc: Global, reader: &mut Reader<'_>) -> Result<Ident, Stop> {
        reader.name(alloc)
    }
}

#[tactic(auto, unfolding(crate::specs::Queries::type_at))]
fn column_type(reader: &mut Reader<'_>) -> Result<ColType, Stop>
    ensures { Reads (spec.type_at reader.old) result reader.new }
{
    if reader.eat_keyword(Keyword::Bigint).is_some() {
        return Ok(ColType::Bigint);
    }
    if reader.eat_keyword(Keyword::String).is_some() {
        return Ok(ColType::Str);
    }
    if reader.eat_keyword(Keyword::Timestamp).is_some() {
        return Ok(ColType::Timestamp);
    }
    reader.keyword(Keyword::Boolean)?;
    Ok(ColType::Bool)
}

impl Part for ColumnDecl {
    ghost use Rattle.ssq_parse.specs.Queries.{decl_at};

    ghost reading = { decl_at };

    #[tactic(auto, unfolding(crate::specs::Queries::decl_at))]
    fn read(alloc: Global, reader: &mut Reader<'_>) -> Result<ColumnDecl, Stop> {
        let name = reader.name(alloc)?;
        let kind = column_type(reader)?;
        Ok(ColumnDecl { name, kind })
    }
}

#[tactic(auto, unfolding(crate::specs::Queries::watermark_at))]
fn watermark(alloc: Global, reader: &mut Reader<'_>) -> Result<Option<Watermark>, Stop>
    ensures { Reads (spec.watermark_at reader.old) result reader.new }
{
    if reader.eat_keyword(Keyword::Watermark).is_none() {
        return Ok(None);
    }
    reader.keyword(Keyword::For)?;
    let column = reader.name(alloc)?;
    reader.keyword(Keyword::Delay)?;
    let delay = reader.span(alloc)?;
    Ok(Some(Watermark { column, delay }))
}

/// What stands after CREATE.
#[tactic(auto, unfolding(crate::specs::Queries::stream_at))]
fn stream(alloc: Global, reader: &mut Reader<'_>, at: usize) -> Result<Stream, Stop>
    ensures { Reads (spec.stream_at at reader.old) result reader.new }
{
    reader.keyword(Keyword::Stream)?;
    let name = reader.name(alloc)?;
    reader.symbol(Symbol::LeftParen)?;
    let columns = list::<ColumnDecl>(alloc, reader)?;
    reader.symbol(Symbol::RightParen)?;
    reader.keyword(Keyword::From)?;
    let (_, source) = reader.quoted(alloc)?;
    let watermark = watermark(alloc, reader)?;
    reader.symbol(Symbol::Semicolon)?;
    Ok(Stream {
        at,
        name,
        columns,
        source,
        watermark,
    })
}

fn streams(alloc: Global, reader: &mut Reader<'_>) -> Result<Sequence<Stream>, Stop>
    ensures { Reads (spec.streams_at reader.old) result reader.new }
{
    let mut found = Sequence::new(alloc);
    for _turn in 0..reader.len() {
        let Some(at) = reader.eat_keyword(Keyword::Create) else {
            return Ok(found);
        };
        found.push(stream(alloc, reader, at)?)?;
    }
    Ok(found)
}

/// A column under a name; under its own it is that column alone.
fn named_column(column: ColumnRef, at: usize, name: Ident) -> Item
    ensures { result ≡ spec.item_of (Expr.Column column) at name }
{
    if column.column.text == name.text {
        Item::Column {
            column,
            at,
            named_at: name.at,
        }
    } else {
        Item::Named {
            value: Expr::Column { value: column },
            at,
            name,
        }
    }
}

/// An expression under a name.
fn named(tree: Tree, name: Ident) -> Item
    ensures { result ≡ spec.item_of tree.value tree.at name }
{
    let at = tree.at;
    match tree.value.into_inner() {
        Expr::Column { value: column } => named_column(column, at, name),
        value => Item::Named { value, at, name },
    }
}

/// An item without a name of its own.
fn bare(tree: Tree, is_name: bool, expected: Stop) -> Result<Item, Stop>
    ensures { result ≡ spec.bare_by is_name tree.value tree.at expected }
{
    if !is_name {
        return Err(expected);
    }
    let at = tree.at;
    match tree.value.into_inner() {
        Expr::Column { value: column } => {
            let named_at = column.column.at;
            Ok(Item::Column {
                column,
                at,
                named_at,
            })
        }
        other => {
            drop(other);
            Err(expected)
        }
    }
}

impl Part for Item {
    ghost use Rattle.ssq_parse.specs.Queries.{item_at};

    ghost reading = { item_at };

    #[tactic(auto, unfolding(crate::specs::Queries::item_at))]
    fn read(alloc: Global, reader: &mut Reader<'_>) -> Result<Item, Stop> {
        let begins_with_name = reader.sees_name();
        let tree = expr(alloc, reader)?;
        if reader.eat_keyword(Keyword::As).is_some() {
            let name = reader.name(alloc)?;
            return Ok(named(tree, name));
        }
        bare(tree, begins_with_name, reader.expected())
    }
}

/// The condition after a keyword, if that stands there.
#[tactic(auto, unfolding(crate::specs::Queries::condition_at))]
fn condition(
    alloc: Global,
    reader: &mut Reader<'_>,
    keyword: Keyword,
) -> Result<Option<Condition>, Stop>
    ensures { Reads (spec.condition_at keyword reader.old) result reader.new }
{
    let Some(at) = reader.eat_keyword(keyword) else {
        return Ok(None);
    };
    let value = expr(alloc, reader)?.value.into_inner();
    Ok(Some(Condition { at, value }))
}

/// What stands after the words of a join, from JOIN on.
#[tactic(auto, unfolding(crate::specs::Queries::joined_at))]
fn joined(alloc: Global, reader: &mut Reader<'_>, kind: JoinKind) -> Result<Option<Join>, Stop>
    ensures { Reads (spec.joined_at kind reader.old) result reader.new }
{
    let at = reader.keyword(Keyword::Join)?;
    let stream = reader.name(alloc)?;
    let on_at = reader.keyword(Keyword::On)?;
    let value = expr(alloc, reader)?.value.into_inner();
    Ok(Some(Join {
        kind,
        at,
        stream,
        on: Condition { at: on_at, value },
    }))
}

#[tactic(auto, unfolding(crate::specs::Queries::join_at))]
fn join(alloc: Global, reader: &mut Reader<'_>) -> Result<Option<Join>, Stop>
    ensures { Reads (spec.join_at reader.old) result reader.new }
{
    if reader.eat_keyword(Keyword::Inner).is_some() {
        return joined(alloc, reader, JoinKind::Inner);
    }
    if reader.eat_keyword(Keyword::Left).is_some() {
        reader.eat_keyword(Keyword::Outer);
        return joined(alloc, reader, JoinKind::Left);
    }
    if reader.eat_keyword(Keyword::Right).is_some() {
        reader.eat_keyword(Keyword::Outer);
        return joined(alloc, reader, JoinKind::Right);
    }
    if reader.sees_keyword(Keyword::Join) {
        return joined(alloc, reader, JoinKind::Inner);
    }
    Ok(None)
}

#[tactic(auto, unfolding(crate::specs::Queries::deduplicate_at))]
fn deduplicate(alloc: Global, reader: &mut Reader<'_>) -> Result<Option<Deduplicate>, Stop>
    ensures { Reads (spec.deduplicate_at reader.old) result reader.new }
{
    let Some(at) = reader.eat_keyword(Keyword::Deduplicate) else {
        return Ok(None);
    };
    reader.keyword(Keyword::By)?;
    let columns = list::<Ident>(alloc, reader)?;
    Ok(Some(Deduplicate { at, columns }))
}

#[tactic(auto, unfolding(crate::specs::Queries::slide_at))]
fn slide(alloc: Global, reader: &mut Reader<'_>) -> Result<Option<Span>, Stop>
    ensures { Reads (spec.slide_at reader.old) result reader.new }
{
    if reader.eat_symbol(Symbol::Comma).is_none() {
        return Ok(None);
    }
    Ok(Some(reader.span(alloc)?))
}

/// What stands after WINDOW.
#[tactic(auto, unfolding(crate::specs::Queries::window_at))]
fn window(alloc: Global, reader: &mut Reader<'_>, at: usize) -> Result<Window, Stop>
    ensures { Reads (spec.window_at at reader.old) result reader.new }
{
    reader.symbol(Symbol::LeftParen)?;
    let column = reader.name(alloc)?;
    reader.symbol(Symbol::Comma)?;
    let size = reader.span(alloc)?;
    let slide = slide(alloc, reader)?;
    reader.symbol(Symbol::RightParen)?;
    Ok(Window {
        at,
        column,
        size,
        slide,
    })
}

impl Part for Group {
    ghost use Rattle.ssq_parse.specs.Queries.{group_item_at};

    ghost reading = { group_item_at };

    #[tactic(auto, unfolding(crate::specs::Queries::group_item_at))]
    fn read(alloc: Global, reader: &mut Reader<'_>) -> Result<Group, Stop> {
        match reader.eat_keyword(Keyword::Window) {
            Some(at) => Ok(Group::Window(window(alloc, reader, at)?)),
            None => Ok(Group::Column(reader.name(alloc)?)),
        }
    }
}

#[tactic(auto, unfolding(crate::specs::Queries::group_at))]
fn group(alloc: Global, reader: &mut Reader<'_>) -> Result<Option<GroupBy>, Stop>
    ensures { Reads (spec.group_at reader.old) result reader.new }
{
    let Some(at) = reader.eat_keyword(Keyword::Group) else {
        return Ok(None);
    };
    reader.keyword(Keyword::By)?;
    let items = list::<Group>(alloc, reader)?;
    Ok(Some(GroupBy { at, items }))
}

#[tactic(auto, unfolding(crate::specs::Queries::direction_at))]
fn direction(reader: &mut Reader<'_>) -> Direction
    ensures { Reads (spec.direction_at reader.old) (Ok result) reader.new }
{
    if reader.eat_keyword(Keyword::Desc).is_some() {
        return Direction::Descending;
    }
    reader.eat_keyword(Keyword::Asc);
    Direction::Ascending
}

impl Part for OrderBy {
    ghost use Rattle.ssq_parse.specs.Queries.{order_item_at};

    ghost reading = { order_item_at };

    #[tactic(auto, unfolding(crate::specs::Queries::order_item_at))]
    fn read(alloc: Global, reader: &mut Reader<'_>) -> Result<OrderBy, Stop> {
        let name = reader.name(alloc)?;
        let direction = direction(reader);
        Ok(OrderBy { name, direction })
    }
}

#[tactic(auto, unfolding(crate::specs::Queries::order_at))]
fn order(alloc: Global, reader: &mut Reader<'_>) -> Result<Sequence<OrderBy>, Stop>
    ensures { Reads (spec.order_at reader.old) result reader.new }
{
    if reader.eat_keyword(Keyword::Order).is_none() {
        return Ok(Sequence::new(alloc));
    }
    reader.keyword(Keyword::By)?;
    list::<OrderBy>(alloc, reader)
}

#[tactic(auto, unfolding(crate::specs::Queries::limit_at))]
fn limit(reader: &mut Reader<'_>) -> Result<Option<Limit>, Stop>
    ensures { Reads (spec.limit_at reader.old) result reader.new }
{
    let Some(at) = reader.eat_keyword(Keyword::Limit) else {
        return Ok(None);
    };
    let most = reader.number()?;
    Ok(Some(Limit { at, most }))
}

#[tactic(auto, unfolding(crate::specs::Queries::mode_at))]
fn mode(reader: &mut Reader<'_>) -> Result<Mode, Stop>
    ensures { Reads (spec.mode_at reader.old) result reader.new }
{
    reader.keyword(Keyword::Output)?;
    if reader.eat_keyword(Keyword::Append).is_some() {
        return Ok(Mode::Append);
    }
    if reader.eat_keyword(Keyword::Update).is_some() {
        return Ok(Mode::Update);
    }
    reader.keyword(Keyword::Complete)?;
    Ok(Mode::Complete)
}

#[tactic(auto, unfolding(crate::specs::Queries::select_at))]
fn select(alloc: Global, reader: &mut Reader<'_>) -> Result<Select, Stop>
    ensures { Reads (spec.select_at reader.old) result reader.new }
{
    reader.keyword(Keyword::Select)?;
    let distinct = reader.eat_keyword(Keyword::Distinct);
    let items = list::<Item>(alloc, reader)?;
    reader.keyword(Keyword::From)?;
    let from = reader.name(alloc)?;
    let join = join(alloc, reader)?;
    let filter = condition(alloc, reader, Keyword::Where)?;
    let deduplicate = deduplicate(alloc, reader)?;
    let group = group(alloc, reader)?;
    let having = condition(alloc, reader, Keyword::Having)?;
    let order = order(alloc, reader)?;
    let limit = limit(reader)?;
    let mode = mode(reader)?;
    reader.symbol(Symbol::Semicolon)?;
    Ok(Select {
        distinct,
        items,
        from,
        join,
        filter,
        deduplicate,
        group,
        having,
        order,
        limit,
        mode,
    })
}

/// A query, and no token after it.
#[tactic(auto, unfolding(crate::specs::Queries::query_at))]
pub(crate) fn query(alloc: Global, reader: &mut Reader<'_>) -> Result<Query, Stop>
    ensures { Makes (spec.query_at reader.old) result }
{
    let streams = streams(alloc, reader)?;
    let select = select(alloc, reader)?;
    match reader.place() {
        None => Ok(Query { streams, select }),
        Some(_) => {
            drop(select);
            Err(reader.expected())
        }
    }
}
