//! Prints queries in their canonical form.

ghost use Rattle.std.specs.Prelude.{◌≡◌, false, map, IfOk};
ghost use Rattle.std.specs.List.{flat_map};
ghost use Rattle.std.specs.Option.{option_map};
ghost use Rattle.ssq_lex.specs.Printing.{Adds};
ghost use Rattle.ssq_lex.specs.declared.keyword.Keyword.TheVariants as key;
ghost use Rattle.ssq_ast.specs.Again.{IsReadAgain, IsSayableAgain};
ghost use Rattle.ssq_ast.specs.Canonical as plain;
ghost use Rattle.ssq_ast.specs.Canonical.{canonical};
ghost use Rattle.ssq_ast.specs.Expression as expression;
ghost use Rattle.ssq_ast.specs.Statement as spec;

use crate::expr::{Expr, Ident, Span};
use crate::part::{Part, print_each, print_separated};
use crate::print::{print_column, print_expr};
use crate::query::{
    ColumnDecl, Condition, Deduplicate, Direction, Group, GroupBy, Item, Join, JoinKind, Limit,
    Mode, OrderBy, Query, Select, Stream, Watermark, Window,
};
use ssq_lex::{Keyword, Printer, Symbol};
use ssq_value::{ColType, Text};
use std::alloc::{AllocError, Global};

fn type_key(kind: ColType) -> Keyword
    ensures { result ≡ spec.type_key kind }
{
    match kind {
        ColType::Bigint => Keyword::Bigint,
        ColType::Str => Keyword::String,
        ColType::Timestamp => Keyword::Timestamp,
        ColType::Bool => Keyword::Boolean,
    }
}

fn mode_key(mode: Mode) -> Keyword
    ensures { result ≡ spec.mode_key mode }
{
    match mode {
        Mode::Append => Keyword::Append,
        Mode::Update => Keyword::Update,
        Mode::Complete => Keyword::Complete,
    }
}

impl Part for Ident {
    ghost use Rattle.std.specs.Prelude.{[], ◌∷◌};
    ghost use Rattle.ssq_ast.specs.Statement.{name_words};

    ghost written = { λ ident. name_words ident.text };

    fn print(&self, printer: &mut Printer) {
        printer.name(self.text.as_str());
    }
}

impl Part for ColumnDecl {
    ghost use Rattle.ssq_ast.specs.Canonical.{plain_decl};
    ghost use Rattle.ssq_ast.specs.Statement.{decl_words};

    ghost written = { λ decl. decl_words (plain_decl decl) };

    #[tactic(auto, using(crate::proofs::Printed::printing))]
    fn print(&self, printer: &mut Printer) {
        printer.name(self.name.text.as_str());
        printer.keyword(type_key(self.kind));
    }
}

impl Part for Item {
    ghost use Rattle.ssq_ast.specs.Canonical.{plain_item};
    ghost use Rattle.ssq_ast.specs.Statement.{item_words};

    ghost written = { λ item. item_words (plain_item item) };

    #[tactic(auto, using(crate::proofs::Printed::printing))]
    fn print(&self, printer: &mut Printer) {
        match self {
            Item::Column { column, .. } => print_column(printer, column),
            Item::Named { value, name, .. } => {
                print_expr(printer, value);
                printer.keyword(Keyword::As);
                printer.name(name.text.as_str());
            }
        }
    }
}

fn print_slide(printer: &mut Printer, slide: &Option<Span>)
    ensures { Adds printer.old (spec.slide_words slide.now) printer.new }
{
    if let Some(slide) = slide {
        printer.symbol(Symbol::Comma);
        printer.quoted(slide.text.as_str());
    }
}

#[tactic(auto, using(crate::proofs::Printed::printing))]
fn print_window(printer: &mut Printer, window: &Window)
    ensures { Adds printer.old (spec.window_words (plain.plain_window window.now)) printer.new }
{
    printer.keyword(Keyword::Window);
    printer.symbol(Symbol::LeftParen);
    printer.name(window.column.text.as_str());
    printer.symbol(Symbol::Comma);
    printer.quoted(window.size.text.as_str());
    print_slide(printer, &window.slide);
    printer.symbol(Symbol::RightParen);
}

impl Part for Group {
    ghost use Rattle.ssq_ast.specs.Canonical.{plain_group};
    ghost use Rattle.ssq_ast.specs.Statement.{group_item_words};

    ghost written = { λ group. group_item_words (plain_group group) };

    fn print(&self, printer: &mut Printer) {
        match self {
            Group::Column(column) => printer.name(column.text.as_str()),
            Group::Window(window) => print_window(printer, window),
        }
    }
}

impl Part for OrderBy {
    ghost use Rattle.ssq_ast.specs.Canonical.{plain_order};
    ghost use Rattle.ssq_ast.specs.Statement.{order_item_words};

    ghost written = { λ order. order_item_words (plain_order order) };

    #[tactic(auto, using(crate::proofs::Printed::printing))]
    fn print(&self, printer: &mut Printer) {
        printer.name(self.name.text.as_str());
        match self.direction {
            Direction::Ascending => {}
            Direction::Descending => printer.keyword(Keyword::Desc),
        }
    }
}

fn print_watermark(printer: &mut Printer, watermark: &Option<Watermark>)
    ensures { Adds printer.old (spec.watermark_words (option_map plain.plain_watermark watermark.now)) printer.new }
{
    if let Some(watermark) = watermark {
        printer.keyword(Keyword::Watermark);
        printer.keyword(Keyword::For);
        printer.name(watermark.column.text.as_str());
        printer.keyword(Keyword::Delay);
        printer.quoted(watermark.delay.text.as_str());
    }
}

fn print_columns(printer: &mut Printer, columns: &[ColumnDecl])
    ensures { Adds printer.old (spec.separated (map spec.decl_words (map plain.plain_decl columns.now))) printer.new }
{
    print_separated(printer, columns);
}

impl Part for Stream {
    ghost use Rattle.ssq_ast.specs.Canonical.{plain_stream};
    ghost use Rattle.ssq_ast.specs.Statement.{declared_words};

    ghost written = { λ stream. declared_words (plain_stream stream) };

    #[tactic(auto, using(crate::proofs::Printed::printing))]
    fn print(&self, printer: &mut Printer) {
        printer.keyword(Keyword::Create);
        printer.keyword(Keyword::Stream);
        printer.name(self.name.text.as_str());
        printer.symbol(Symbol::LeftParen);
        print_columns(printer, self.columns.as_slice());
        printer.symbol(Symbol::RightParen);
        printer.keyword(Keyword::From);
        printer.quoted(self.source.as_str());
        print_watermark(printer, &self.watermark);
        printer.symbol(Symbol::Semicolon);
    }
}

fn print_items(printer: &mut Printer, items: &[Item])
    ensures { Adds printer.old (spec.separated (map spec.item_words (map plain.plain_item items.now))) printer.new }
{
    print_separated(printer, items);
}

fn print_names(printer: &mut Printer, names: &[Ident])
    ensures { Adds printer.old (spec.separated (map spec.name_words (map (λ name. name.text) names.now))) printer.new }
{
    print_separated(printer, names);
}

fn print_groups(printer: &mut Printer, groups: &[Group])
    ensures { Adds printer.old (spec.separated (map spec.group_item_words (map plain.plain_group groups.now))) printer.new }
{
    print_separated(printer, groups);
}

fn print_orders(printer: &mut Printer, orders: &[OrderBy])
    ensures { Adds printer.old (spec.separated (map spec.order_item_words (map plain.plain_order orders.now))) printer.new }
{
    print_separated(printer, orders);
}

fn print_streams(printer: &mut Printer, streams: &[Stream])
    ensures { Adds printer.old (flat_map spec.declared_words (map plain.plain_stream streams.now)) printer.new }
{
    print_each(printer, streams);
}

fn print_kind(printer: &mut Printer, kind: JoinKind)
    ensures { Adds printer.old (spec.kind_words kind false) printer.new }
{
    match kind {
        JoinKind::Inner => {}
        JoinKind::Left => printer.keyword(Keyword::Left),
        JoinKind::Right => printer.keyword(Keyword::Right),
    }
}

#[tactic(auto, using(crate::proofs::Printed::printing))]
fn print_join(printer: &mut Printer, join: &Option<Join>)
    ensures { Adds printer.old (spec.join_words (option_map plain.plain_join join.now)) printer.new }
{
    if let Some(join) = join {
        print_kind(printer, join.kind);
        printer.keyword(Keyword::Join);
        printer.name(join.stream.text.as_str());
        printer.keyword(Keyword::On);
        print_expr(printer, &join.on.value);
    }
}

/// Prints a condition after its keyword, where it stands.
fn print_condition(printer: &mut Printer, word: Keyword, condition: &Option<Condition>)
    ensures { Adds printer.old
        (spec.condition_words word (option_map (λ condition. expression.plain condition.value) condition.now)) printer.new }
{
    if let Some(condition) = condition {
        printer.keyword(word);
        print_expr(printer, &condition.value);
    }
}

fn print_deduplicate(printer: &mut Printer, deduplicate: &Option<Deduplicate>)
    ensures { Adds printer.old (spec.deduplicate_words (option_map plain.plain_deduplicate deduplicate.now)) printer.new }
{
    if let Some(deduplicate) = deduplicate {
        printer.keyword(Keyword::Deduplicate);
        printer.keyword(Keyword::By);
        print_names(printer, deduplicate.columns.as_slice());
    }
}

fn print_group(printer: &mut Printer, group: &Option<GroupBy>)
    ensures { Adds printer.old (spec.group_words (option_map plain.plain_group_by group.now)) printer.new }
{
    if let Some(group) = group {
        printer.keyword(Keyword::Group);
        printer.keyword(Keyword::By);
        print_groups(printer, group.items.as_slice());
    }
}

#[tactic(auto, using(crate::proofs::Printed::order_words_filled))]
fn print_order(printer: &mut Printer, order: &[OrderBy])
    ensures { Adds printer.old (spec.order_words (map plain.plain_order order.now)) printer.new }
{
    if !order.is_empty() {
        printer.keyword(Keyword::Order);
        printer.keyword(Keyword::By);
        print_orders(printer, order);
    }
}

fn print_limit(printer: &mut Printer, limit: &Option<Limit>)
    ensures { Adds printer.old (spec.limit_words (option_map (λ limit. limit.most) limit.now)) printer.new }
{
    if let Some(limit) = limit {
        printer.keyword(Keyword::Limit);
        printer.number(limit.most);
    }
}

fn print_distinct(printer: &mut Printer, distinct: Option<usize>)
    ensures { Adds printer.old (spec.distinct_words (plain.is_some distinct)) printer.new }
{
    match distinct {
        Some(_) => printer.keyword(Keyword::Distinct),
        None => {}
    }
}

#[tactic(auto, using(crate::proofs::Printed::printing))]
fn print_front(printer: &mut Printer, select: &Select)
    ensures { Adds printer.old (spec.front_words (plain.plain_select select.now)) printer.new }
{
    printer.keyword(Keyword::Select);
    print_distinct(printer, select.distinct);
    print_items(printer, select.items.as_slice());
    printer.keyword(Keyword::From);
    printer.name(select.from.text.as_str());
    print_join(printer, &select.join);
    print_condition(printer, Keyword::Where, &select.filter);
}

#[tactic(auto, using(crate::proofs::Printed::printing))]
fn print_back(printer: &mut Printer, select: &Select)
    ensures { Adds printer.old (spec.back_words (plain.plain_select select.now)) printer.new }
{
    print_deduplicate(printer, &select.deduplicate);
    print_group(printer, &select.group);
    print_condition(printer, Keyword::Having, &select.having);
    print_order(printer, select.order.as_slice());
    print_limit(printer, &select.limit);
    printer.keyword(Keyword::Output);
    printer.keyword(mode_key(select.mode));
    printer.symbol(Symbol::Semicolon);
}

/// The canonical text of a query: the one by which it is kept and compared.
///
/// Its words stand in order, keywords in capitals, `<>` for `!=`, numbers by their value and texts as they were read,
/// with no INNER, OUTER or ASC, with no AS where an item is the bare column of that name, and with brackets exactly
/// where without them it would be read as another query. One space stands between two words, but none after `(`, none
/// around `.`, none before `)`, `,` and `;`, and none between WINDOW, COUNT, SUM, MIN or MAX and `(`.
#[tactic(auto, using(crate::proofs::Printed::printing), unfolding(crate::specs::Canonical::canonical))]
pub fn text(alloc: Global, query: &Query) -> Result<Text, AllocError>
    ensures { IfOk result (λ text. text ≡ canonical query.now) }
{
    let mut printer = Printer::new(alloc);
    print_streams(&mut printer, query.streams.as_slice());
    print_front(&mut printer, &query.select);
    print_back(&mut printer, &query.select);
    Ok(Text::from_string(printer.into_string()?))
}

/// The words of a query's canonical text are a way to write that query, places aside.
pub fn text_is_read_again()
    ensures { IsReadAgain }
{}

/// The words of a query's canonical text can be said by a text, where those of the query's own text can.
pub fn text_is_sayable()
    ensures { IsSayableAgain }
{}
