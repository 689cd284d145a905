//! Expressions, one function for each line of the grammar.

ghost use Rattle.std.specs.Prelude.{◌≡◌, ◌<◌, map};
ghost use Rattle.ssq_lex.specs.Lexeme.{lexed};
ghost use Rattle.ssq_parse.specs.Expressions as spec;
ghost use Rattle.ssq_parse.specs.Nests.{Nests, IsReadBy, IsCallable};
ghost use Rattle.ssq_parse.specs.Reading.{Reads, Makes};
ghost use Rattle.ssq_parse.specs.Trees.{wrapped};
ghost use Rattle.ssq_parse.specs.Written.{EachIsWritten};

use crate::fault::{ParseCause, Stop};
use crate::operators::Level;
use crate::reader::Reader;
use crate::tree::{MOST_HEIGHT, Tree, between, binary, leaf, null_test, unary};
use ssq_ast::{ColumnRef, Expr, Function, Ident, NullTest, UnaryOp};
use ssq_lex::{Keyword, Kind, Symbol, Token, unquoted};
use ssq_value::Text;
use std::alloc::Global;

/// How many brackets may stand open.
const MOST_OPEN: usize = 64;

/// The rules of expressions. They take the reader of what stands in brackets as a parameter, so that each is proved by
/// itself.
#[derive(Drop)]
struct Grammar<F> {
    alloc: Global,
    /// How many brackets more may stand open.
    depth: usize,
    inner: F,
}

fn expected_at(at: usize) -> Stop
    ensures { result ≡ spec.expected_at at }
{
    Stop::Refused {
        at: Some(at),
        cause: ParseCause::Expected,
    }
}

fn too_deep(at: usize) -> Stop
    ensures { result ≡ spec.too_deep at }
{
    Stop::Refused {
        at: Some(at),
        cause: ParseCause::TooDeep,
    }
}

/// The tree of an operand after the operators that stand before it.
fn wrapped(alloc: Global, op: UnaryOp, tokens: &[Token<'_>], operand: Tree) -> Result<Tree, Stop>
    ensures { Makes (wrapped op (map lexed tokens.now) operand) result }
{
    let mut tree = operand;
    let mut left = tokens.len();
    while left > 0 {
        left -= 1;
        tree = unary(alloc, op, tokens[left].start, tree)?;
    }
    Ok(tree)
}

/// An operand, and those after it with an operator of the level in front of each, grouped to the left. No tree is higher than
/// [`MOST_HEIGHT`], so there are fewer operators.
fn chain<F: Fn(&mut Reader<'_>) -> Result<Tree, Stop>>(
    alloc: Global,
    level: Level,
    reader: &mut Reader<'_>,
    operand: F,
) -> Result<Tree, Stop>
    requires { IsCallable (F.pre operand) }
    ensures { (own : spec.Reader) → IsReadBy own (F.post operand) → Reads (spec.chain level own reader.old) result reader.new }
{
    let mut left = operand(reader)?;
    for _turn in 0..MOST_HEIGHT {
        let Some((op, at)) = reader.eat_operator(level) else {
            return Ok(left);
        };
        let right = operand(reader)?;
        left = binary(alloc, op, at, left, right)?;
    }
    Ok(left)
}

/// A column after its name or that of its stream.
#[tactic(auto, unfolding(crate::specs::Expressions::column_at))]
fn column(alloc: Global, reader: &mut Reader<'_>, name: Ident) -> Result<Tree, Stop>
    ensures { Reads (spec.column_at name reader.old) result reader.new }
{
    let at = name.at;
    let (stream, column) = match reader.eat_symbol(Symbol::Dot) {
        None => (None, name),
        Some(_dot) => (Some(name), reader.name(alloc)?),
    };
    let value = ColumnRef { stream, column };
    leaf(alloc, at, Expr::Column { value })
}

#[tactic(auto, unfolding(crate::specs::Expressions::timestamp_at))]
fn timestamp(alloc: Global, reader: &mut Reader<'_>, at: usize) -> Result<Tree, Stop>
    ensures { Reads (spec.timestamp_at at reader.old) result reader.new }
{
    let value = reader.moment(alloc)?;
    leaf(alloc, at, Expr::Timestamp { value, at })
}

#[tactic(auto, unfolding(crate::specs::Expressions::interval_at))]
fn interval(alloc: Global, reader: &mut Reader<'_>, at: usize) -> Result<Tree, Stop>
    ensures { Reads (spec.interval_at at reader.old) result reader.new }
{
    let value = reader.span(alloc)?;
    leaf(alloc, at, Expr::Interval { value, at })
}

impl<F: Fn(Global, &mut Reader<'_>, usize) -> Result<Tree, Stop>> Grammar<F> {
    /// What stands after a bracket at this place.
    #[tactic(auto, unfolding(crate::specs::Expressions::inside_at))]
    fn inside(&self, reader: &mut Reader<'_>, bracket: usize) -> Result<Tree, Stop>
        requires { Nests self.now.depth (F.pre self.now.inner) (F.post self.now.inner) }
        ensures { Reads (spec.inside_at self.now.depth (spec.expr_at self.now.depth) bracket reader.old) result reader.new }
    {
        if self.depth == 0 {
            return Err(too_deep(bracket));
        }
        (self.inner)(self.alloc, reader, self.depth)
    }

    #[tactic(auto, unfolding(crate::specs::Expressions::bracketed_at))]
    fn bracketed(&self, reader: &mut Reader<'_>, bracket: usize) -> Result<Tree, Stop>
        requires { Nests self.now.depth (F.pre self.now.inner) (F.post self.now.inner) }
        ensures { Reads (spec.bracketed_at self.now.depth (spec.expr_at self.now.depth) bracket reader.old) result reader.new }
    {
        let inside = self.inside(reader, bracket)?;
        reader.symbol(Symbol::RightParen)?;
        Ok(Tree {
            value: inside.value,
            at: bracket,
            height: inside.height,
        })
    }

    #[tactic(auto, unfolding(crate::specs::Expressions::argument_at))]
    fn argument(
        &self,
        reader: &mut Reader<'_>,
        function: Function,
        at: usize,
        bracket: usize,
    ) -> Result<Tree, Stop>
        requires { Nests self.now.depth (F.pre self.now.inner) (F.post self.now.inner) }
        ensures { Reads (spec.argument_at self.now.depth (spec.expr_at self.now.depth) function at bracket reader.old) result reader.new }
    {
        let inside = self.inside(reader, bracket)?;
        reader.symbol(Symbol::RightParen)?;
        let value = Expr::Aggregate {
            function,
            at,
            argument: inside.value,
        };
        leaf(self.alloc, at, value)
    }

    #[tactic(auto, unfolding(crate::specs::Expressions::aggregate_at))]
    fn aggregate(
        &self,
        reader: &mut Reader<'_>,
        function: Function,
        at: usize,
    ) -> Result<Tree, Stop>
        requires { Nests self.now.depth (F.pre self.now.inner) (F.post self.now.inner) }
        ensures { Reads (spec.aggregate_at self.now.depth (spec.expr_at self.now.depth) function at reader.old) result reader.new }
    {
        let bracket = reader.symbol(Symbol::LeftParen)?;
        self.argument(reader, function, at, bracket)
    }

    /// COUNT, of rows or of an argument.
    #[tactic(auto, unfolding(crate::specs::Expressions::count_at))]
    fn count(&self, reader: &mut Reader<'_>, at: usize) -> Result<Tree, Stop>
        requires { Nests self.now.depth (F.pre self.now.inner) (F.post self.now.inner) }
        ensures { Reads (spec.count_at self.now.depth (spec.expr_at self.now.depth) at reader.old) result reader.new }
    {
        let bracket = reader.symbol(Symbol::LeftParen)?;
        if reader.eat_symbol(Symbol::Star).is_none() {
            return self.argument(reader, Function::Count, at, bracket);
        }
        if self.depth == 0 {
            return Err(too_deep(bracket));
        }
        reader.symbol(Symbol::RightParen)?;
        leaf(self.alloc, at, Expr::CountRows { at })
    }

    /// An operand that begins with a keyword.
    #[tactic(auto, unfolding(crate::specs::Expressions::worded_at))]
    fn worded(&self, reader: &mut Reader<'_>, keyword: Keyword, at: usize) -> Result<Tree, Stop>
        requires { Nests self.now.depth (F.pre self.now.inner) (F.post self.now.inner) }
        ensures { Reads (spec.worded_at self.now.depth (spec.expr_at self.now.depth) keyword at reader.old) result reader.new }
    {
        match keyword {
            Keyword::True => leaf(self.alloc, at, Expr::Truth { value: true, at }),
            Keyword::False => leaf(self.alloc, at, Expr::Truth { value: false, at }),
            Keyword::Timestamp => timestamp(self.alloc, reader, at),
            Keyword::Interval => interval(self.alloc, reader, at),
            Keyword::Count => self.count(reader, at),
            Keyword::Sum => self.aggregate(reader, Function::Sum, at),
            Keyword::Min => self.aggregate(reader, Function::Min, at),
            Keyword::Max => self.aggregate(reader, Function::Max, at),
            _ => Err(expected_at(at)),
        }
    }

    #[tactic(auto, unfolding(crate::specs::Expressions::primary_at))]
    fn primary(&self, reader: &mut Reader<'_>) -> Result<Tree, Stop>
        requires { Nests self.now.depth (F.pre self.now.inner) (F.post self.now.inner) }
        ensures { Reads (spec.primary_at self.now.depth (spec.expr_at self.now.depth) reader.old) result reader.new }
    {
        let expected = reader.expected();
        let Some(
            Token {
                start: at,
                kind,
                ..
            },
        ) = reader.next()
        else {
            return Err(expected);
        };
        match kind {
            Kind::Number(value) => leaf(self.alloc, at, Expr::Number { value, at }),
            Kind::Text(content) => {
                let value = Text::from_string(unquoted(self.alloc, content)?);
                leaf(self.alloc, at, Expr::Text { value, at })
            }
            Kind::Name(name) => {
                let text = Text::from_str(self.alloc, name)?;
                column(self.alloc, reader, Ident { text, at })
            }
            Kind::Keyword(keyword) => self.worded(reader, keyword, at),
            Kind::Symbol(Symbol::LeftParen) => self.bracketed(reader, at),
            Kind::Symbol(_) => Err(expected_at(at)),
        }
    }

    #[tactic(auto, unfolding(crate::specs::Expressions::signed_at))]
    fn signed(&self, reader: &mut Reader<'_>) -> Result<Tree, Stop>
        requires { Nests self.now.depth (F.pre self.now.inner) (F.post self.now.inner) }
        ensures { Reads (spec.signed_at self.now.depth (spec.expr_at self.now.depth) reader.old) result reader.new }
    {
        let prefixes = reader.prefixes(UnaryOp::Minus);
        let operand = self.primary(reader)?;
        wrapped(self.alloc, UnaryOp::Minus, prefixes, operand)
    }

    #[tactic(auto, unfolding(crate::specs::Expressions::product_at))]
    fn product(&self, reader: &mut Reader<'_>) -> Result<Tree, Stop>
        requires { Nests self.now.depth (F.pre self.now.inner) (F.post self.now.inner) }
        ensures { Reads (spec.product_at self.now.depth (spec.expr_at self.now.depth) reader.old) result reader.new }
    {
        chain(
            self.alloc,
            Level::Product,
            reader,
            |reader: &mut Reader<'_>| { self.signed(reader) },
        )
    }

    #[tactic(auto, unfolding(crate::specs::Expressions::sum_at))]
    fn sum(&self, reader: &mut Reader<'_>) -> Result<Tree, Stop>
        requires { Nests self.now.depth (F.pre self.now.inner) (F.post self.now.inner) }
        ensures { Reads (spec.sum_at self.now.depth (spec.expr_at self.now.depth) reader.old) result reader.new }
    {
        chain(self.alloc, Level::Sum, reader, |reader: &mut Reader<'_>| {
            self.product(reader)
        })
    }

    #[tactic(auto, unfolding(crate::specs::Expressions::null_test_at))]
    fn null_test(&self, reader: &mut Reader<'_>, at: usize, left: Tree) -> Result<Tree, Stop>
        ensures { Reads (spec.null_test_at self.now.depth (spec.expr_at self.now.depth) at left reader.old) result reader.new }
    {
        let test = match reader.eat_keyword(Keyword::Not) {
            None => NullTest::Null,
            Some(_) => NullTest::NotNull,
        };
        let tested = null_test(self.alloc, test, at, left)?;
        reader.keyword(Keyword::Null)?;
        Ok(tested)
    }

    #[tactic(auto, unfolding(crate::specs::Expressions::between_at))]
    fn between(&self, reader: &mut Reader<'_>, at: usize, left: Tree) -> Result<Tree, Stop>
        requires { Nests self.now.depth (F.pre self.now.inner) (F.post self.now.inner) }
        ensures { Reads (spec.between_at self.now.depth (spec.expr_at self.now.depth) at left reader.old) result reader.new }
    {
        let low = self.sum(reader)?;
        reader.keyword(Keyword::And)?;
        let high = self.sum(reader)?;
        between(self.alloc, at, left, low, high)
    }

    #[tactic(auto, unfolding(crate::specs::Expressions::comparison_at))]
    fn comparison(&self, reader: &mut Reader<'_>) -> Result<Tree, Stop>
        requires { Nests self.now.depth (F.pre self.now.inner) (F.post self.now.inner) }
        ensures { Reads (spec.comparison_at self.now.depth (spec.expr_at self.now.depth) reader.old) result reader.new }
    {
        let left = self.sum(reader)?;
        if let Some((op, at)) = reader.eat_operator(Level::Comparison) {
            let right = self.sum(reader)?;
            return binary(self.alloc, op, at, left, right);
        }
        if let Some(at) = reader.eat_keyword(Keyword::Is) {
            return self.null_test(reader, at, left);
        }
        if let Some(at) = reader.eat_keyword(Keyword::Between) {
            return self.between(reader, at, left);
        }
        Ok(left)
    }

    #[tactic(auto, unfolding(crate::specs::Expressions::negation_at))]
    fn negation(&self, reader: &mut Reader<'_>) -> Result<Tree, Stop>
        requires { Nests self.now.depth (F.pre self.now.inner) (F.post self.now.inner) }
        ensures { Reads (spec.negation_at self.now.depth (spec.expr_at self.now.depth) reader.old) result reader.new }
    {
        let prefixes = reader.prefixes(UnaryOp::Not);
        let operand = self.comparison(reader)?;
        wrapped(self.alloc, UnaryOp::Not, prefixes, operand)
    }

    #[tactic(auto, unfolding(crate::specs::Expressions::conjunction_at))]
    fn conjunction(&self, reader: &mut Reader<'_>) -> Result<Tree, Stop>
        requires { Nests self.now.depth (F.pre self.now.inner) (F.post self.now.inner) }
        ensures { Reads (spec.conjunction_at self.now.depth (spec.expr_at self.now.depth) reader.old) result reader.new }
    {
        chain(self.alloc, Level::And, reader, |reader: &mut Reader<'_>| {
            self.negation(reader)
        })
    }

    #[tactic(auto, unfolding(crate::specs::Expressions::disjunction_at))]
    fn disjunction(&self, reader: &mut Reader<'_>) -> Result<Tree, Stop>
        requires { Nests self.now.depth (F.pre self.now.inner) (F.post self.now.inner) }
        ensures { Reads (spec.disjunction_at self.now.depth (spec.expr_at self.now.depth) reader.old) result reader.new }
    {
        chain(self.alloc, Level::Or, reader, |reader: &mut Reader<'_>| {
            self.conjunction(reader)
        })
    }
}

/// An expression, with brackets nested less deep than this.
fn nested(alloc: Global, reader: &mut Reader<'_>, depth: usize) -> Result<Tree, Stop>
    requires { 0 < depth }
    ensures { Reads (spec.expr_at depth reader.old) result reader.new }
{
    Grammar {
        alloc,
        depth: depth - 1,
        inner: nested,
    }
    .disjunction(reader)
}

/// An expression.
#[tactic(auto, unfolding(crate::specs::Expressions::whole_at))]
pub(crate) fn expr(alloc: Global, reader: &mut Reader<'_>) -> Result<Tree, Stop>
    ensures { Reads (spec.whole_at reader.old) result reader.new }
{
    nested(alloc, reader, MOST_OPEN + 1)
}

/// Each expression that is read is one of the grammar, as it is written there, with its places.
pub fn expressions_are_written()
    ensures { EachIsWritten }
{}
