//! Which tokens are operators.

ghost use Rattle.std.specs.Prelude.{◌≡◌, Some, None, if◌then◌else◌};
ghost use Rattle.ssq_lex.specs.Lexeme.{lexeme};
ghost use Rattle.ssq_parse.specs.Operators as spec;
ghost use Rattle.ssq_parse.specs.Reading as reading;

use ssq_ast::{BinaryOp, UnaryOp};
use ssq_lex::{Keyword, Kind, Symbol};

/// The levels of operators between two operands, the loosest first.
#[derive(Clone, Copy)]
pub(crate) enum Level {
    Or,
    And,
    Comparison,
    Sum,
    Product,
}

/// The operator, if it is there.
fn when(is_there: bool, op: BinaryOp) -> Option<BinaryOp>
    ensures { result ≡ (if is_there then Some op else None) }
{
    if is_there { Some(op) } else { None }
}

/// The operator of a level that a token is.
#[tactic(auto, unfolding(crate::specs::Operators::operator_of))]
pub(crate) fn operator_of(level: Level, kind: Kind<'_>) -> Option<BinaryOp>
    ensures { result ≡ spec.operator_of level (lexeme kind.entry) }
{
    match (level, kind) {
        (Level::Or, Kind::Keyword(found)) => when(found == Keyword::Or, BinaryOp::Or),
        (Level::And, Kind::Keyword(found)) => when(found == Keyword::And, BinaryOp::And),
        (Level::Comparison, Kind::Symbol(Symbol::Equal)) => Some(BinaryOp::Equal),
        (Level::Comparison, Kind::Symbol(Symbol::NotEqual)) => Some(BinaryOp::NotEqual),
        (Level::Comparison, Kind::Symbol(Symbol::Less)) => Some(BinaryOp::Less),
        (Level::Comparison, Kind::Symbol(Symbol::AtMost)) => Some(BinaryOp::AtMost),
        (Level::Comparison, Kind::Symbol(Symbol::Greater)) => Some(BinaryOp::Greater),
        (Level::Comparison, Kind::Symbol(Symbol::AtLeast)) => Some(BinaryOp::AtLeast),
        (Level::Sum, Kind::Symbol(Symbol::Plus)) => Some(BinaryOp::Add),
        (Level::Sum, Kind::Symbol(Symbol::Minus)) => Some(BinaryOp::Subtract),
        (Level::Sum, Kind::Symbol(Symbol::Concat)) => Some(BinaryOp::Concat),
        (Level::Product, Kind::Symbol(Symbol::Star)) => Some(BinaryOp::Multiply),
        (Level::Product, Kind::Keyword(found)) => when(found == Keyword::Div, BinaryOp::Divide),
        (Level::Product, Kind::Symbol(Symbol::Percent)) => Some(BinaryOp::Remainder),
        _ => None,
    }
}

/// Whether a token is an operator that stands before its operand.
#[tactic(auto, unfolding(crate::specs::Operators::is_prefix))]
pub(crate) fn is_prefix(op: UnaryOp, kind: Kind<'_>) -> bool
    ensures { result ≡ spec.is_prefix op (lexeme kind.entry) }
{
    match (op, kind) {
        (UnaryOp::Not, Kind::Keyword(found)) => found == Keyword::Not,
        (UnaryOp::Minus, Kind::Symbol(found)) => found == Symbol::Minus,
        _ => false,
    }
}

pub(crate) fn is_keyword(wanted: Keyword, kind: Kind<'_>) -> bool
    ensures { result ≡ reading.is_keyword wanted (lexeme kind.entry) }
{
    match kind {
        Kind::Keyword(found) => found == wanted,
        _ => false,
    }
}

pub(crate) fn is_symbol(wanted: Symbol, kind: Kind<'_>) -> bool
    ensures { result ≡ reading.is_symbol wanted (lexeme kind.entry) }
{
    match kind {
        Kind::Symbol(found) => found == wanted,
        _ => false,
    }
}

pub(crate) fn is_name(kind: Kind<'_>) -> bool
    ensures { result ≡ reading.is_name (lexeme kind.entry) }
{
    match kind {
        Kind::Name(_) => true,
        _ => false,
    }
}
