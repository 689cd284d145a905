//! Prints expressions by the least brackets.

ghost use Rattle.std.specs.Prelude.{◌≡◌, [], ◌∷◌};
ghost use Rattle.ssq_lex.specs.Printing.{Adds};
ghost use Rattle.ssq_ast.specs.Expression as spec;

use crate::expr::{BinaryOp, ColumnRef, Expr, Function, NullTest, UnaryOp};
use ssq_lex::{Keyword, Printer, Symbol};

fn truth_key(value: bool) -> Keyword
    ensures { result ≡ spec.truth_key value }
{
    if value { Keyword::True } else { Keyword::False }
}

fn function_key(function: Function) -> Keyword
    ensures { result ≡ spec.function_key function }
{
    match function {
        Function::Count => Keyword::Count,
        Function::Sum => Keyword::Sum,
        Function::Min => Keyword::Min,
        Function::Max => Keyword::Max,
    }
}

fn unary_level(op: UnaryOp) -> u8
    ensures { result ≡ spec.unary_level op }
{
    match op {
        UnaryOp::Not => 2,
        UnaryOp::Minus => 6,
    }
}

fn binary_level(op: BinaryOp) -> u8
    ensures { result ≡ spec.binary_level op }
{
    match op {
        BinaryOp::Or => 0,
        BinaryOp::And => 1,
        BinaryOp::Equal
        | BinaryOp::NotEqual
        | BinaryOp::Less
        | BinaryOp::AtMost
        | BinaryOp::Greater
        | BinaryOp::AtLeast => 3,
        BinaryOp::Add | BinaryOp::Subtract | BinaryOp::Concat => 4,
        BinaryOp::Multiply | BinaryOp::Divide | BinaryOp::Remainder => 5,
    }
}

fn left_level(op: BinaryOp) -> u8
    ensures { result ≡ spec.left_level op }
{
    match op {
        BinaryOp::Or => 0,
        BinaryOp::And => 1,
        BinaryOp::Equal
        | BinaryOp::NotEqual
        | BinaryOp::Less
        | BinaryOp::AtMost
        | BinaryOp::Greater
        | BinaryOp::AtLeast => 4,
        BinaryOp::Add | BinaryOp::Subtract | BinaryOp::Concat => 4,
        BinaryOp::Multiply | BinaryOp::Divide | BinaryOp::Remainder => 5,
    }
}

fn right_level(op: BinaryOp) -> u8
    ensures { result ≡ spec.right_level op }
{
    match op {
        BinaryOp::Or => 1,
        BinaryOp::And => 2,
        BinaryOp::Equal
        | BinaryOp::NotEqual
        | BinaryOp::Less
        | BinaryOp::AtMost
        | BinaryOp::Greater
        | BinaryOp::AtLeast => 4,
        BinaryOp::Add | BinaryOp::Subtract | BinaryOp::Concat => 5,
        BinaryOp::Multiply | BinaryOp::Divide | BinaryOp::Remainder => 6,
    }
}

/// How tightly the outermost operator of an expression binds.
#[tactic(auto, using(crate::proofs::Boxes::boxes))]
fn level(value: &Expr) -> u8
    ensures { result ≡ spec.level (spec.plain value.now) }
{
    match value {
        Expr::Unary { op, .. } => unary_level(*op),
        Expr::Binary { op, .. } => binary_level(*op),
        Expr::IsNull { .. } => 3,
        Expr::Between { .. } => 3,
        _ => 7,
    }
}

#[tactic(auto, using(crate::proofs::Printed::printing))]
fn print_unary_op(printer: &mut Printer, op: UnaryOp)
    ensures { Adds printer.old (spec.unary_word op ∷ []) printer.new }
{
    match op {
        UnaryOp::Not => printer.keyword(Keyword::Not),
        UnaryOp::Minus => printer.symbol(Symbol::Minus),
    }
}

#[tactic(auto, using(crate::proofs::Printed::printing))]
fn print_binary_op(printer: &mut Printer, op: BinaryOp)
    ensures { Adds printer.old (spec.binary_word op ∷ []) printer.new }
{
    match op {
        BinaryOp::Or => printer.keyword(Keyword::Or),
        BinaryOp::And => printer.keyword(Keyword::And),
        BinaryOp::Equal => printer.symbol(Symbol::Equal),
        BinaryOp::NotEqual => printer.symbol(Symbol::NotEqual),
        BinaryOp::Less => printer.symbol(Symbol::Less),
        BinaryOp::AtMost => printer.symbol(Symbol::AtMost),
        BinaryOp::Greater => printer.symbol(Symbol::Greater),
        BinaryOp::AtLeast => printer.symbol(Symbol::AtLeast),
        BinaryOp::Add => printer.symbol(Symbol::Plus),
        BinaryOp::Subtract => printer.symbol(Symbol::Minus),
        BinaryOp::Concat => printer.symbol(Symbol::Concat),
        BinaryOp::Multiply => printer.symbol(Symbol::Star),
        BinaryOp::Divide => printer.keyword(Keyword::Div),
        BinaryOp::Remainder => printer.symbol(Symbol::Percent),
    }
}

#[tactic(auto, using(crate::proofs::Printed::printing))]
fn print_test(printer: &mut Printer, test: NullTest)
    ensures { Adds printer.old (spec.test_words test) printer.new }
{
    match test {
        NullTest::Null => printer.keyword(Keyword::Null),
        NullTest::NotNull => {
            printer.keyword(Keyword::Not);
            printer.keyword(Keyword::Null);
        }
    }
}

#[tactic(auto, using(crate::proofs::Printed::printing))]
pub(crate) fn print_column(printer: &mut Printer, column: &ColumnRef)
    ensures { Adds printer.old (spec.column_words (spec.plain_column column.now)) printer.new }
{
    if let Some(stream) = &column.stream {
        printer.name(stream.text.as_str());
        printer.symbol(Symbol::Dot);
    }
    printer.name(column.column.text.as_str());
}

/// Prints an operand, in brackets where its place asks for an operator that binds more tightly.
#[cycle(expr)]
#[tactic(auto, using(crate::proofs::Printed::printing, crate::proofs::Boxes::boxes))]
fn print_operand(printer: &mut Printer, asked: u8, value: &Expr)
    ensures { Adds printer.old (spec.words (spec.within asked (spec.plain value.now))) printer.new }
{
    if level(value) < asked {
        printer.symbol(Symbol::LeftParen);
        print_expr(printer, value);
        printer.symbol(Symbol::RightParen);
    } else {
        print_expr(printer, value);
    }
}

#[cycle(expr)]
#[tactic(auto, using(crate::proofs::Printed::printing, crate::proofs::Boxes::boxes))]
pub(crate) fn print_expr(printer: &mut Printer, value: &Expr)
    ensures { Adds printer.old (spec.words (spec.plain value.now)) printer.new }
{
    match value {
        Expr::Number { value, .. } => printer.number(*value),
        Expr::Text { value, .. } => printer.quoted(value.as_str()),
        Expr::Truth { value, .. } => printer.keyword(truth_key(*value)),
        Expr::Timestamp { value, .. } => {
            printer.keyword(Keyword::Timestamp);
            printer.quoted(value.text.as_str());
        }
        Expr::Interval { value, .. } => {
            printer.keyword(Keyword::Interval);
            printer.quoted(value.text.as_str());
        }
        Expr::Column { value } => print_column(printer, value),
        Expr::CountRows { .. } => {
            printer.keyword(Keyword::Count);
            printer.symbol(Symbol::LeftParen);
            printer.symbol(Symbol::Star);
            printer.symbol(Symbol::RightParen);
        }
        Expr::Aggregate {
            function,
            argument,
            ..
        } => {
            printer.keyword(function_key(*function));
            printer.symbol(Symbol::LeftParen);
            print_expr(printer, argument.get());
            printer.symbol(Symbol::RightParen);
        }
        Expr::Unary { op, operand, .. } => {
            print_unary_op(printer, *op);
            print_operand(printer, unary_level(*op), operand.get());
        }
        Expr::IsNull { operand, test, .. } => {
            print_operand(printer, 4, operand.get());
            printer.keyword(Keyword::Is);
            print_test(printer, *test);
        }
        Expr::Binary {
            left,
            op,
            right,
            ..
        } => {
            print_operand(printer, left_level(*op), left.get());
            print_binary_op(printer, *op);
            print_operand(printer, right_level(*op), right.get());
        }
        Expr::Between {
            operand,
            low,
            high,
            ..
        } => {
            print_operand(printer, 4, operand.get());
            printer.keyword(Keyword::Between);
            print_operand(printer, 4, low.get());
            printer.keyword(Keyword::And);
            print_operand(printer, 4, high.get());
        }
    }
}
