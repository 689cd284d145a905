//! Worked values of expressions, as tables.

use crate::bound::bound_of;
use sqlite_items::Boxed;
use ssq_expr::{EvalFault, eval, passes, show};
use ssq_shape::{Arithmetic, Comparison, Typed};
use ssq_value::{Text, Value};
use std::alloc::Global;
use std::process::Abort;
use std::test::Fail;

const FIRST_TIME: i64 = -62_135_596_800_000_000;

const LAST_TIME: i64 = 253_402_300_799_999_999;

fn column(alloc: Global, at: usize) -> Result<Boxed<Typed>, Fail> {
    Ok(Boxed::new(alloc, Typed::Column(at))?)
}

fn constant(alloc: Global, number: i64) -> Result<Boxed<Typed>, Fail> {
    Ok(Boxed::new(alloc, Typed::Constant(Value::Int(number)))?)
}

/// `op` on the first two columns.
fn calculation(alloc: Global, op: Arithmetic) -> Result<Typed, Fail> {
    let left = column(alloc, 0)?;
    let right = column(alloc, 1)?;
    Ok(Typed::Arithmetic(op, left, right))
}

/// How two columns compare.
fn comparison(alloc: Global, comparison: Comparison, a: usize, b: usize) -> Result<Typed, Fail> {
    let left = column(alloc, a)?;
    let right = column(alloc, b)?;
    Ok(Typed::Compared(comparison, left, right))
}

/// `9223372036854775807 + 1`
fn too_great(alloc: Global) -> Result<Boxed<Typed>, Fail> {
    let greatest = constant(alloc, i64::MAX)?;
    let one = constant(alloc, 1)?;
    Ok(Boxed::new(alloc, Typed::Arithmetic(Arithmetic::Plus, greatest, one))?)
}

/// `9223372036854775807 + 1 > 0`
fn overflowing(alloc: Global) -> Result<Boxed<Typed>, Fail> {
    let sum = too_great(alloc)?;
    let zero = constant(alloc, 0)?;
    Ok(Boxed::new(alloc, Typed::Compared(Comparison::Greater, sum, zero))?)
}

/// AND of the first column and the overflow.
fn and_overflow(alloc: Global) -> Result<Typed, Fail> {
    let left = column(alloc, 0)?;
    let right = overflowing(alloc)?;
    Ok(Typed::And(left, right))
}

/// OR of the first column and the overflow.
fn or_overflow(alloc: Global) -> Result<Typed, Fail> {
    let left = column(alloc, 0)?;
    let right = overflowing(alloc)?;
    Ok(Typed::Or(left, right))
}

/// AND of the first two columns.
fn conjunction(alloc: Global) -> Result<Typed, Fail> {
    let left = column(alloc, 0)?;
    let right = column(alloc, 1)?;
    Ok(Typed::And(left, right))
}

/// OR of the first two columns.
fn disjunction(alloc: Global) -> Result<Typed, Fail> {
    let left = column(alloc, 0)?;
    let right = column(alloc, 1)?;
    Ok(Typed::Or(left, right))
}

/// The first column, between a least and a most.
fn between(alloc: Global, least: Boxed<Typed>, most: Boxed<Typed>) -> Result<Typed, Fail> {
    let value = column(alloc, 0)?;
    Ok(Typed::Between(value, least, most))
}

/// The first three columns, in BETWEEN.
fn between_columns(alloc: Global) -> Result<Typed, Fail> {
    let least = column(alloc, 1)?;
    let most = column(alloc, 2)?;
    between(alloc, least, most)
}

/// The first column, between 1 and an overflow.
fn between_overflow(alloc: Global) -> Result<Typed, Fail> {
    let least = constant(alloc, 1)?;
    let most = too_great(alloc)?;
    between(alloc, least, most)
}

/// Two columns, joined.
fn joined(alloc: Global, right: usize) -> Result<Typed, Fail> {
    let left = column(alloc, 0)?;
    let right = column(alloc, right)?;
    Ok(Typed::Joined(left, right))
}

/// That an expression gives this on a row.
fn gives(
    rt: &impl Abort,
    alloc: Global,
    expression: Typed,
    row: &[Value],
    wanted: Result<Value, EvalFault>,
) {
    let found = eval(alloc, &expression, row);
    assert!(rt; found == wanted);
}

fn number(number: Option<i64>) -> Value {
    number.map_or(Value::Null, Value::Int)
}

fn truth(truth: Option<bool>) -> Value {
    truth.map_or(Value::Null, Value::Truth)
}

fn text(alloc: Global, text: &str) -> Result<Value, Fail> {
    Ok(Value::Text(Text::from_str(alloc, text)?))
}

/// The operator, its operands, and the number that it gives; none where it overflows.
static CALCULATED: [(Arithmetic, i64, i64, Option<i64>); 19] = [
    (Arithmetic::Quotient, -7, 2, Some(-3)),
    (Arithmetic::Remainder, -7, 2, Some(-1)),
    (Arithmetic::Quotient, 7, -2, Some(-3)),
    (Arithmetic::Remainder, 7, -2, Some(1)),
    (Arithmetic::Quotient, i64::MIN, -1, None),
    (Arithmetic::Quotient, i64::MIN, 1, Some(i64::MIN)),
    (Arithmetic::Remainder, i64::MIN, -1, Some(0)),
    (Arithmetic::Plus, i64::MAX, 0, Some(i64::MAX)),
    (Arithmetic::Plus, i64::MAX, 1, None),
    (Arithmetic::Plus, i64::MIN, -1, None),
    (Arithmetic::Minus, -1, i64::MAX, Some(i64::MIN)),
    (Arithmetic::Minus, -2, i64::MAX, None),
    (Arithmetic::Minus, 0, i64::MIN, None),
    (Arithmetic::Minus, 5, 7, Some(-2)),
    (Arithmetic::Times, i64::MIN, 1, Some(i64::MIN)),
    (Arithmetic::Times, i64::MIN, -1, None),
    (
        Arithmetic::Times,
        3_037_000_499,
        3_037_000_499,
        Some(9_223_372_030_926_249_001),
    ),
    (Arithmetic::Times, 3_037_000_500, 3_037_000_500, None),
    (Arithmetic::Times, -6, 7, Some(-42)),
];

#[test]
fn numbers_are_calculated(rt: HostRuntime) -> Result<(), Fail> {
    let alloc = rt.alloc();
    for &(op, a, b, wanted) in &CALCULATED {
        let calculated = calculation(alloc, op)?;
        let wanted = wanted.map(Value::Int).ok_or(EvalFault::Overflow);
        gives(
            &rt,
            alloc,
            calculated,
            &[Value::Int(a), Value::Int(b)],
            wanted,
        );
        let calculated = calculation(alloc, op)?;
        gives(
            &rt,
            alloc,
            calculated,
            &[Value::Null, Value::Int(b)],
            Ok(Value::Null),
        );
        let calculated = calculation(alloc, op)?;
        gives(
            &rt,
            alloc,
            calculated,
            &[Value::Int(a), Value::Null],
            Ok(Value::Null),
        );
    }
    Ok(())
}

/// A number, and what a minus sign before it gives; none where it overflows.
static NEGATED: [(Option<i64>, Option<Option<i64>>); 3] = [
    (Some(i64::MAX), Some(Some(-9_223_372_036_854_775_807))),
    (Some(i64::MIN), None),
    (None, Some(None)),
];

#[test]
fn numbers_are_negated(rt: HostRuntime) -> Result<(), Fail> {
    let alloc = rt.alloc();
    for &(value, wanted) in &NEGATED {
        let negated = Typed::Negated(column(alloc, 0)?);
        let wanted = wanted.map(number).ok_or(EvalFault::Overflow);
        gives(&rt, alloc, negated, &[number(value)], wanted);
    }
    Ok(())
}

/// Two sides, what AND gives for them, and what OR gives.
static CONNECTED: [(Option<bool>, Option<bool>, Option<bool>, Option<bool>); 9] = [
    (Some(true), Some(true), Some(true), Some(true)),
    (Some(true), Some(false), Some(false), Some(true)),
    (Some(true), None, None, Some(true)),
    (Some(false), Some(true), Some(false), Some(true)),
    (Some(false), Some(false), Some(false), Some(false)),
    (Some(false), None, Some(false), None),
    (None, Some(true), None, Some(true)),
    (None, Some(false), Some(false), None),
    (None, None, None, None),
];

#[test]
fn logic_is_three_valued(rt: HostRuntime) -> Result<(), Fail> {
    let alloc = rt.alloc();
    for &(a, b, both, either) in &CONNECTED {
        let and = conjunction(alloc)?;
        gives(&rt, alloc, and, &[truth(a), truth(b)], Ok(truth(both)));
        let or = disjunction(alloc)?;
        gives(&rt, alloc, or, &[truth(a), truth(b)], Ok(truth(either)));
        let not = Typed::Not(column(alloc, 0)?);
        gives(&rt, alloc, not, &[truth(a)], Ok(truth(a.map(|a| !a))));
    }
    Ok(())
}

/// A left side, and what AND and OR give for it where the right side overflows; none where that counts.
static LEFT_FIRST: [(Option<bool>, Option<bool>, Option<bool>); 3] = [
    (Some(true), None, Some(true)),
    (Some(false), Some(false), None),
    (None, None, None),
];

#[test]
fn what_decides_leaves_the_right_unevaluated(rt: HostRuntime) -> Result<(), Fail> {
    let alloc = rt.alloc();
    for &(left, both, either) in &LEFT_FIRST {
        let and = and_overflow(alloc)?;
        let both = both.map(Value::Truth).ok_or(EvalFault::Overflow);
        gives(&rt, alloc, and, &[truth(left)], both);
        let or = or_overflow(alloc)?;
        let either = either.map(Value::Truth).ok_or(EvalFault::Overflow);
        gives(&rt, alloc, or, &[truth(left)], either);
    }
    Ok(())
}

/// A value, the least and the most, and whether it is between them.
static BETWEEN: [(Option<i64>, Option<i64>, Option<i64>, Option<bool>); 11] = [
    (Some(2), Some(1), Some(3), Some(true)),
    (Some(1), Some(1), Some(3), Some(true)),
    (Some(3), Some(1), Some(3), Some(true)),
    (Some(0), Some(1), Some(3), Some(false)),
    (Some(4), Some(1), Some(3), Some(false)),
    (None, Some(1), Some(3), None),
    (Some(2), None, Some(3), None),
    (Some(4), None, Some(3), Some(false)),
    (Some(2), Some(1), None, None),
    (Some(0), Some(1), None, Some(false)),
    (Some(2), None, None, None),
];

#[test]
fn between_has_both_ends(rt: HostRuntime) -> Result<(), Fail> {
    let alloc = rt.alloc();
    for &(value, least, most, wanted) in &BETWEEN {
        let between = between_columns(alloc)?;
        let row = [number(value), number(least), number(most)];
        gives(&rt, alloc, between, &row, Ok(truth(wanted)));
    }
    let below = between_overflow(alloc)?;
    gives(&rt, alloc, below, &[Value::Int(0)], Ok(Value::Truth(false)));
    let within = between_overflow(alloc)?;
    gives(
        &rt,
        alloc,
        within,
        &[Value::Int(1)],
        Err(EvalFault::Overflow),
    );
    Ok(())
}

/// A time, a span, and the time that they give; none where it cannot be printed.
static SHIFTED: [(i64, i64, Option<i64>); 7] = [
    (0, 86_400_000_000, Some(86_400_000_000)),
    (0, -1_000_000, Some(-1_000_000)),
    (FIRST_TIME + 1, -1, Some(FIRST_TIME)),
    (FIRST_TIME, -1, None),
    (LAST_TIME - 1, 1, Some(LAST_TIME)),
    (LAST_TIME, 1, None),
    (LAST_TIME, i64::MAX, None),
];

#[test]
fn times_stay_in_their_years(rt: HostRuntime) -> Result<(), Fail> {
    let alloc = rt.alloc();
    for &(time, by, wanted) in &SHIFTED {
        let shifted = Typed::Shifted(column(alloc, 0)?, by);
        let wanted = wanted.map(Value::Time).ok_or(EvalFault::Overflow);
        gives(&rt, alloc, shifted, &[Value::Time(time)], wanted);
    }
    let shifted = Typed::Shifted(column(alloc, 0)?, 1);
    gives(&rt, alloc, shifted, &[Value::Null], Ok(Value::Null));
    let last = Typed::Constant(Value::Time(LAST_TIME));
    gives(&rt, alloc, last, &[], Ok(Value::Time(LAST_TIME)));
    let later = Typed::Constant(Value::Time(LAST_TIME + 1));
    gives(&rt, alloc, later, &[], Err(EvalFault::Overflow));
    Ok(())
}

fn letters(alloc: Global, count: usize) -> Result<Value, Fail> {
    let mut text = String::with_capacity(alloc, count)?;
    for _ in 0..count {
        text.push('a')?;
    }
    Ok(Value::Text(Text::from_string(text)))
}

/// The lengths of two texts, and whether `||` joins them.
static LENGTHS: [(usize, usize, bool); 5] = [
    (0, 0, true),
    (1_048_575, 1, true),
    (1_048_576, 0, true),
    (1_048_576, 1, false),
    (1, 1_048_576, false),
];

/// That a text of so many letters and one of so many others are joined, or are too long for it.
fn joins(rt: &impl Abort, alloc: Global, a: usize, b: usize, fits: bool) -> Result<(), Fail> {
    let wanted = if fits {
        Ok(letters(alloc, a.saturating_add(b))?)
    } else {
        Err(EvalFault::Overflow)
    };
    let expression = joined(alloc, 1)?;
    let row = [letters(alloc, a)?, letters(alloc, b)?];
    gives(rt, alloc, expression, &row, wanted);
    Ok(())
}

#[test]
fn texts_are_joined(rt: HostRuntime) -> Result<(), Fail> {
    let alloc = rt.alloc();
    for &(a, b, fits) in &LENGTHS {
        joins(&rt, alloc, a, b, fits)?;
    }
    let expression = joined(alloc, 1)?;
    let wanted = text(alloc, "éb")?;
    let row = [text(alloc, "é")?, text(alloc, "b")?];
    gives(&rt, alloc, expression, &row, Ok(wanted));
    let expression = joined(alloc, 1)?;
    let row = [text(alloc, "é")?, Value::Null];
    gives(&rt, alloc, expression, &row, Ok(Value::Null));
    Ok(())
}

/// A comparison, and what it gives for a lower and a higher value, for two equal ones, and for a higher and a lower one.
static COMPARED: [(Comparison, bool, bool, bool); 6] = [
    (Comparison::Equal, false, true, false),
    (Comparison::NotEqual, true, false, true),
    (Comparison::Less, true, false, false),
    (Comparison::AtMost, true, true, false),
    (Comparison::Greater, false, false, true),
    (Comparison::AtLeast, false, true, true),
];

fn compares(rt: &impl Abort, alloc: Global, low: Value, high: Value) -> Result<(), Fail> {
    let row = [low, high, Value::Null];
    for &(kind, rising, level, falling) in &COMPARED {
        for (a, b, wanted) in [
            (0, 1, Some(rising)),
            (1, 1, Some(level)),
            (1, 0, Some(falling)),
            (0, 2, None),
            (2, 1, None),
            (2, 2, None),
        ] {
            let compared = comparison(alloc, kind, a, b)?;
            gives(rt, alloc, compared, &row, Ok(truth(wanted)));
        }
    }
    Ok(())
}

#[test]
fn equal_types_are_compared(rt: HostRuntime) -> Result<(), Fail> {
    let alloc = rt.alloc();
    compares(&rt, alloc, Value::Int(i64::MIN), Value::Int(-1))?;
    compares(&rt, alloc, Value::Int(9), Value::Int(10))?;
    compares(&rt, alloc, Value::Time(-1), Value::Time(0))?;
    compares(&rt, alloc, Value::Truth(false), Value::Truth(true))?;
    compares(&rt, alloc, text(alloc, "10")?, text(alloc, "9")?)?;
    compares(&rt, alloc, text(alloc, "Z")?, text(alloc, "a")?)?;
    compares(&rt, alloc, text(alloc, "")?, text(alloc, "a")?)?;
    Ok(())
}

#[test]
fn null_is_told(rt: HostRuntime) -> Result<(), Fail> {
    let alloc = rt.alloc();
    for (value, absent) in [(None, true), (Some(0), false)] {
        let null = Typed::IsNull(column(alloc, 0)?);
        gives(&rt, alloc, null, &[number(value)], Ok(Value::Truth(absent)));
    }
    let itself = comparison(alloc, Comparison::Equal, 0, 0)?;
    gives(&rt, alloc, itself, &[Value::Null], Ok(Value::Null));
    Ok(())
}

/// `v > 10`, of the second column.
fn above_ten(alloc: Global) -> Result<Typed, Fail> {
    let v = column(alloc, 1)?;
    let ten = constant(alloc, 10)?;
    Ok(Typed::Compared(Comparison::Greater, v, ten))
}

#[test]
fn rows_are_filtered(rt: HostRuntime) -> Result<(), Fail> {
    let alloc = rt.alloc();
    for (v, passing) in [(Some(11), true), (Some(10), false), (None, false)] {
        let filter = Some(above_ten(alloc)?);
        let row = [Value::Int(1), number(v)];
        assert!(rt; passes(alloc, &filter, &row) == Ok(passing));
        assert!(rt; passes(alloc, &None, &row) == Ok(true));
    }
    Ok(())
}

#[test]
fn rows_are_shown(rt: HostRuntime) -> Result<(), Fail> {
    let alloc = rt.alloc();
    let bound = bound_of(
        alloc,
        b"CREATE STREAM s (id BIGINT, v BIGINT) FROM 's'; SELECT id, - v AS w FROM s OUTPUT APPEND;",
    )?;
    let fault = show(alloc, &bound, &[Value::Null, Value::Int(i64::MIN)]);
    assert!(rt; fault.is_err());
    let Some(row) = show(alloc, &bound, &[Value::Int(7), Value::Int(5)])? else {
        return Err(Fail::from("no row"));
    };
    assert!(rt; row.as_slice() == [Value::Int(7), Value::Int(-5)].as_slice());
    Ok(())
}
