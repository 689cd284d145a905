//! The lines of both parts.

ghost use Rattle.std.specs.Prelude.{◌≡◌, ◌≤◌, ◌<◌, ◌%◌, ◌==◌, ◌∷◌, ◌++◌, [], List, ℕ, map, decimal, if◌then◌else◌, IfOk, OnOk};
ghost use Rattle.std.specs.List.{All};
ghost use Rattle.ssq_json.specs.RowText.{heads_of};
ghost use Rattle.ssq_time.specs.Time.{IsStampTime};
ghost use Rattle.ssq_value.specs.Kind.{IfTime};
ghost use Rattle.ssq_gen.specs.Made.{column_names, line_with, next_number, part_lines, row_with, time_of_line};

use ssq_json::{Heads, put_row};
use ssq_value::{Row, Text, Value};
use std::alloc::{AllocError, Global};

const SECOND: i64 = 1_000_000;

/// 2024-01-01T00:00:00Z.
const FIRST: i64 = 1_704_067_200 * SECOND;

/// The number after a line's.
fn next_number(x: u32) -> u32
    requires { x ≤ 65536 }
    ensures value { result ≡ next_number x }
    ensures bound { result ≤ 65536 }
{
    (75 * x + 74) % 65537
}

fn time_of_line(x: u32, at: u32) -> i64
    requires { at < 10000000 }
    ensures value { result ≡ time_of_line x at }
    ensures year { IsStampTime result }
{
    FIRST + 10 * SECOND * at as i64 - SECOND * (x % 20) as i64
}

/// The key of a line.
fn key_of_line(alloc: Global, x: u32) -> Result<Text, AllocError>
    ensures { IfOk result (λ key. key ≡ 107 ∷ decimal (x % 8)) }
{
    Ok(Text::from_string(format!(in alloc; "k{}", x % 8)?))
}

/// The row of a line.
fn row_with(alloc: Global, x: u32, at: u32) -> Result<Row, AllocError>
    requires { at < 10000000 }
    ensures row { IfOk result (λ row. row ≡ row_with x at) }
    ensures years { IfOk result (λ row. All (IfTime IsStampTime) row) }
{
    let time = Value::Time(time_of_line(x, at));
    let key = Value::Text(key_of_line(alloc, x)?);
    let value = Value::Int((x % 1000) as i64);
    Ok(Row::from_vec(vec![in alloc; time, key, value]?))
}

/// A line.
fn line_with(alloc: Global, heads: &Heads, x: u32, at: u32) -> Result<Vec<u8>, AllocError>
    requires at { at < 10000000 }
    requires heads { heads.now ≡ heads_of column_names }
    ensures { IfOk result (λ line. line.items ≡ line_with x at) }
{
    let row = row_with(alloc, x, at)?;
    let mut line = Vec::with_capacity(alloc, 64)?;
    put_row(&mut line, heads, &row)?;
    Ok(line)
}

/// The heads with one more, of the column of this name.
fn with_name(alloc: Global, mut heads: Heads, name: &str) -> Result<Heads, AllocError>
    ensures { (names : List (List ℕ)) → heads ≡ heads_of names →
        IfOk result (λ more. more ≡ heads_of (names ++ name.now ∷ [])) }
{
    let name = Text::from_str(alloc, name)?;
    heads.push(&name)?;
    Ok(heads)
}

/// The heads of a line's columns.
fn line_heads(alloc: Global) -> Result<Heads, AllocError>
    ensures { IfOk result (λ heads. heads ≡ heads_of column_names) }
{
    let time = with_name(alloc, Heads::none(alloc), "ts")?;
    let key = with_name(alloc, time, "k")?;
    with_name(alloc, key, "v")
}

/// Puts a line to its part's.
fn put_line(
    even: &mut Vec<Vec<u8>>,
    odd: &mut Vec<Vec<u8>>,
    at: u32,
    line: Vec<u8>,
) -> Result<(), AllocError>
    ensures even { OnOk result (even.new.items ≡ even.old.items ++ (if at % 2 == 0 then line ∷ [] else [])) }
    ensures odd { OnOk result (odd.new.items ≡ odd.old.items ++ (if at % 2 == 1 then line ∷ [] else [])) }
{
    if at % 2 == 0 {
        even.push(line)?;
    } else {
        odd.push(line)?;
    }
    Ok(())
}

/// The lines of both parts, where line 0 has this number: by turns one of part 0 and one of part 1.
pub(crate) fn two_parts(
    alloc: Global,
    number: u32,
    count: u32,
) -> Result<(Vec<Vec<u8>>, Vec<Vec<u8>>), AllocError>
    requires number { number ≤ 65536 }
    requires count { count ≤ 10000000 }
    ensures { IfOk result (λ parts. (map (λ line. line.items) parts.0.items ≡ part_lines number count 0)
        × (map (λ line. line.items) parts.1.items ≡ part_lines number count 1)) }
{
    let heads = line_heads(alloc)?;
    let mut even = Vec::new(alloc);
    let mut odd = Vec::new(alloc);
    let mut x = number;
    for at in 0..count {
        let line = line_with(alloc, &heads, x, at)?;
        put_line(&mut even, &mut odd, at, line)?;
        x = next_number(x);
    }
    Ok((even, odd))
}
