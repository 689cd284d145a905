//! The bytes of totals, and totals out of them.

ghost use Rattle.std.specs.Prelude.{◌≡◌, ◌<◌, ◌^◌, ◌++◌, Some, ℕ, ℤ, List, All, FitsSigned, IfOk, IfSome, IsSomeAnd, OnOk};
ghost use Rattle.std.specs.Int.{w64, w128, to_be_bytes};
ghost use Rattle.ssq_field.specs.Field.{twos_complement};
ghost use Rattle.ssq_value.specs.Key.{key_of};
ghost use Rattle.ssq_meaning.specs.Fit.{IsFit};
ghost use Rattle.ssq_meaning.specs.declared.total.Total.{Total as Sum};
ghost use Rattle.ssq_meaning.specs.Totals.{total_bytes, totals_bytes};
ghost use Rattle.ssq_agg.specs.Readable.{AreTotalsOf, IsFitTotal, IsTotalOf};

use crate::totals::Totals;
use ssq_field::{take_be64, take_be128};
use ssq_keys::value_and_rest;
use ssq_meaning::Total;
use ssq_shape::{Aggregate, Function};
use ssq_value::{Value, put_key};
use std::alloc::{AllocError, Global};
use std::slice;

fn put_sum(out: &mut Vec<u8>, sum: i128) -> Result<(), AllocError>
    ensures { OnOk result (out.new.items ≡ out.old.items ++ twos_complement sum) }
{
    out.extend_from_slice(&sum.cast_unsigned().to_be_bytes())
}

fn put_counted(out: &mut Vec<u8>, count: u64, sum: i128) -> Result<(), AllocError>
    ensures { OnOk result (out.new.items ≡ out.old.items ++ (to_be_bytes w64 count ++ twos_complement sum)) }
{
    out.extend_from_slice(&count.to_be_bytes())?;
    put_sum(out, sum)
}

#[tactic(auto, using(crate::proofs::Spellings::key_of_one))]
fn put_value(out: &mut Vec<u8>, value: &Value) -> Result<(), AllocError>
    requires { IsFit value.now }
    ensures { OnOk result (out.new.items ≡ out.old.items ++ key_of value.now) }
{
    put_key(out, slice::from_ref(value))
}

#[tactic(auto, using(crate::proofs::Spellings::sum_bytes))]
fn put_total(out: &mut Vec<u8>, total: &Total) -> Result<(), AllocError>
    requires { IsFitTotal total.now }
    ensures { OnOk result (out.new.items ≡ out.old.items ++ total_bytes total.now) }
{
    match total {
        Total::Count(count) => out.extend_from_slice(&count.to_be_bytes()),
        Total::Sum { count, sum } => put_counted(out, *count, *sum),
        Total::Least(value) => put_value(out, value),
        Total::Greatest(value) => put_value(out, value),
    }
}

/// How many bytes the totals take, so that these grow but once.
fn room(totals: &[Total]) -> usize {
    let mut room: usize = 0;
    for total in totals {
        room = room.saturating_add(match total {
            Total::Count(_) => 8,
            Total::Sum { .. } => 24,
            Total::Least(Value::Text(text)) | Total::Greatest(Value::Text(text)) => {
                text.len().saturating_add(5)
            }
            Total::Least(_) | Total::Greatest(_) => 9,
        });
    }
    room
}

/// The bytes in which the totals are kept.
pub(crate) fn bytes_of(alloc: Global, totals: &[Total]) -> Result<Vec<u8>, AllocError>
    requires { All IsFitTotal totals.now }
    ensures { IfOk result (λ bytes. bytes.items ≡ totals_bytes totals.now) }
{
    let mut bytes = Vec::with_capacity(alloc, room(totals))?;
    for total in totals {
        put_total(&mut bytes, total)?;
    }
    Ok(bytes)
}

/// The number of values in front, and what follows it.
fn count_and_rest(bytes: &[u8]) -> Option<(u64, &[u8])>
    ensures found { IfSome result (λ parts. bytes.now ≡ to_be_bytes w64 parts.0 ++ parts.1.now) }
    ensures each { (count : ℕ) (rest : List ℕ) → count < 2 ^ 64 → bytes.now ≡ to_be_bytes w64 count ++ rest →
        IsSomeAnd result (λ parts. (parts.0 ≡ count) × (parts.1.now ≡ rest)) }
{
    let (count, taken) = take_be64(bytes)?;
    Some((count, &bytes[taken..]))
}

/// The sum in front, and what follows it.
fn sum_and_rest(bytes: &[u8]) -> Option<(i128, &[u8])>
    ensures found { IfSome result (λ parts. bytes.now ≡ twos_complement parts.0 ++ parts.1.now) }
    ensures fits { IfSome result (λ parts. FitsSigned w128 parts.0) }
    ensures each { (sum : ℤ) (rest : List ℕ) → FitsSigned w128 sum → bytes.now ≡ twos_complement sum ++ rest →
        IsSomeAnd result (λ parts. (parts.0 ≡ sum) × (parts.1.now ≡ rest)) }
{
    let field = take_be128(bytes)?;
    Some((field.0, &bytes[field.1..]))
}

fn counted_and_rest(bytes: &[u8]) -> Option<(Total, &[u8])>
    ensures found { IfSome result (λ parts. bytes.now ≡ total_bytes parts.0 ++ parts.1.now) }
    ensures readable { IfSome result (λ parts. IsTotalOf Function.Count parts.0) }
    ensures each { (own : Sum) (rest : List ℕ) → IsTotalOf Function.Count own → bytes.now ≡ total_bytes own ++ rest →
        IsSomeAnd result (λ parts. (parts.0 ≡ own) × (parts.1.now ≡ rest)) }
{
    let (count, rest) = count_and_rest(bytes)?;
    Some((Total::Count(count), rest))
}

fn summed_and_rest(bytes: &[u8]) -> Option<(Total, &[u8])>
    ensures found { IfSome result (λ parts. bytes.now ≡ total_bytes parts.0 ++ parts.1.now) }
    ensures readable { IfSome result (λ parts. IsTotalOf Function.Sum parts.0) }
    ensures each { (own : Sum) (rest : List ℕ) → IsTotalOf Function.Sum own → bytes.now ≡ total_bytes own ++ rest →
        IsSomeAnd result (λ parts. (parts.0 ≡ own) × (parts.1.now ≡ rest)) }
{
    let (count, behind) = count_and_rest(bytes)?;
    let parts = sum_and_rest(behind)?;
    Some((
        Total::Sum {
            count,
            sum: parts.0,
        },
        parts.1,
    ))
}

/// The total of this function in front, and what follows it.
fn total_and_rest(
    alloc: Global,
    function: Function,
    bytes: &[u8],
) -> Result<Option<(Total, &[u8])>, AllocError>
    ensures found { IfOk result (λ found. IfSome found (λ parts. bytes.now ≡ total_bytes parts.0 ++ parts.1.now)) }
    ensures readable { IfOk result (λ found. IfSome found (λ parts. IsTotalOf function parts.0)) }
    ensures each { (own : Sum) (rest : List ℕ) → IsTotalOf function own → bytes.now ≡ total_bytes own ++ rest →
        IfOk result (λ found. IsSomeAnd found (λ parts. (parts.0 ≡ own) × (parts.1.now ≡ rest))) }
{
    match function {
        Function::Count => Ok(counted_and_rest(bytes)),
        Function::Sum => Ok(summed_and_rest(bytes)),
        Function::Min => match value_and_rest(alloc, bytes)? {
            Some((value, rest)) => Ok(Some((Total::Least(value), rest))),
            None => Ok(None),
        },
        Function::Max => match value_and_rest(alloc, bytes)? {
            Some((value, rest)) => Ok(Some((Total::Greatest(value), rest))),
            None => Ok(None),
        },
    }
}

/// The totals of these aggregates that the bytes are. None where they are none that a state can hold.
pub(crate) fn read_totals(
    alloc: Global,
    aggregates: &[Aggregate],
    bytes: &[u8],
) -> Result<Option<Totals>, AllocError>
    ensures found { IfOk result (λ found. IfSome found (λ totals. totals_bytes totals ≡ bytes.now)) }
    ensures readable { IfOk result (λ found. IfSome found (AreTotalsOf aggregates.now)) }
    ensures each { (totals : List Sum) → AreTotalsOf aggregates.now totals → totals_bytes totals ≡ bytes.now → IfOk result (λ found. found ≡ Some totals) }
{
    let mut totals = Vec::with_capacity(alloc, aggregates.len())?;
    let mut rest = bytes;
    for aggregate in aggregates {
        let Some((total, behind)) = total_and_rest(alloc, aggregate.function, rest)? else {
            return Ok(None);
        };
        totals.push(total)?;
        rest = behind;
    }
    if rest.is_empty() {
        Ok(Some(Totals::from_vec(totals)))
    } else {
        Ok(None)
    }
}
