//! The bytes of keys: of groups, of columns without doubles, and of joins.

ghost use Rattle.std.specs.Prelude.{◌≡◌, ◌≢◌, ℕ, ◌^◌, ◌<◌, List, ◌∷◌, ◌++◌, length, All, IfOk, OnOk, OnErr};
ghost use Rattle.std.specs.Int.{w32, w64, to_be_bytes};
ghost use Rattle.ssq_value.specs.declared.value.Value.{Value as Cell};
ghost use Rattle.ssq_value.specs.Key.{raised, key_of, keys_of, HasShortText, IsSpelled};
ghost use Rattle.ssq_value.specs.Grown.{Grows};

use crate::value::Value;
use std::alloc::{AllocError, Global};

const NULL: u8 = 0;

const TRUTH: u8 = 1;

const NUMBER: u8 = 2;

const TIME: u8 = 3;

const TEXT: u8 = 4;

/// The number plus 2^63, so that bytes are in the order of the numbers.
fn without_sign(number: i64) -> u64
    ensures { result ≡ raised number }
{
    number.cast_unsigned().wrapping_add(1 << 63)
}

fn put_number(out: &mut Vec<u8>, kind: u8, number: i64) -> Result<(), AllocError>
    ensures { Grows out.old.items out.new.items result (kind ∷ to_be_bytes w64 (raised number)) }
{
    out.push(kind)?;
    out.extend_from_slice(&without_sign(number).to_be_bytes())
}

fn put_text(out: &mut Vec<u8>, text: &str) -> Result<(), AllocError>
    requires { length text.now < 2 ^ 32 }
    ensures { Grows out.old.items out.new.items result (4 ∷ (to_be_bytes w32 (length text.now) ++ text.now)) }
{
    out.push(TEXT)?;
    out.extend_from_slice(&(text.len() as u32).to_be_bytes())?;
    out.extend_from_slice(text.as_bytes())
}

fn put_value(out: &mut Vec<u8>, value: &Value) -> Result<(), AllocError>
    requires { HasShortText value.now }
    ensures { Grows out.old.items out.new.items result (key_of value.now) }
{
    match value {
        Value::Null => out.extend_from_slice(&[NULL]),
        Value::Truth(truth) => out.extend_from_slice(&[TRUTH, u8::from(*truth)]),
        Value::Int(number) => put_number(out, NUMBER, *number),
        Value::Time(time) => put_number(out, TIME, *time),
        Value::Text(text) => put_text(out, text.as_str()),
    }
}

#[tactic(auto, unfolding(crate::specs::Key::keys_of))]
fn put_values(out: &mut Vec<u8>, values: &[Value]) -> Result<(), AllocError>
    requires { All HasShortText values.now }
    ensures { Grows out.old.items out.new.items result (keys_of values.now) }
{
    for value in values {
        put_value(out, value)?;
    }
    Ok(())
}

/// Appends the key of the values. After an `Err` the buffer has what it had.
pub fn put_key(out: &mut Vec<u8>, values: &[Value]) -> Result<(), AllocError>
    requires { All HasShortText values.now }
    ensures ok { OnOk result (out.new.items ≡ out.old.items ++ keys_of values.now) }
    ensures err { OnErr result (out.new.items ≡ out.old.items) }
{
    let start = out.len();
    let done = put_values(out, values);
    if done.is_err() {
        out.truncate(start);
    }
    done
}

/// The key of the values, in a buffer of its own.
pub fn key_bytes(alloc: Global, values: &[Value]) -> Result<Vec<u8>, AllocError>
    requires { All HasShortText values.now }
    ensures { IfOk result (λ key. key.items ≡ keys_of values.now) }
{
    let mut key = Vec::with_capacity(alloc, room(values))?;
    put_key(&mut key, values)?;
    Ok(key)
}

/// How many bytes the key takes, so that it grows but once.
fn room(values: &[Value]) -> usize {
    let mut room: usize = 0;
    for value in values {
        room = room.saturating_add(match value {
            Value::Null => 1,
            Value::Truth(_) => 2,
            Value::Int(_) | Value::Time(_) => 9,
            Value::Text(text) => text.len().saturating_add(5),
        });
    }
    room
}

/// The law of keys: before whatever follows, a key of so many values is the key of no others. So of two
/// different lists of equal length neither's key begins the other's.
pub fn keys_are_apart()
    ensures whatever_follows { (left right : List Cell) (x y : List ℕ) →
        length left ≡ length right → All IsSpelled left → All IsSpelled right →
        keys_of left ++ x ≡ keys_of right ++ y → (left ≡ right) × (x ≡ y) }
    ensures no_front { (left right : List Cell) (rest : List ℕ) →
        length left ≡ length right → All IsSpelled left → All IsSpelled right →
        left ≢ right → keys_of left ++ rest ≢ keys_of right }
{}
