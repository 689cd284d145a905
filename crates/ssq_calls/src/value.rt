//! Worked keys and orders of values and rows.

ghost use Rattle.std.specs.Prelude.{◌^◌, ◌<◌, length, All, IfOk};
ghost use Rattle.ssq_value.specs.Key.{HasShortText};

use ssq_value::{
    ColType, Column, Row, Schema, Sequence, Text, Value, key_bytes, order, order_rows, put_key,
};
use std::alloc::{AllocError, AllocGlobal, Global};
use std::cmp::Ordering;
use std::process::Abort;
use std::test::Fail;

fn text(alloc: Global, text: &str) -> Result<Value, AllocError>
    requires { length text.now < 2 ^ 32 }
    ensures { IfOk result HasShortText }
{
    Ok(Value::Text(Text::from_str(alloc, text)?))
}

fn is_key(rt: &(impl Abort + AllocGlobal), values: &[Value], wanted: &[u8]) -> Result<(), Fail>
    requires { All HasShortText values.now }
{
    let key = key_bytes(rt.alloc(), values)?;
    assert_eq!(rt; key.as_slice(), wanted, "{values:?}");
    let mut buffer = key.clone()?;
    put_key(&mut buffer, values)?;
    assert_eq!(rt; &buffer[key.len()..], wanted, "{values:?}");
    Ok(())
}

#[test]
fn keys_are_spelled_as_stated(rt: HostRuntime) -> Result<(), Fail> {
    let alloc = rt.alloc();
    is_key(&rt, &[], b"")?;
    is_key(
        &rt,
        &[Value::Int(1), Value::Null, text(alloc, "a")?],
        b"\x02\x80\0\0\0\0\0\0\x01\0\x04\0\0\0\x01a",
    )?;
    is_key(&rt, &[text(alloc, "a")?], b"\x04\0\0\0\x01a")?;
    is_key(&rt, &[text(alloc, "")?, Value::Null], b"\x04\0\0\0\0\0")?;
    is_key(
        &rt,
        &[Value::Truth(false), Value::Truth(true)],
        b"\x01\0\x01\x01",
    )?;
    is_key(&rt, &[Value::Int(i64::MIN)], b"\x02\0\0\0\0\0\0\0\0")?;
    is_key(
        &rt,
        &[Value::Int(-1)],
        b"\x02\x7f\xff\xff\xff\xff\xff\xff\xff",
    )?;
    is_key(
        &rt,
        &[Value::Int(i64::MAX)],
        b"\x02\xff\xff\xff\xff\xff\xff\xff\xff",
    )?;
    is_key(
        &rt,
        &[Value::Time(1704067200000000)],
        b"\x03\x80\x06\x0d\xd7\x10\x21\x20\0",
    )?;
    Ok(())
}

#[test]
fn values_and_rows_stand_in_order(rt: HostRuntime) -> Result<(), Fail> {
    let alloc = rt.alloc();
    let mut rising = vec![in alloc;
        Value::Null,
        Value::Truth(false),
        Value::Truth(true),
        Value::Int(i64::MIN),
        Value::Int(-1),
        Value::Int(2),
        Value::Time(-3),
        Value::Time(1),
    ]?;
    for word in ["", "B", "a", "ab", "b", "é"] {
        rising.push(Value::Text(Text::from_str(alloc, word)?))?;
    }
    for (i, left) in rising.iter().enumerate() {
        for (j, right) in rising.iter().enumerate() {
            assert_eq!(rt; order(left, right), i.cmp(&j), "{left:?} {right:?}");
        }
        assert_eq!(rt;
            order_rows(&rising[i..], rising.as_slice()),
            i.cmp(&0),
            "{left:?}"
        );
        assert_eq!(rt;
            order_rows(&rising[..i], rising.as_slice()),
            Ordering::Less,
            "{left:?}"
        );
    }
    let row = Row::from_vec(rising);
    let mut rows = vec![in alloc; row.clone()?, Row::new(alloc), row]?;
    rows.sort()?;
    assert_eq!(rt; rows[0].len(), 0);
    assert!(rt; rows[1] == rows[2] && !rows[1].is_empty());
    Ok(())
}

#[test]
fn parts_are_given_back(rt: HostRuntime) -> Result<(), Fail> {
    let alloc = rt.alloc();
    let name = Text::from_string(String::from_str(alloc, "at")?);
    assert_eq!(rt;
        (name.as_str(), name.as_bytes(), name.len()),
        ("at", b"at".as_slice(), 2)
    );
    assert!(rt; !name.is_empty());
    let at = Column {
        name: name.clone()?,
        kind: ColType::Timestamp,
    };
    assert_eq!(rt; name.into_string().as_str(), "at");
    let columns = Sequence::from_vec(vec![in alloc; at]?).into_vec();
    let schema = Schema::new(columns, Some(0));
    assert_eq!(rt; schema.event(), Some(0));
    assert_eq!(rt; schema.columns().len(), 1);
    let row = Row::from_vec(vec![in alloc;
        Value::Time(7),
        Value::Null,
        Value::Int(7),
        Value::Truth(true),
        text(alloc, "x")?,
    ]?);
    let kinds = [
        Some(ColType::Timestamp),
        None,
        Some(ColType::Bigint),
        Some(ColType::Bool),
        Some(ColType::Str),
    ];
    for (value, kind) in row.as_slice().iter().zip(kinds.iter()) {
        assert_eq!(rt; value.kind(), *kind);
    }
    assert_eq!(rt; row.into_vec().len(), 5);
    Ok(())
}
