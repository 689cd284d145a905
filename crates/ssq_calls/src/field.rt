//! Numbers, and the digits and bytes that they are written as.

use ssq_field::{
    Bytes, put_be32, put_be64, put_be128, put_decimal, take_be32, take_be64, take_be128,
    take_decimal,
};
use std::cmp::Ordering;
use std::test::Fail;

#[test]
fn decimals_are_put_and_taken(rt: HostRuntime) -> Result<(), Fail> {
    let texts: [(&[u8], Option<(u64, usize)>); 16] = [
        (b"0", Some((0, 1))),
        (b"7\n", Some((7, 1))),
        (b"104 x", Some((104, 3))),
        (b"18446744073709551615", Some((18446744073709551615, 20))),
        (b"18446744073709551616", None),
        (b"99999999999999999999", None),
        (b"184467440737095516150", None),
        (b"0 1", Some((0, 1))),
        (b"9/", Some((9, 1))),
        (b"1:", Some((1, 1))),
        (b"", None),
        (b"00", None),
        (b"007", None),
        (b"+5", None),
        (b"-5", None),
        (b" 5", None),
    ];
    for (text, taken) in texts {
        assert_eq!(rt; take_decimal(text), taken, "{text:?}");
        if let Some((number, len)) = taken {
            let mut out = Bytes::from_slice(rt.alloc(), b"x")?;
            put_decimal(&mut out, number)?;
            assert!(rt; out.as_slice().len() == len + 1 && out.as_slice().starts_with(b"x"));
            assert!(rt; text.starts_with(&out.as_slice()[1..]));
        }
    }
    Ok(())
}

#[test]
fn numbers_of_fixed_length_are_put_and_taken(rt: HostRuntime) -> Result<(), Fail> {
    let mut out = Bytes::new(rt.alloc());
    put_be32(&mut out, 0x0102_0304)?;
    put_be64(&mut out, 1)?;
    put_be128(&mut out, -2)?;
    put_be128(&mut out, 258)?;
    let wanted = b"\x01\x02\x03\x04\
        \0\0\0\0\0\0\0\x01\
        \xff\xff\xff\xff\xff\xff\xff\xff\xff\xff\xff\xff\xff\xff\xff\xfe\
        \0\0\0\0\0\0\0\0\0\0\0\0\0\0\x01\x02";
    assert_eq!(rt; out.as_slice(), wanted.as_slice());
    assert_eq!(rt; take_be32(wanted), Some((0x0102_0304, 4)));
    assert_eq!(rt; take_be64(&wanted[4..]), Some((1, 8)));
    assert_eq!(rt; take_be128(&wanted[12..]), Some((-2, 16)));
    assert_eq!(rt; take_be128(&wanted[28..]), Some((258, 16)));
    assert_eq!(rt; take_be32(&wanted[41..]), None);
    assert_eq!(rt; take_be64(&wanted[37..]), None);
    assert_eq!(rt; take_be128(&wanted[29..]), None);
    Ok(())
}

#[test]
fn bytes_are_given_back(rt: HostRuntime) -> Result<(), Fail> {
    let mut bytes = Bytes::from_slice(rt.alloc(), b"ab")?;
    bytes.extend(b"c")?;
    assert_eq!(rt; bytes.len(), 3);
    assert!(rt; bytes.clone()? == bytes && !bytes.is_empty());
    let whole = bytes.clone()?;
    bytes.truncate(1);
    assert!(rt; bytes < whole);
    assert_eq!(rt; bytes.as_slice(), b"a".as_slice());
    assert!(rt; Bytes::with_capacity(rt.alloc(), 40)?.is_empty());
    let mut grown = Bytes::from_vec(Vec::from_slice(rt.alloc(), &[7; 39])?);
    grown.extend(&[8])?;
    assert_eq!(rt; &grown.as_slice()[38..], [7, 8].as_slice());
    Ok(())
}

#[test]
fn bytes_come_by_the_first_that_differs(rt: HostRuntime) -> Result<(), Fail> {
    let pairs: [(&[u8], &[u8], Ordering); 8] = [
        (b"", b"\0", Ordering::Less),
        (b"b", b"aaaaaaaaa", Ordering::Greater),
        (b"aaaaaaa\x80", b"aaaaaaa\x7f", Ordering::Greater),
        (b"\x7faaaaaaa", b"\x80", Ordering::Less),
        (b"aaaaaaaa", b"aaaaaaaa\0", Ordering::Less),
        (b"aaaaaaaaz", b"aaaaaaaay", Ordering::Greater),
        (b"aaaaaaaabbbbbbbb", b"aaaaaaaabbbbbbba", Ordering::Greater),
        (b"aaaaaaaabbbbbbbbc", b"aaaaaaaabbbbbbbbc", Ordering::Equal),
    ];
    for (left, right, wanted) in pairs {
        let (one, other) = (
            Bytes::from_slice(rt.alloc(), left)?,
            Bytes::from_slice(rt.alloc(), right)?,
        );
        assert_eq!(rt; one.cmp(&other), wanted, "{left:?} {right:?}");
    }
    Ok(())
}
