//! Texts of names, written out by hand.

use ssq_outside::Name;
use ssq_plans::{name_text, read_name};

const TEXTS: [(Name, &[u8]); 7] = [
    (Name::Meta, b"metadata"),
    (Name::Plan(0), b"offsets/0"),
    (Name::Commit(1), b"commits/1"),
    (Name::Out(4294967295), b"sink/4294967295"),
    (Name::Delta(0, 29), b"state/0/29.delta"),
    (Name::Snapshot(0, 29), b"state/0/29.snapshot"),
    (
        Name::Snapshot(63, 4294967294),
        b"state/63/4294967294.snapshot",
    ),
];

const NO_NAMES: [&[u8]; 10] = [
    b"",
    b"metadata/",
    b"offsets/",
    b"offsets/00",
    b"offsets/+1",
    b"commits/1 ",
    b"sink/4294967296",
    b"state/0/29",
    b"state/0/029.delta",
    b"aside/0",
];

#[test]
fn texts(rt: HostRuntime) {
    for (name, text) in TEXTS {
        let made = name_text(rt.alloc(), name).expect(&rt, "memory");
        assert_eq!(rt; made.as_slice(), text);
        assert_eq!(rt; read_name(text), Some(name));
    }
    for text in NO_NAMES {
        assert_eq!(rt; read_name(text), None, "{text:?}");
    }
}
