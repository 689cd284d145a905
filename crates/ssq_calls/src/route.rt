//! Worked keys and their places, and items in their buckets.

use ssq_route::{Buckets, place};
use std::test::Fail;

#[test]
fn keys_have_the_places_of_their_hashes(rt: HostRuntime) {
    // FNV-1a of these texts is cbf29ce484222325, af63dc4c8601ec8c and 85944171f73967e8.
    let places: [(&[u8], u32, u32); 7] = [
        (b"", 64, 37),
        (b"a", 64, 12),
        (b"foobar", 64, 40),
        (b"a", 1, 0),
        (b"", 4294967295, 1343537162),
        (b"a", 4294967295, 895863001),
        (b"foobar", 4294967295, 2093853018),
    ];
    for (key, partitions, wanted) in places {
        assert_eq!(rt; place(key, partitions), wanted, "{key:?} of {partitions}");
    }
}

#[test]
fn items_stand_in_the_buckets_of_their_keys(rt: HostRuntime) -> Result<(), Fail> {
    let alloc = rt.alloc();
    let mut buckets = Buckets::new(alloc, 64)?;
    let keyed: [(&[u8], u32); 4] = [(b"a", 1), (b"", 2), (b"a", 3), (b"foobar", 4)];
    for (key, item) in keyed {
        buckets.add(key, item)?;
    }
    let wanted: [(u32, &[u32]); 4] = [(12, &[1, 3]), (37, &[2]), (40, &[4]), (0, &[])];
    for (at, items) in wanted {
        assert!(rt; at < buckets.partitions());
        assert_eq!(rt; buckets.bucket(at), items, "at {at}");
    }
    assert!(rt; 12 < buckets.partitions());
    assert_eq!(rt; buckets.take(alloc, 12).as_slice(), [1, 3].as_slice());
    assert!(rt; buckets.bucket(12).is_empty());
    assert_eq!(rt; buckets.partitions(), 64);
    Ok(())
}
