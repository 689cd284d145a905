//! The records of two worked checkpoints, and bytes that are no record's.
use ssq_plans::{
    Commit, Meta, PartEnd, Plan, SeenBy, next_epoch, read_commit, read_meta, read_plan,
    write_commit, write_meta, write_plan,
};
use ssq_value::{Sequence, Text};
use std::test::Fail;

const QUERY: &str =
    "CREATE STREAM s (id BIGINT, v BIGINT) FROM 's'; SELECT id, v + 1 AS w FROM s WHERE v > 10 OUTPUT APPEND;";

const METADATA: &[u8] =
    b"v1\npartitions 1\nparts 0 1\nquery 104\nCREATE STREAM s (id BIGINT, v BIGINT) FROM 's'; SELECT id, v + 1 AS w FROM s WHERE v > 10 OUTPUT APPEND;\nend\n";

/// 2024-01-01T12:06:00Z and 2024-01-01T12:16:00Z.
const WATERMARK: i64 = 1_704_110_760_000_000;

const SEEN: i64 = 1_704_111_360_000_000;

static COMMITS: [(&[u8], bool); 17] = [
    (b"v1\ncommit 0\nend\n", true),
    (b"v1\ncommit 2\nseen 0 2024-01-01T12:16:00Z\nend\n", true),
    (
        b"v1\ncommit 2\nseen 0 2024-01-01T12:16:00.000001Z\nend\n",
        true,
    ),
    (
        b"v1\ncommit 4294967295\nseen 0 none\nseen 1 9000-12-31T23:59:59.999999Z\nend\n",
        true,
    ),
    (b"", false),
    (b"v1\ncommit 0\nend", false),
    (b"v1\ncommit 0\nend\n\n", false),
    (b"v1\ncommit 0\r\nend\r\n", false),
    (b"v1\ncommit 00\nend\n", false),
    (b"v1\nplan 0\nend\n", false),
    (b"v1\ncommit 4294967296\nend\n", false),
    (b"v1\ncommit 2\nseen 0 0999-12-31T23:59:59Z\nend\n", false),
    (b"v1\ncommit 2\nseen 0 9001-01-01T00:00:00Z\nend\n", false),
    (b"v1\ncommit 2\nseen 0 2024-01-01T12:16:00.5Z\nend\n", false),
    (
        b"v1\ncommit 2\nseen 0 2024-01-01T12:16:00.000000Z\nend\n",
        false,
    ),
    (b"v1\ncommit 2\nseen 0  none\nend\n", false),
    (b"v2\ncommit 0\nend\n", false),
];

static PLANS: [(&[u8], bool); 16] = [
    (b"v1\nplan 0\nwatermark none\npart 0 0 2\nend\n", true),
    (
        b"v1\nplan 2\nwatermark 2024-01-01T12:06:00Z\npart 0 0 3\npart 0 1 1\nend\n",
        true,
    ),
    (b"v1\nplan 0\nwatermark 0001-01-01T00:00:00Z\nend\n", true),
    (
        b"v1\nplan 0\nwatermark none\npart 4294967295 0 18446744073709551615\nend\n",
        true,
    ),
    (b"v1\nplan 0\nwatermark none\npart 0 0 2\nend", false),
    (b"v1\nplan 0\nwatermark none\npart 0 0 2\nend\nx", false),
    (b"v1\nplan 0\nwatermark none\npart 0 0 02\nend\n", false),
    (b"v1\nplan 0\nwatermark none\npart 0 0 2end\n", false),
    (b"v1\nplan 0\nwatermark none\npart 0 0\nend\n", false),
    (
        b"v1\nplan 0\nwatermark none\npart 0 4294967296 2\nend\n",
        false,
    ),
    (
        b"v1\nplan 0\nwatermark none\npart 0 0 18446744073709551616\nend\n",
        false,
    ),
    (b"v1\nplan 0\npart 0 0 2\nend\n", false),
    (
        b"v1\nplan 2\nwatermark 2024-01-01T12:06:00.50Z\nend\n",
        false,
    ),
    (b"v1\nplan 2\nwatermark 2024-01-01T12:06:0\nend\n", false),
    (b"v1\ncommit 0\nwatermark none\nend\n", false),
    (b"v1\nplan 4294967296\nwatermark none\nend\n", false),
];

static METAS: [(&[u8], bool); 17] = [
    (METADATA, true),
    (
        b"v1\npartitions 64\nparts 0 64\nparts 1 0\nquery 3\na\nb\nend\n",
        true,
    ),
    (b"v1\npartitions 2\nquery 0\n\nend\n", true),
    (b"v1\npartitions 1\nquery 2\n\xc3\xa9\nend\n", true),
    (b"v1\npartitions 1\nquery 1\n\xc3\nend\n", false),
    (b"v1\npartitions 0\nparts 0 1\nquery 1\na\nend\n", false),
    (b"v1\npartitions 65\nparts 0 1\nquery 1\na\nend\n", false),
    (b"v1\npartitions 01\nparts 0 1\nquery 1\na\nend\n", false),
    (b"v1\npartitions 1\nparts 0 65\nquery 1\na\nend\n", false),
    (b"v1\npartitions 1\nparts 1 1\nquery 1\na\nend\n", false),
    (
        b"v1\npartitions 1\nparts 0 1\nparts 2 1\nquery 1\na\nend\n",
        false,
    ),
    (b"v1\npartitions 1\nparts 0 1\nquery 0\na\nend\n", false),
    (b"v1\npartitions 1\nparts 0 1\nquery 2\na\nend\n", false),
    (
        b"v1\npartitions 1\nparts 0 1\nquery 18446744073709551615\na\nend\n",
        false,
    ),
    (b"v1\npartitions 1\nparts 0 1\nquery 1\na\nend", false),
    (b"v1\npartitions 1\nparts 0 1\nquery 1\na\nend\n ", false),
    (b"v1\r\npartitions 1\nparts 0 1\nquery 1\na\nend\n", false),
];

#[test]
fn writes_records(rt: HostRuntime) -> Result<(), Fail> {
    let alloc = rt.alloc();
    let meta = Meta {
        partitions: 1,
        parts: Sequence::from_vec(vec![in alloc; 1]?),
        query: Text::from_str(alloc, QUERY)?,
    };
    assert_eq!(rt; write_meta(alloc, &meta)?.as_slice(), METADATA);

    let mut ends = Sequence::new(alloc);
    ends.push(PartEnd {
        stream: 0,
        part: 0,
        end: 3,
    })?;
    ends.push(PartEnd {
        stream: 0,
        part: 1,
        end: 1,
    })?;
    let third = Plan {
        epoch: 2,
        watermark: Some(WATERMARK),
        ends,
    };
    assert_eq!(rt;
        write_plan(alloc, &third)?.as_slice(),
        b"v1\nplan 2\nwatermark 2024-01-01T12:06:00Z\npart 0 0 3\npart 0 1 1\nend\n".as_slice()
    );

    let seen = Commit {
        epoch: 2,
        seen: Sequence::from_vec(vec![in alloc;
            SeenBy {
                stream: 0,
                time: Some(SEEN)
            },
        ]?),
    };
    assert_eq!(rt;
        write_commit(alloc, &seen)?.as_slice(),
        b"v1\ncommit 2\nseen 0 2024-01-01T12:16:00Z\nend\n".as_slice()
    );

    assert_eq!(rt; next_epoch(0), Some(0));
    assert_eq!(rt; next_epoch(4_294_967_294), Some(4_294_967_294));
    assert_eq!(rt; next_epoch(4_294_967_295), None);
    Ok(())
}

#[test]
fn reads_jobs(rt: HostRuntime) -> Result<(), Fail> {
    let alloc = rt.alloc();
    for (text, is_record) in &METAS {
        match read_meta(alloc, text)? {
            Some(meta) => assert!(rt; *is_record && meta.partitions >= 1, "{text:?}"),
            None => assert!(rt; !*is_record, "{text:?}"),
        }
    }
    Ok(())
}

#[test]
fn reads_plans(rt: HostRuntime) -> Result<(), Fail> {
    let alloc = rt.alloc();
    for (text, is_record) in &PLANS {
        assert_eq!(rt; read_plan(alloc, text)?.is_some(), *is_record, "{text:?}");
    }
    let Some(plan) = read_plan(alloc, PLANS[1].0)? else {
        assert!(rt; false, "a plan");
        return Ok(());
    };
    assert_eq!(rt; (plan.epoch, plan.watermark), (2, Some(WATERMARK)));
    assert_eq!(rt; plan.ends.len(), 2);
    Ok(())
}

#[test]
fn reads_commits(rt: HostRuntime) -> Result<(), Fail> {
    let alloc = rt.alloc();
    for (text, is_record) in &COMMITS {
        assert_eq!(rt; read_commit(alloc, text)?.is_some(), *is_record, "{text:?}");
    }
    let Some(commit) = read_commit(alloc, COMMITS[1].0)? else {
        assert!(rt; false, "a commit");
        return Ok(());
    };
    assert_eq!(rt; commit.epoch, 2);
    for seen in commit.seen.as_slice() {
        assert_eq!(rt; (seen.stream, seen.time), (0, Some(SEEN)));
    }
    Ok(())
}
