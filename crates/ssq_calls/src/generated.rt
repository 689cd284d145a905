//! The lines of small generated inputs.

use crate::fakes::open;
use ssq_fakes::MemInputs;
use ssq_gen::{QUERY_NAME, made};
use ssq_outside::{Inputs, Log};
use std::alloc::Global;
use std::test::Fail;

/// The lines of a part, each with a line feed after it.
fn part(alloc: Global, inputs: &mut MemInputs, number: u32) -> Result<Vec<u8>, Fail> {
    let mut all = Vec::new(alloc);
    let mut log = open(alloc, inputs, "g", number)??;
    let mut line = Vec::new(alloc);
    for at in 0..log.lines()? {
        log.line(at, &mut line)?;
        all.extend_from_slice(&line)?;
        all.push(b'\n')?;
    }
    inputs.give_back(log);
    Ok(all)
}

#[test]
fn lines_come_by_turns(rt: HostRuntime) -> Result<(), Fail> {
    let alloc = rt.alloc();
    let mut inputs = made(alloc, 1, 4)?;
    assert_eq!(rt; inputs.parts(alloc, "g")?, 2);
    assert_eq!(rt;
        part(alloc, &mut inputs, 0)?.as_slice(),
        b"{\"ts\":\"2023-12-31T23:59:59Z\",\"k\":\"k1\",\"v\":1}\n{\"ts\":\"2024-01-01T00:00:11Z\",\"k\":\"k1\",\"v\":249}\n".as_slice()
    );
    assert_eq!(rt;
        part(alloc, &mut inputs, 1)?.as_slice(),
        b"{\"ts\":\"2024-01-01T00:00:01Z\",\"k\":\"k5\",\"v\":149}\n{\"ts\":\"2024-01-01T00:00:25Z\",\"k\":\"k1\",\"v\":305}\n".as_slice()
    );
    assert_eq!(rt;
        inputs.text(alloc, QUERY_NAME, 13)?.as_slice(),
        b"CREATE STREAM".as_slice()
    );
    Ok(())
}
