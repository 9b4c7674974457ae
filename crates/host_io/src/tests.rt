//! Sources in memory, lent and read whole.
use crate::{Host, HostError, MemHost, MemSource, ReadError, Source, read_whole};
use lufs_base::Mem;
use std::alloc::Global;

/// How many bytes a source has, how many of them may be read, and which take of it fails. Then how many are read or
/// why none, and how many are read after that.
type Row = (usize, usize, u64, Result<usize, ReadError>, usize);

const ROWS: [Row; 6] = [
    (0, 0, 9, Ok(0), 0),
    (1, 0, 9, Err(ReadError::TooLong), 0),
    (4096, 4096, 9, Ok(4096), 0),
    (9000, 9000, 9, Ok(9000), 0),
    (9004, 9000, 9, Err(ReadError::TooLong), 3),
    (9000, 9000, 3, Err(ReadError::Fault), 808),
];

// A host with a source of so many bytes. This take of it fails, and the first one of a source that isn't there.
fn host_with(alloc: Global, length: usize, fails: u64) -> Result<MemHost, Mem> {
    let bytes = vec![in alloc; b'x'; length]?;
    let mut host = MemHost::new(alloc, 1000);
    host.add_source("s0", &bytes)?;
    host.fail_take("s0", fails)?;
    host.fail_take("s1", 1)?;
    Ok(host)
}

fn length_read(alloc: Global, source: &mut MemSource, limit: usize) -> Result<usize, ReadError> {
    read_whole(alloc, source, limit).map(|read| read.len())
}

fn is_read_so(alloc: Global, source: &mut MemSource, row: Row) -> bool {
    let (_, limit, _, read, left) = row;
    let faults = u64::from(read == Err(ReadError::Fault));
    length_read(alloc, source, limit) == read
        && source.faults() == faults
        && length_read(alloc, source, 9000) == Ok(left)
}

// One isn't given back, and the other one was never there.
fn are_missing(host: &mut MemHost) -> bool {
    matches!(host.take_source("s0"), Err(HostError::Missing))
        && matches!(host.take_source("s1"), Err(HostError::Missing))
        && host.faults() == 0
        && host.absent() == 2
}

fn ends_so(alloc: Global, row: Row) -> Result<bool, HostError> {
    let mut host = host_with(alloc, row.0, row.2)?;
    let mut source = host.take_source("s0")?;
    Ok(is_read_so(alloc, &mut source, row) && are_missing(&mut host))
}

#[test]
fn sources_read_whole(rt: HostRuntime) {
    for row in ROWS {
        let ended = ends_so(rt.alloc(), row).unwrap_or(false);
        assert!(rt; ended, "{} {}", row.0, row.1);
    }
}
