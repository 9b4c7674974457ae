//! Numbers in bytes, ranges, the layout of the smallest volume, lists and names.
ghost use Rattle.std.specs.Prelude.{◌≤◌};
ghost use Rattle.lufs_base.specs.Layout.{IsGeometry};

use crate::{
    BlockNo, Bytes, Delta, DeltaKind, DeltaList, Geometry, Ino, Name, Region, get_u16, get_u32,
    get_u64, is_step, put_u16, put_u32, put_u64,
};
use std::test::Fail;

const DIGITS: [u8; 12] = [
    0x01, 0x23, 0x45, 0x67, 0x89, 0xab, 0xcd, 0xef, 0xfe, 0xdc, 0xba, 0x98,
];

const SMALLEST: Geometry = Geometry {
    version: 1,
    groups: 1,
    bpg: 64,
    ipg: 32,
    log: 256,
};

fn with_u16(at: usize, value: u16) -> [u8; 12]
    requires { at ≤ 10 }
{
    let mut out = [0xee; 12];
    put_u16(&mut out, at, value);
    out
}

fn with_u32(at: usize, value: u32) -> [u8; 12]
    requires { at ≤ 8 }
{
    let mut out = [0xee; 12];
    put_u32(&mut out, at, value);
    out
}

fn with_u64(at: usize, value: u64) -> [u8; 12]
    requires { at ≤ 4 }
{
    let mut out = [0xee; 12];
    put_u64(&mut out, at, value);
    out
}

// What a block is for, if the volume has it.
fn region_at(geometry: &Geometry, block: u32) -> Option<Region>
    requires { IsGeometry geometry.now }
{
    if block < geometry.total() {
        Some(geometry.region(BlockNo(block)))
    } else {
        None
    }
}

#[test]
fn numbers_at_both_ends(rt: HostRuntime) {
    for (what, number, want) in [
        ("first u16", u64::from(get_u16(&DIGITS, 0)), 0x0123),
        ("last u16", u64::from(get_u16(&DIGITS, 10)), 0xba98),
        ("first u32", u64::from(get_u32(&DIGITS, 0)), 0x0123_4567),
        ("last u32", u64::from(get_u32(&DIGITS, 8)), 0xfedc_ba98),
        ("first u64", get_u64(&DIGITS, 0), 0x0123_4567_89ab_cdef),
        ("last u64", get_u64(&DIGITS, 4), 0x89ab_cdef_fedc_ba98),
    ] {
        assert_eq!(rt; number, want, "{what}");
    }
    let e = 0xee;
    for (what, bytes, want) in [
        (
            "first u16",
            with_u16(0, 0x0123),
            [0x01, 0x23, e, e, e, e, e, e, e, e, e, e],
        ),
        (
            "last u16",
            with_u16(10, 0x0123),
            [e, e, e, e, e, e, e, e, e, e, 0x01, 0x23],
        ),
        (
            "first u32",
            with_u32(0, 0x0123_4567),
            [0x01, 0x23, 0x45, 0x67, e, e, e, e, e, e, e, e],
        ),
        (
            "last u32",
            with_u32(8, 0x0123_4567),
            [e, e, e, e, e, e, e, e, 0x01, 0x23, 0x45, 0x67],
        ),
        (
            "first u64",
            with_u64(0, 0x0123_4567_89ab_cdef),
            [0x01, 0x23, 0x45, 0x67, 0x89, 0xab, 0xcd, 0xef, e, e, e, e],
        ),
        (
            "last u64",
            with_u64(4, 0x0123_4567_89ab_cdef),
            [e, e, e, e, 0x01, 0x23, 0x45, 0x67, 0x89, 0xab, 0xcd, 0xef],
        ),
    ] {
        assert_eq!(rt; bytes, want, "{what}");
    }
}

#[test]
fn stepped_ranges(rt: HostRuntime) {
    for (n, want) in [
        (64, true),
        (72, true),
        (2048, true),
        (56, false),
        (65, false),
        (2056, false),
    ] {
        assert_eq!(rt; is_step(64, 2048, 8, n), want, "{n}");
    }
}

#[test]
fn smallest_volume(rt: HostRuntime) {
    let geometry = SMALLEST;
    for (what, number, want) in [
        ("blocks", u64::from(geometry.total()), 99),
        ("ring", u64::from(geometry.ring()), 255),
        ("header", geometry.header_sector(), 24),
        ("first place", geometry.ring_place(0), 25),
        ("last place", geometry.ring_place(254), 279),
        ("need", u64::from(geometry.need()), 8432),
        ("group", u64::from(geometry.group_block(0).0), 35),
        ("root", geometry.inode_place(Ino(2)), 0x24100),
        ("last inode", geometry.inode_place(Ino(31)), 0x24f80),
    ] {
        assert_eq!(rt; number, want, "{what}");
    }
    for (block, want) in [
        (0, Some(Region::Boot)),
        (1, Some(Region::Boot)),
        (2, Some(Region::Super)),
        (3, Some(Region::Log)),
        (34, Some(Region::Log)),
        (35, Some(Region::GroupBlock(0))),
        (36, Some(Region::Inodes(0))),
        (37, Some(Region::Body(0))),
        (98, Some(Region::Body(0))),
        (99, None),
    ] {
        assert_eq!(rt; region_at(&geometry, block), want, "{block}");
    }
}

#[test]
fn lists(rt: HostRuntime) -> Result<(), Fail> {
    let alloc = rt.alloc();
    let bytes = Bytes::from_slice(alloc, &[7, 8])?;
    assert_eq!(rt; (bytes.len(), bytes.is_empty()), (2, false));
    assert_eq!(rt; bytes.as_slice(), [7, 8].as_slice());
    let bytes = Bytes::from_vec(bytes.into_vec());
    let mut deltas = DeltaList::new(alloc);
    assert_eq!(rt; deltas.len(), 0);
    deltas.push(Delta {
        kind: DeltaKind::LinkText,
        home: 0x26000,
        len: 2,
        bytes,
    })?;
    assert_eq!(rt; deltas.len(), 1);
    let first = deltas.as_slice().first().ok_or("no delta")?;
    assert_eq!(rt;
        (first.kind, first.home, first.len),
        (DeltaKind::LinkText, 0x26000, 2)
    );
    assert_eq!(rt; first.bytes.as_slice(), [7, 8].as_slice());
    assert_eq!(rt;
        (first.kind.has_bytes(), DeltaKind::Zero.has_bytes()),
        (true, false)
    );
    Ok(())
}

#[test]
fn names(rt: HostRuntime) -> Result<(), Fail> {
    let alloc = rt.alloc();
    for (byte, count, want) in [
        (b'a', 0, false),
        (b'a', 1, true),
        (b'a', 255, true),
        (b'a', 256, false),
        (0x20, 1, false),
        (0x21, 1, true),
        (b'.', 2, true),
        (b'/', 1, false),
        (b'0', 1, true),
        (0x7e, 1, true),
        (0x7f, 1, false),
    ] {
        let bytes = vec![in alloc; byte; count]?;
        let mut name = Name::from_slice(alloc, bytes.as_slice())?;
        assert_eq!(rt; name.is_allowed(), want, "{count} of {byte}");
        assert_eq!(rt; name.as_slice(), bytes.as_slice());
        name.clear();
        assert_eq!(rt; name.as_slice().len(), 0);
    }
    Ok(())
}
