//! Inode records that are read or refused, and records that are written and read back.
ghost use Rattle.std.specs.Prelude.{◌≤◌};

use crate::{BadInode, Dinode, read_dinode, write_dinode};
use lufs_base::put_u32;

/// What a record is.
#[derive(Clone, Copy, Debug, PartialEq, Eq)]
enum Kind {
    Free,
    Used,
    Bad,
}

/// The root of a new volume, whose first chunk is in block 37.
const ROOT: Dinode = Dinode {
    mode: 0o040755,
    links: 2,
    uid: 0,
    gid: 0,
    size: 512,
    mtime: 1000,
    direct: [37, 0, 0, 0, 0, 0, 0, 0, 0, 0, 0, 0],
    indirect: [0, 0, 0],
    blocks: 1,
};

/// A record of version 2 whose bytes say where they stand.
const PLACES: [u8; 128] = [
    0x81, 0x23, 0x12, 0x13, 0x14, 0x15, 0x16, 0x17, 0x18, 0x19, 0x1a, 0x1b, 0, 0, 0, 0, 0x20, 0x21,
    0x22, 0x23, 0x24, 0x25, 0x26, 0x27, 0x28, 0x29, 0x2a, 0x2b, 0x2c, 0x2d, 0x2e, 0x2f, 0x30, 0x31,
    0x32, 0x33, 0x34, 0x35, 0x36, 0x37, 0x38, 0x39, 0x3a, 0x3b, 0x3c, 0x3d, 0x3e, 0x3f, 0x40, 0x41,
    0x42, 0x43, 0x44, 0x45, 0x46, 0x47, 0x48, 0x49, 0x4a, 0x4b, 0x4c, 0x4d, 0x4e, 0x4f, 0x50, 0x51,
    0x52, 0x53, 0x54, 0x55, 0x56, 0x57, 0x58, 0x59, 0x5a, 0x5b, 0x5c, 0x5d, 0x5e, 0x5f, 0x60, 0x61,
    0x62, 0x63, 0x64, 0x65, 0x66, 0x67, 0x68, 0x69, 0x6a, 0x6b, 0x6c, 0x6d, 0x6e, 0x6f, 0, 0, 0, 0,
    0, 0, 0, 0, 0, 0, 0, 0, 0, 0, 0, 0, 0, 0, 0, 0, 0, 0, 0, 0, 0, 0, 0, 0, 0, 0, 0, 0,
];

fn kind_of(version: u32, bytes: &[u8; 128]) -> Kind {
    match read_dinode(version, bytes) {
        Ok(None) => Kind::Free,
        Ok(Some(_)) => Kind::Used,
        Err(BadInode) => Kind::Bad,
    }
}

// A record that begins so, with 512 bytes in block 37, and this word from byte `at`.
fn changed(first: u32, at: usize, word: u32) -> [u8; 128]
    requires { at ≤ 124 }
{
    let mut bytes = [0; 128];
    put_u32(&mut bytes, 0, first);
    put_u32(&mut bytes, 20, 512);
    put_u32(&mut bytes, 32, 37);
    put_u32(&mut bytes, 92, 1);
    put_u32(&mut bytes, at, word);
    bytes
}

// A free record with this word from byte `at`.
fn almost_free(at: usize, word: u32) -> [u8; 128]
    requires { at ≤ 124 }
{
    let mut bytes = [0; 128];
    put_u32(&mut bytes, at, word);
    bytes
}

fn written(d: Option<&Dinode>) -> [u8; 128] {
    let mut out = [0xee; 128];
    write_dinode(d, &mut out);
    out
}

#[test]
fn records(rt: HostRuntime) {
    let dir = 0x41ed_0002;
    for (what, version, bytes, want) in [
        ("directory", 1, changed(0x41ed_0002, 32, 37), Kind::Used),
        ("no right", 1, changed(0x4000_0002, 32, 37), Kind::Used),
        ("all rights", 1, changed(0x41ff_0002, 32, 37), Kind::Used),
        ("above rights", 1, changed(0x4200_0002, 32, 37), Kind::Bad),
        ("below types", 1, changed(0x3fff_0002, 32, 37), Kind::Bad),
        ("two types", 1, changed(0xc1ed_0002, 32, 37), Kind::Bad),
        ("least file", 1, changed(0x8000_0000, 32, 37), Kind::Used),
        ("file", 1, changed(0x81ff_ffff, 32, 37), Kind::Used),
        ("below file", 1, changed(0x7fff_0001, 32, 37), Kind::Bad),
        ("above file", 1, changed(0x8200_0001, 32, 37), Kind::Bad),
        ("least link", 1, changed(0xa000_0001, 32, 37), Kind::Used),
        ("link", 1, changed(0xa1ff_0001, 32, 37), Kind::Used),
        ("below link", 1, changed(0x9fff_0001, 32, 37), Kind::Bad),
        ("above link", 1, changed(0xa200_0001, 32, 37), Kind::Bad),
        ("mode 0", 1, changed(0x0000_0002, 32, 37), Kind::Bad),
        ("last of gid", 1, changed(dir, 8, 0xffff_ffff), Kind::Used),
        ("first of gap", 1, changed(dir, 12, 0x0100_0000), Kind::Bad),
        ("last of gap", 1, changed(dir, 12, 1), Kind::Bad),
        ("size", 1, changed(dir, 16, 0xffff_ffff), Kind::Used),
        ("last direct", 1, changed(dir, 76, 0xffff_ffff), Kind::Used),
        ("indirect", 1, changed(dir, 80, 0xffff_ffff), Kind::Used),
        ("second", 1, changed(dir, 84, 1), Kind::Bad),
        ("third", 1, changed(dir, 88, 1), Kind::Bad),
        ("second of 2", 2, changed(dir, 84, 1), Kind::Used),
        ("third of 2", 2, changed(dir, 88, 0xffff_ffff), Kind::Used),
        ("blocks", 1, changed(dir, 92, 0xffff_ffff), Kind::Used),
        ("first of end", 1, changed(dir, 96, 0x0100_0000), Kind::Bad),
        ("last of end", 2, changed(dir, 124, 1), Kind::Bad),
        ("free", 1, almost_free(0, 0), Kind::Free),
        ("only links", 1, almost_free(0, 1), Kind::Bad),
        ("only a block", 1, almost_free(32, 37), Kind::Bad),
        ("only the last byte", 1, almost_free(124, 1), Kind::Bad),
    ] {
        assert_eq!(rt; kind_of(version, &bytes), want, "{what}");
    }
}

#[test]
fn both_ways(rt: HostRuntime) {
    let file = Dinode {
        mode: 0x8123,
        links: 0x1213,
        uid: 0x1415_1617,
        gid: 0x1819_1a1b,
        size: 0x2021_2223_2425_2627,
        mtime: 0x2829_2a2b_2c2d_2e2f,
        direct: [
            0x3031_3233,
            0x3435_3637,
            0x3839_3a3b,
            0x3c3d_3e3f,
            0x4041_4243,
            0x4445_4647,
            0x4849_4a4b,
            0x4c4d_4e4f,
            0x5051_5253,
            0x5455_5657,
            0x5859_5a5b,
            0x5c5d_5e5f,
        ],
        indirect: [0x6061_6263, 0x6465_6667, 0x6869_6a6b],
        blocks: 0x6c6d_6e6f,
    };
    let mut root = changed(0x41ed_0002, 32, 37);
    put_u32(&mut root, 28, 1000);
    for (what, version, bytes, want) in [
        ("root", 1, root, Some(ROOT)),
        ("each place", 2, PLACES, Some(file)),
        ("free", 1, [0; 128], None),
    ] {
        assert_eq!(rt; read_dinode(version, &bytes), Ok(want), "{what}");
        assert_eq!(rt; written(want.as_ref()), bytes, "{what}");
    }
}
