//! Group records that are read or refused, and what a group gives out and takes back.
ghost use Rattle.std.specs.Prelude.{◌≡◌, ◌≤◌, true, false};
ghost use Rattle.volume_model.specs.Format.{bit_at};
ghost use Rattle.cyl_groups.specs.Group.{IsCounted};

use crate::{Group, read_group, write_group};
use lufs_base::{Geometry, put_u32};

const SMALLEST: Geometry = Geometry {
    version: 1,
    groups: 1,
    bpg: 64,
    ipg: 32,
    log: 256,
};

/// The geometry of the largest groups.
const LARGEST: Geometry = Geometry {
    version: 1,
    groups: 64,
    bpg: 2048,
    ipg: 1024,
    log: 65536,
};

// Bytes that begin so, and zeros.
fn inode_bits(first: [u8; 4]) -> [u8; 128] {
    let mut bits = [0; 128];
    bits[..4].copy_from_slice(&first);
    bits
}

fn block_bits(first: [u8; 8]) -> [u8; 256] {
    let mut bits = [0; 256];
    bits[..8].copy_from_slice(&first);
    bits
}

// A group of the smallest volume with these bits.
fn with_bits(inodes: [u8; 4], blocks: [u8; 8]) -> Group {
    Group {
        number: 0,
        free_inodes: 29,
        free_blocks: 61,
        ipg: 32,
        bpg: 64,
        inode_bits: inode_bits(inodes),
        block_bits: block_bits(blocks),
    }
}

// The group of the smallest volume as it was made.
fn made() -> Group
    ensures ipg { result.ipg ≡ 32 }
    ensures bpg { result.bpg ≡ 64 }
    ensures inode { bit_at result.inode_bits 3 ≡ false }
    ensures block { bit_at result.block_bits 63 ≡ false }
    ensures counted { IsCounted result }
{
    let mut group = Group {
        number: 0,
        free_inodes: 29,
        free_blocks: 61,
        ipg: 32,
        bpg: 64,
        inode_bits: [0; 128],
        block_bits: [0; 256],
    };
    group.inode_bits[0] = 7;
    group.block_bits[0] = 7;
    group
}

// The record of that group, with this word from byte `at`.
fn changed(at: usize, word: u32) -> [u8; 416]
    requires { at ≤ 412 }
{
    let mut bytes = [0; 416];
    put_u32(&mut bytes, 0, 0x0009_0255);
    put_u32(&mut bytes, 8, 29);
    put_u32(&mut bytes, 12, 61);
    put_u32(&mut bytes, 32, 0x0700_0000);
    put_u32(&mut bytes, 160, 0x0700_0000);
    put_u32(&mut bytes, at, word);
    bytes
}

// The record of group 1 of the largest groups, with this word from byte `at`.
fn largest(at: usize, word: u32) -> [u8; 416]
    requires { at ≤ 412 }
{
    let mut bytes = [0; 416];
    put_u32(&mut bytes, 0, 0x0009_0255);
    put_u32(&mut bytes, 4, 1);
    put_u32(&mut bytes, 160, 0xffff_ffff);
    put_u32(&mut bytes, 164, 0x0100_0000);
    put_u32(&mut bytes, at, word);
    bytes
}

#[test]
fn records(rt: HostRuntime) {
    for (what, n, at, word, want) in [
        ("as made", 0, 4, 0, true),
        ("magic", 0, 0, 0x0009_0254, false),
        ("group 1 for 0", 0, 4, 1, false),
        ("group 0 for 1", 1, 4, 0, false),
        ("group 1", 1, 4, 1, true),
        ("free inodes", 0, 8, 0xffff_ffff, true),
        ("free blocks", 0, 12, 0xffff_ffff, true),
        ("first of gap", 0, 16, 0x0100_0000, false),
        ("last of gap", 0, 28, 1, false),
        ("inode 0 free", 0, 32, 0x0600_0000, false),
        ("inode 1 free", 0, 32, 0x0500_0000, false),
        ("inode 2 free", 0, 32, 0x0300_0000, true),
        ("other order", 0, 32, 0xe000_0000, false),
        ("inode 31", 0, 32, 0x0700_0080, true),
        ("inode 32", 0, 36, 0x0100_0000, false),
        ("inode 1023", 0, 156, 0x80, false),
        ("block 0 free", 0, 160, 0x0600_0000, false),
        ("block 1 free", 0, 160, 0x0500_0000, false),
        ("block 2 free", 0, 160, 0x0300_0000, true),
        ("block 63", 0, 164, 0x80, true),
        ("block 64", 0, 168, 0x0100_0000, false),
        ("block 2047", 0, 412, 0x80, false),
    ] {
        if at <= 412 {
            let bytes = changed(at, word);
            assert_eq!(rt; read_group(&SMALLEST, n, &bytes).is_ok(), want, "{what}");
        }
    }
    for (what, at, word, want) in [
        ("as made", 4, 1, true),
        ("inode 1023", 156, 0x80, true),
        ("block 31 free", 160, 0xffff_ff7f, false),
        ("block 32 free", 164, 0, false),
        ("block 33", 164, 0x0300_0000, true),
        ("block 2047", 412, 0x80, true),
    ] {
        if at <= 412 {
            let bytes = largest(at, word);
            assert_eq!(rt;
                read_group(&LARGEST, 1, &bytes).is_ok(),
                want,
                "largest, {what}"
            );
        }
    }
    let bytes = changed(4, 0);
    let group = with_bits([7, 0, 0, 0], [7, 0, 0, 0, 0, 0, 0, 0]);
    assert_eq!(rt; read_group(&SMALLEST, 0, &bytes), Ok(group));
    let mut out = [0xee; 416];
    write_group(&group, &mut out);
    assert_eq!(rt; out, bytes);
}

#[test]
fn free_and_used(rt: HostRuntime) {
    let no_blocks = [0; 8];
    for (what, inodes, want) in [
        ("none", [0xff, 0xff, 0xff, 0xff], None),
        ("first", [0xfe, 0xff, 0xff, 0xff], Some(0)),
        ("third", [0x03, 0, 0, 0], Some(2)),
        ("last", [0xff, 0xff, 0xff, 0x7f], Some(31)),
    ] {
        let group = with_bits(inodes, no_blocks);
        assert_eq!(rt; group.first_free_inode(), want, "{what}");
    }
    let all = 0xff;
    for (what, blocks, from, want) in [
        ("none", [all; 8], 0, None),
        ("first", [7, 0, 0, 0, 0, 0, 0, 0], 0, Some(3)),
        ("from the first", [7, 0, 0, 0, 0, 0, 0, 0], 3, Some(3)),
        ("from after it", [7, 0, 0, 0, 0, 0, 0, 0], 4, Some(4)),
        ("before", [0xfe, all, all, all, all, all, all, all], 1, None),
        (
            "last",
            [all, all, all, all, all, all, all, 0x7f],
            9,
            Some(63),
        ),
        ("from the end", [0; 8], 64, None),
        ("from past it", [0; 8], 0xffff_ffff, None),
    ] {
        let group = with_bits([0; 4], blocks);
        assert_eq!(rt; group.first_free_block(from), want, "{what}");
    }
    let mut group = made();
    group.set_inode(3);
    assert_eq!(rt;
        (group.free_inodes, group.inode_bits),
        (28, inode_bits([0x0f, 0, 0, 0]))
    );
    group.set_block(63);
    assert_eq!(rt;
        (group.free_blocks, group.block_bits),
        (60, block_bits([7, 0, 0, 0, 0, 0, 0, 0x80]))
    );
    group.clear_inode(3);
    group.clear_block(63);
    assert_eq!(rt; group, with_bits([7, 0, 0, 0], [7, 0, 0, 0, 0, 0, 0, 0]));
}
