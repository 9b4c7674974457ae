//! Superblocks at the edges of the ranges, and their bytes as the format gives them.
use crate::{read_super, write_super};
use lufs_base::{Geometry, put_u32};

// Writes a word, where it fits.
fn put(bytes: &mut [u8], at: usize, word: u32) {
    if bytes.len() >= 4 && at <= bytes.len() - 4 {
        put_u32(bytes, at, word);
    }
}

fn put_all(bytes: &mut [u8], words: &[(usize, u32)]) {
    for (at, word) in words {
        put(bytes, *at, *word);
    }
}

// The superblock of one such volume.
fn superblock(groups: u32, bpg: u32, ipg: u32, log: u32, blocks: u32) -> [u8; 512] {
    let mut sector = [0; 512];
    put_all(
        &mut sector,
        &[
            (0, 0x11954),
            (4, 1),
            (8, groups),
            (12, bpg),
            (16, ipg),
            (20, log),
            (24, blocks),
        ],
    );
    sector
}

#[test]
fn superblocks_at_their_edges(rt: HostRuntime) {
    for (groups, bpg, ipg, log, blocks, want) in [
        (1, 64, 32, 256, 99, true),
        (64, 2048, 1024, 65536, 139267, true),
        (0, 64, 32, 256, 35, false),
        (65, 64, 32, 256, 4195, false),
        (1, 56, 32, 256, 91, false),
        (1, 68, 32, 256, 103, false),
        (1, 2056, 32, 256, 2091, false),
        (1, 64, 0, 256, 99, false),
        (1, 64, 48, 256, 99, false),
        (1, 64, 1056, 256, 99, false),
        (1, 64, 32, 248, 98, false),
        (1, 64, 32, 260, 99, false),
        (1, 64, 32, 65544, 8260, false),
    ] {
        let sector = superblock(groups, bpg, ipg, log, blocks);
        let is_super = read_super(&sector, 8 * u64::from(blocks)).is_ok();
        assert_eq!(rt; is_super, want, "{groups} {bpg} {ipg} {log}");
    }
    for (at, word, sectors, want) in [
        (28, 0, 792, true),
        (28, 0, 791, false),
        (0, 0x11955, 792, false),
        (4, 2, 792, false),
        (24, 98, 792, false),
        (28, 1, 792, false),
        (508, 1, 792, false),
    ] {
        let mut sector = superblock(1, 64, 32, 256, 99);
        put(&mut sector, at, word);
        assert_eq!(rt;
            read_super(&sector, sectors).is_ok(),
            want,
            "{at} {word} {sectors}"
        );
    }
}

#[test]
fn superblocks_as_written(rt: HostRuntime) {
    let smallest = Geometry {
        version: 1,
        groups: 1,
        bpg: 64,
        ipg: 32,
        log: 256,
    };
    let largest = Geometry {
        version: 1,
        groups: 64,
        bpg: 2048,
        ipg: 1024,
        log: 65536,
    };
    let mut sector = [0xee; 512];
    write_super(&smallest, &mut sector);
    assert_eq!(rt; sector, superblock(1, 64, 32, 256, 99));
    assert_eq!(rt; read_super(&sector, 792), Ok(smallest));
    write_super(&largest, &mut sector);
    assert_eq!(rt; sector, superblock(64, 2048, 1024, 65536, 139267));
    assert_eq!(rt; read_super(&sector, 8 * 139267), Ok(largest));
}
