//! Tests: volumes of 99 blocks, sound and with each rule broken, and reads that fail.
ghost use Rattle.std.specs.Prelude.{◌≡◌, length, IfOk};

use fsck_core::check;
use lufs_base::{Geometry, Mem};
use meta_store::{LaidDeltas, PlainStore, ReplayedDisk, StoreError};
use sector_disk::{Disk, Fail, MemDisk};
use std::alloc::Global;
use volume_model::{Counts, Kind, TxList, Verdict};

/// A volume of 99 blocks: group block 35, inode block 36, and body blocks from 37 on.
const SMALLEST: Geometry = Geometry {
    version: 1,
    groups: 1,
    bpg: 64,
    ipg: 32,
    log: 256,
};

/// Numbers of 32 bits that stand in a block, from one place on: the block, which of its numbers the first of
/// them is, and the numbers. The record of inode i begins with number 32 * i of the inode block.
type Words<'a> = (u32, u32, &'a [u32]);

/// The volume as it is made. The root has block 37.
const MADE: &[Words] = &[
    (35, 0, &[0x0009_0255, 0, 29, 61]),
    (35, 8, &[0x0700_0000]),
    (35, 40, &[0x0700_0000]),
    (36, 64, &[0x41ed_0002, 0, 0, 0, 0, 512, 0, 1000, 37]),
    (36, 87, &[1]),
    (
        37,
        0,
        &[2, 0x000c_0001, 0x2e00_0000, 2, 0x01f4_0002, 0x2e2e_0000],
    ),
];

// Puts the numbers into the image, as far as it goes.
fn put(image: &mut [u8], words: &Words) {
    let (block, first, numbers) = *words;
    let mut at = 4096 * block as usize + 4 * first as usize;
    for number in numbers {
        for byte in number.to_be_bytes() {
            if let Some(place) = image.get_mut(at) {
                *place = byte;
            }
            at = at.saturating_add(1);
        }
    }
}

// The volume as it is made, with these changes.
fn image_of(alloc: Global, changes: &[Words]) -> Result<Vec<u8>, Mem>
    ensures { IfOk result (λ image. length image.items ≡ 405504) }
{
    let mut image = vec![in alloc; 0u8; 405_504]?;
    for words in MADE {
        put(&mut image, words);
    }
    for words in changes {
        put(&mut image, words);
    }
    if image.len() != 405_504 {
        return Err(Mem);
    }
    Ok(image)
}

fn verdict_on(alloc: Global, changes: &[Words]) -> Result<Verdict, StoreError> {
    let mut store = PlainStore::new(&SMALLEST, image_of(alloc, changes)?);
    check(alloc, &mut store)
}

// The verdict on the volume as it is made, where these calls of its disk fail.
fn verdict_after(alloc: Global, fails: &[Fail]) -> Result<Verdict, StoreError> {
    let disk = MemDisk::new(image_of(alloc, &[])?, Vec::from_slice(alloc, fails)?);
    let laid = LaidDeltas::new(alloc, &TxList::new(alloc))?;
    if disk.sectors() < 792 {
        return Err(StoreError::Mem);
    }
    check(alloc, &mut ReplayedDisk::over(disk, &SMALLEST, laid))
}

#[test]
fn sound_volumes(rt: HostRuntime) -> Result<(), std::test::Fail> {
    let alloc = rt.alloc();
    let made = Verdict::Clean(Counts {
        inodes: 1,
        blocks: 1,
        free: 61,
    });
    assert_eq!(rt; verdict_on(alloc, &[]), Ok(made));
    // A file 3 of 13 blocks with a pointer block, and a directory 4.
    let file = [
        0x81a4_0001,
        0,
        0,
        0,
        0,
        53_248,
        0,
        0,
        39,
        40,
        41,
        42,
        43,
        44,
        45,
        46,
        47,
        48,
        49,
        50,
        51,
        0,
        0,
        14,
    ];
    let entries = [
        2,
        0x000c_0002,
        0x2e2e_0000,
        3,
        0x000c_0001,
        0x6600_0000,
        4,
        0x01dc_0001,
        0x6400_0000,
    ];
    let filled = [
        (35, 2, &[27, 46][..]),
        (35, 8, &[0x1f00_0000][..]),
        (35, 40, &[0xffff_0300][..]),
        (36, 64, &[0x41ed_0003][..]),
        (36, 96, &file[..]),
        (51, 0, &[52][..]),
        (36, 128, &[0x41ed_0002, 0, 0, 0, 0, 512, 0, 0, 38][..]),
        (36, 151, &[1][..]),
        (
            38,
            0,
            &[4, 0x000c_0001, 0x2e00_0000, 2, 0x01f4_0002, 0x2e2e_0000][..],
        ),
        (37, 3, &entries[..]),
    ];
    let counts = Counts {
        inodes: 3,
        blocks: 16,
        free: 46,
    };
    assert_eq!(rt; verdict_on(alloc, &filled), Ok(Verdict::Clean(counts)));
    Ok(())
}

#[test]
fn findings(rt: HostRuntime) -> Result<(), std::test::Fail> {
    let alloc = rt.alloc();
    // A directory 3 in block 38, which has the root above it.
    let three: Words = (36, 96, &[0x41ed_0002, 0, 0, 0, 0, 512, 0, 0, 38]);
    let three_claims: Words = (36, 119, &[1]);
    let three_slots: Words = (
        38,
        0,
        &[3, 0x000c_0001, 0x2e00_0000, 2, 0x01f4_0002, 0x2e2e_0000],
    );
    // The root names it.
    let names_three: Words = (
        37,
        3,
        &[2, 0x000c_0002, 0x2e2e_0000, 3, 0x01e8_0001, 0x6100_0000],
    );
    for (changes, kind, number) in [
        // The number that marks a group.
        (&[(35, 0, &[0x0009_0256][..])][..], Kind::Group, 0),
        // Mode 0 and another byte.
        (&[(36, 161, &[1][..])][..], Kind::Inode, 5),
        // Inode 1 in use.
        (&[(36, 32, &[0x81a4_0001][..])][..], Kind::Inode, 1),
        // No link.
        (&[(36, 64, &[0x41ed_0000][..])][..], Kind::Fields, 2),
        // A text of 1,025 bytes.
        (
            &[(36, 64, &[0xa1ff_0001][..]), (36, 69, &[1025][..])][..],
            Kind::Fields,
            2,
        ),
        // An inode block.
        (&[(36, 72, &[36][..])][..], Kind::Fields, 2),
        // A hole in a directory.
        (
            &[(36, 72, &[0][..]), (36, 87, &[0][..])][..],
            Kind::Fields,
            2,
        ),
        // One block, and the count says two.
        (&[(36, 87, &[2][..])][..], Kind::Fields, 2),
        // The root is a file.
        (&[(36, 64, &[0x81a4_0002][..])][..], Kind::Root, 2),
        // A file 3 has the root's block.
        (
            &[
                (36, 96, &[0x81a4_0001, 0, 0, 0, 0, 1, 0, 0, 37][..]),
                (36, 119, &[1][..]),
            ][..],
            Kind::Twice,
            37,
        ),
        // The second slot is unused.
        (&[(37, 3, &[0][..])][..], Kind::Chunk, 2),
        // A name twice.
        (
            &[(
                37,
                3,
                &[
                    2,
                    0x000c_0002,
                    0x2e2e_0000,
                    2,
                    0x000c_0001,
                    0x6100_0000,
                    2,
                    0x01dc_0001,
                    0x6100_0000,
                ][..],
            )][..],
            Kind::Chunk,
            2,
        ),
        // The first slot names another inode.
        (&[(37, 0, &[3][..])][..], Kind::Chunk, 2),
        // An inode that isn't in use, and one that there is not.
        (
            &[(
                37,
                3,
                &[2, 0x000c_0002, 0x2e2e_0000, 9, 0x01e8_0001, 0x6100_0000][..],
            )][..],
            Kind::Name,
            2,
        ),
        (
            &[(
                37,
                3,
                &[
                    2,
                    0x000c_0002,
                    0x2e2e_0000,
                    4_000_000_000,
                    0x01e8_0001,
                    0x6100_0000,
                ][..],
            )][..],
            Kind::Name,
            2,
        ),
        // The root has another directory above it.
        (
            &[
                three,
                three_claims,
                three_slots,
                names_three,
                (37, 3, &[3][..]),
            ][..],
            Kind::Parent,
            2,
        ),
        // A directory that is named twice.
        (
            &[
                three,
                three_claims,
                three_slots,
                (
                    37,
                    3,
                    &[
                        2,
                        0x000c_0002,
                        0x2e2e_0000,
                        3,
                        0x000c_0001,
                        0x6100_0000,
                        3,
                        0x01dc_0001,
                        0x6200_0000,
                    ][..],
                ),
            ][..],
            Kind::Parent,
            3,
        ),
        // A directory that has itself above it.
        (
            &[
                three,
                three_claims,
                three_slots,
                names_three,
                (38, 3, &[3][..]),
            ][..],
            Kind::Parent,
            3,
        ),
        // Two directories of which each names the other and has it above itself.
        (
            &[
                three,
                three_claims,
                (36, 128, &[0x41ed_0002, 0, 0, 0, 0, 512, 0, 0, 39][..]),
                (36, 151, &[1][..]),
                (
                    38,
                    0,
                    &[
                        3,
                        0x000c_0001,
                        0x2e00_0000,
                        4,
                        0x000c_0002,
                        0x2e2e_0000,
                        4,
                        0x01e8_0001,
                        0x6400_0000,
                    ][..],
                ),
                (
                    39,
                    0,
                    &[
                        4,
                        0x000c_0001,
                        0x2e00_0000,
                        3,
                        0x000c_0002,
                        0x2e2e_0000,
                        3,
                        0x01e8_0001,
                        0x6400_0000,
                    ][..],
                ),
            ][..],
            Kind::Parent,
            3,
        ),
        // A link too many.
        (&[(36, 64, &[0x41ed_0003][..])][..], Kind::Links, 2),
        // The bit of an inode that isn't in use.
        (&[(35, 8, &[0x2700_0000][..])][..], Kind::InodeBit, 5),
        // A claimed block that is free, and one that nothing claims.
        (&[(35, 40, &[0x0300_0000][..])][..], Kind::BlockBit, 37),
        (&[(35, 40, &[0x2700_0000][..])][..], Kind::BlockBit, 40),
        // A free inode too few.
        (&[(35, 2, &[28][..])][..], Kind::Count, 0),
        // Of two findings the one of the earlier kind, and the one with the lower number.
        (
            &[(35, 2, &[28][..]), (36, 64, &[0x41ed_0003][..])][..],
            Kind::Links,
            2,
        ),
        (&[(35, 40, &[0x2f00_0000][..])][..], Kind::BlockBit, 38),
    ] {
        assert_eq!(rt;
            verdict_on(alloc, changes),
            Ok(Verdict::Finding(kind, number)),
            "{changes:?}"
        );
    }
    Ok(())
}

#[test]
fn reads_that_fail(rt: HostRuntime) -> Result<(), std::test::Fail> {
    let alloc = rt.alloc();
    // The group block, the inode block and the root's block are read.
    for n in 1..4 {
        assert_eq!(rt;
            verdict_after(alloc, &[Fail::Read(n)]),
            Err(StoreError::Disk),
            "{n}"
        );
    }
    let made = Verdict::Clean(Counts {
        inodes: 1,
        blocks: 1,
        free: 61,
    });
    assert_eq!(rt; verdict_after(alloc, &[Fail::Read(4)]), Ok(made));
    Ok(())
}
