//! `check` over a host in memory: its verdicts, logs that it replays, and each call that fails.
ghost use Rattle.std.specs.Prelude.{◌≡◌, ◌%◌, IfOk, length};

use crate::volumes::{CLEAN, Failing, Word, leaves, log_group, made, put};
use lufs_base::Mem;
use sector_disk::Fail;
use std::alloc::Global;

/// The finding of the smallest volume where the bit of the root's block is clear.
const ROOT_BLOCK: &str = "unsound blockbit 37\n";

/// The block bits of the group of the smallest volume, with the bit of the root's block clear.
const CLEAR_BIT: Word = (280, 160, 0x0300_0000);

/// The same with the bit set, as the volume is made.
const SET_BIT: Word = (280, 160, 0x0700_0000);

const FAULT: &str = "disk fault S\n";

/// Words of the volume that are changed, what fails, the status and what is said. The group's record is in sector 280, the
/// root's from byte 256 of sector 288 on, its chunk in sector 296. Superblock, log header and ring are read, and then the
/// group's block.
const VOLUMES: &[(&[Word], Failing, u8, &str)] = &[
    (&[], Failing::Nothing, 0, CLEAN),
    (&[(280, 0, 0)], Failing::Nothing, 7, "unsound group 0\n"),
    (&[(288, 128, 1)], Failing::Nothing, 7, "unsound inode 1\n"),
    (
        &[(288, 276, 511)],
        Failing::Nothing,
        7,
        "unsound fields 2\n",
    ),
    (
        &[(288, 256, 0x81a4_0002)],
        Failing::Nothing,
        7,
        "unsound root 2\n",
    ),
    (
        &[(288, 276, 1024), (288, 348, 2), (288, 292, 37)],
        Failing::Nothing,
        7,
        "unsound fields 2\n",
    ),
    (
        &[(288, 276, 4608), (288, 348, 2), (288, 292, 37)],
        Failing::Nothing,
        7,
        "unsound twice 37\n",
    ),
    (&[(296, 0, 3)], Failing::Nothing, 7, "unsound chunk 2\n"),
    (&[(296, 12, 3)], Failing::Nothing, 7, "unsound name 2\n"),
    (
        &[(288, 256, 0x41ed_0003)],
        Failing::Nothing,
        7,
        "unsound links 2\n",
    ),
    (
        &[(280, 32, 0x0300_0000)],
        Failing::Nothing,
        7,
        "unsound inodebit 2\n",
    ),
    (&[CLEAR_BIT], Failing::Nothing, 7, ROOT_BLOCK),
    (
        &[(280, 160, 0x0f00_0000)],
        Failing::Nothing,
        7,
        "unsound blockbit 38\n",
    ),
    (&[(280, 8, 30)], Failing::Nothing, 7, "unsound count 0\n"),
    (
        &[(16, 0, 0), CLEAR_BIT],
        Failing::Nothing,
        6,
        "not a volume S\n",
    ),
    (
        &[(24, 0, 0), CLEAR_BIT],
        Failing::Nothing,
        11,
        "bad log header\n",
    ),
    (
        &[(25, 504, 1), (25, 508, 1), CLEAR_BIT],
        Failing::Nothing,
        11,
        "bad log 1 0\n",
    ),
    (&[], Failing::Disk(Fail::Read(1)), 4, FAULT),
    (&[], Failing::Disk(Fail::Read(2)), 4, FAULT),
    (&[], Failing::Disk(Fail::Read(3)), 4, FAULT),
    (&[], Failing::Disk(Fail::Read(4)), 4, FAULT),
    (&[], Failing::Disk(Fail::Read(1000)), 0, CLEAN),
    (
        &[(16, 0, 0)],
        Failing::Disk(Fail::Read(2)),
        6,
        "not a volume S\n",
    ),
    (
        &[(24, 0, 0)],
        Failing::Disk(Fail::Read(3)),
        11,
        "bad log header\n",
    ),
    (&[], Failing::Host(1), 5, "none"),
    (&[], Failing::Host(2), 4, FAULT),
    (&[], Failing::Put("-", 1), 5, ""),
    (&[CLEAR_BIT], Failing::Put("-", 1), 7, ""),
];

/// The block bits that the log has, those at home, the status and what is said.
const LOGS: [(Word, Word, u8, &str); 3] = [
    (SET_BIT, SET_BIT, 0, CLEAN),
    (SET_BIT, CLEAR_BIT, 0, CLEAN),
    (CLEAR_BIT, SET_BIT, 7, ROOT_BLOCK),
];

// The smallest volume as it is made, with these words changed.
fn changed(alloc: Global, changes: &[Word]) -> Result<Vec<u8>, Mem>
    ensures { IfOk result (λ image. length image.items % 512 ≡ 0) }
{
    let mut image = made(alloc)?;
    for change in changes {
        put(&mut image, *change);
    }
    Ok(image)
}

// The smallest volume with block bits in its log, and others at home.
fn logged(alloc: Global, in_log: Word, at_home: Word) -> Result<Vec<u8>, Mem>
    ensures { IfOk result (λ image. length image.items % 512 ≡ 0) }
{
    let mut image = made(alloc)?;
    put(&mut image, in_log);
    log_group(&mut image);
    put(&mut image, at_home);
    Ok(image)
}

#[test]
fn volumes_that_are_checked(rt: HostRuntime) -> Result<(), std::test::Fail> {
    let alloc = rt.alloc();
    for (k, (changes, failing, status, text)) in VOLUMES.iter().enumerate() {
        let image = changed(alloc, changes)?;
        let is_left = leaves(alloc, &["check", "S"], image, *failing, (*status, text, 0))?;
        assert!(rt; is_left, "row {k}");
    }
    for (in_log, at_home, status, text) in LOGS {
        let image = logged(alloc, in_log, at_home)?;
        let is_left = leaves(
            alloc,
            &["check", "S"],
            image,
            Failing::Nothing,
            (status, text, 0),
        )?;
        assert!(rt; is_left, "{in_log:?} {at_home:?}");
    }
    Ok(())
}
