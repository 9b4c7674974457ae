//! `mkfs` over a host in memory: what it makes, what it refuses, and each call that fails.

use crate::volumes::{CLEAN, Failing, ROOT, SAME, answers, leaves, volume};
use host_io::MemHost;
use sector_disk::Fail;

const MADE: &str = "made blocks 99 inodes 30 free 61 ring 255\n";

const FAULT: &str = "disk fault S\n";

const USAGE: &str = "usage\n";

/// What is said of numbers in range, of a disk that is too small for any volume.
const IN_RANGE: &str = "geometry sectors 8\n";

/// The words of commands that follow on each other, their statuses and what they say.
const STEPS: &[(&[&str], u8, &str)] = &[
    (&["mkfs", "S", "1", "64", "32", "256"], 0, MADE),
    (
        &["scan", "S"],
        0,
        "epoch 1 head 0 tid 1 ring 255\ncommitted 0 sectors 0\n",
    ),
    (&["check", "S"], 0, CLEAN),
    (
        &["mkfs", "T", "3", "72", "64", "264"],
        0,
        "made blocks 252 inodes 190 free 206 ring 263\n",
    ),
    (
        &["scan", "T"],
        0,
        "epoch 1 head 0 tid 1 ring 263\ncommitted 0 sectors 0\n",
    ),
    (&["check", "T"], 0, "clean inodes 1 blocks 1 free 206\n"),
    (
        &["mkfs", "U", "1", "60", "32", "256"],
        10,
        "geometry bpg 60\n",
    ),
    (&["scan", "U"], 2, "missing U\n"),
];

/// The groups, blocks and inodes of a group, and sectors of the log, the status and what is said.
const NUMBERS: &[([&str; 4], u8, &str)] = &[
    (["1", "64", "32", "256"], 10, IN_RANGE),
    (["64", "2048", "1024", "65536"], 10, IN_RANGE),
    (["0", "64", "32", "256"], 10, "geometry G 0\n"),
    (["65", "64", "32", "256"], 10, "geometry G 65\n"),
    (["1", "56", "32", "256"], 10, "geometry bpg 56\n"),
    (["1", "63", "32", "256"], 10, "geometry bpg 63\n"),
    (["1", "68", "32", "256"], 10, "geometry bpg 68\n"),
    (["1", "2049", "32", "256"], 10, "geometry bpg 2049\n"),
    (["1", "2056", "32", "256"], 10, "geometry bpg 2056\n"),
    (["1", "64", "0", "256"], 10, "geometry ipg 0\n"),
    (["1", "64", "31", "256"], 10, "geometry ipg 31\n"),
    (["1", "64", "48", "256"], 10, "geometry ipg 48\n"),
    (["1", "64", "1025", "256"], 10, "geometry ipg 1025\n"),
    (["1", "64", "1056", "256"], 10, "geometry ipg 1056\n"),
    (["1", "64", "32", "248"], 10, "geometry L 248\n"),
    (["1", "64", "32", "255"], 10, "geometry L 255\n"),
    (["1", "64", "32", "260"], 10, "geometry L 260\n"),
    (["1", "64", "32", "65537"], 10, "geometry L 65537\n"),
    (["1", "64", "32", "65544"], 10, "geometry L 65544\n"),
    (["65", "0", "0", "0"], 10, "geometry G 65\n"),
    (["1", "0", "0", "0"], 10, "geometry bpg 0\n"),
    (["1", "64", "0", "0"], 10, "geometry ipg 0\n"),
    (
        ["18446744073709551615", "64", "32", "256"],
        10,
        "geometry G 18446744073709551615\n",
    ),
    (["18446744073709551616", "64", "32", "256"], 1, USAGE),
    (["01", "64", "32", "256"], 1, USAGE),
    (["00", "64", "32", "256"], 1, USAGE),
    (["+1", "64", "32", "256"], 1, USAGE),
    (["-1", "64", "32", "256"], 1, USAGE),
    (["1", "", "32", "256"], 1, USAGE),
    (["1", "64", "3 2", "256"], 1, USAGE),
    (["1", "64", "32", "0x100"], 1, USAGE),
];

/// The sectors of the disk, what fails, the status, what is said, and how many writes and flushes the disk lists.
const DISKS: &[(u16, Failing, u8, &str, u64)] = &[
    (0, Failing::Nothing, 10, "geometry sectors 0\n", 0),
    (791, Failing::Nothing, 10, "geometry sectors 791\n", 0),
    (792, Failing::Nothing, 0, MADE, 7),
    (793, Failing::Nothing, 0, MADE, 7),
    (792, Failing::Disk(Fail::Write(1)), 4, FAULT, 1),
    (792, Failing::Disk(Fail::Flush(3)), 4, FAULT, 6),
    (792, Failing::Disk(Fail::Read(1)), 0, MADE, 7),
    (792, Failing::Host(1), 5, "none", 0),
    (792, Failing::Host(2), 4, FAULT, 0),
    (792, Failing::Put("-", 1), 5, "", 7),
];

#[test]
fn volumes_that_are_made(rt: HostRuntime) -> Result<(), std::test::Fail> {
    let alloc = rt.alloc();
    let mut host = MemHost::new(alloc, 1000);
    for (words, status, text) in STEPS {
        let is_told = answers(alloc, &mut host, words, *status, text)?;
        assert!(rt; is_told, "{words:?}");
    }
    Ok(())
}

#[test]
fn numbers_and_disks(rt: HostRuntime) -> Result<(), std::test::Fail> {
    let alloc = rt.alloc();
    for ([groups, bpg, ipg, log], status, text) in NUMBERS {
        let words = ["mkfs", "S", groups, bpg, ipg, log];
        let image = volume(alloc, 8, &[], SAME)?;
        let is_left = leaves(alloc, &words, image, Failing::Nothing, (*status, text, 0))?;
        assert!(rt; is_left, "{words:?}");
    }
    let words = ["mkfs", "S", "1", "64", "32", "256"];
    for (k, (sectors, failing, status, text, calls)) in DISKS.iter().enumerate() {
        let image = volume(alloc, *sectors, &ROOT, SAME)?;
        let is_left = leaves(alloc, &words, image, *failing, (*status, text, *calls))?;
        assert!(rt; is_left, "row {k}");
    }
    Ok(())
}
