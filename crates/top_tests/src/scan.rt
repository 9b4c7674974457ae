//! `scan` over a host in memory: which words are a command, each status, each text, and each call that fails.
ghost use Rattle.std.specs.Prelude.{◌≡◌, ◌%◌, length};

use crate::volumes::{
    Failing, NONE, ONE, ROOT, ROWS, SAME, WRAPPED, Word, endless, holds, host_with, leaves,
    one_delta, run_words, volume,
};
use lufs_base::Mem;
use sector_disk::Fail;
use std::alloc::Global;

const NOT_A_VOLUME: &str = "not a volume S\n";

const BAD_HEADER: &str = "bad log header\n";

const FAULT: &str = "disk fault S\n";

/// What is said of a log of one transaction, of a log of none, and of a bad one, from the last place of the ring on.
const WRAPPED_ONE: &str =
    "epoch 3 head 254 tid 1 ring 255\ntx 1 sectors 3 deltas 2 bytes 1056\ncommitted 1 sectors 3\n";

const WRAPPED_NONE: &str = "epoch 3 head 254 tid 1 ring 255\ncommitted 0 sectors 0\n";

const WRAPPED_BAD: &str = "bad log 1 254\n";

/// The words of a command, its status and what it says.
const WORDS: &[(&[&str], u8, &str)] = &[
    (&["scan", "S"], 0, ONE),
    (&[], 1, "usage\n"),
    (&["scan"], 1, "usage\n"),
    (&["scan", "S", "S"], 1, "usage\n"),
    (&["scan", "-"], 1, "usage\n"),
    (&["Scan", "S"], 1, "usage\n"),
    (&["check", "S"], 7, "unsound group 0\n"),
    (&["check"], 1, "usage\n"),
    (&["check", "S", "S"], 1, "usage\n"),
    (&["check", "-"], 1, "usage\n"),
    (&["S"], 1, "usage\n"),
    (&["mkfs", "S"], 1, "usage\n"),
    (&["mkfs", "S", "1", "64", "32"], 1, "usage\n"),
    (&["mkfs", "S", "1", "64", "32", "256", "0"], 1, "usage\n"),
    (&["mkfs", "-", "1", "64", "32", "256"], 1, "usage\n"),
    (&["scan", "T"], 2, "missing T\n"),
    (&["scan", ""], 2, "missing \n"),
    (&["check", "T"], 2, "missing T\n"),
];

/// The sectors of a volume, the words of its log, a word that is changed, what fails, the status and what is said.
const VOLUMES: &[(u16, &[Word], Word, Failing, u8, &str)] = &[
    (792, &ROOT, SAME, Failing::Nothing, 0, ONE),
    (793, &ROOT, SAME, Failing::Nothing, 0, ONE),
    (0, &ROOT, SAME, Failing::Nothing, 6, NOT_A_VOLUME),
    (16, &ROOT, SAME, Failing::Nothing, 6, NOT_A_VOLUME),
    (24, &ROOT, SAME, Failing::Nothing, 6, NOT_A_VOLUME),
    (791, &ROOT, SAME, Failing::Nothing, 6, NOT_A_VOLUME),
    (792, &ROOT, (16, 0, 0), Failing::Nothing, 6, NOT_A_VOLUME),
    (
        792,
        &ROOT,
        (16, 0, 0x5419_0100),
        Failing::Nothing,
        6,
        NOT_A_VOLUME,
    ),
    (792, &ROOT, (16, 4, 2), Failing::Nothing, 6, NOT_A_VOLUME),
    (792, &ROOT, (16, 8, 0), Failing::Nothing, 6, NOT_A_VOLUME),
    (792, &ROOT, (16, 8, 65), Failing::Nothing, 6, NOT_A_VOLUME),
    (792, &ROOT, (16, 12, 56), Failing::Nothing, 6, NOT_A_VOLUME),
    (792, &ROOT, (16, 16, 0), Failing::Nothing, 6, NOT_A_VOLUME),
    (792, &ROOT, (16, 20, 248), Failing::Nothing, 6, NOT_A_VOLUME),
    (792, &ROOT, (16, 24, 98), Failing::Nothing, 6, NOT_A_VOLUME),
    (792, &ROOT, (16, 508, 1), Failing::Nothing, 6, NOT_A_VOLUME),
    (792, &ROOT, (24, 0, 0), Failing::Nothing, 11, BAD_HEADER),
    (792, &ROOT, (24, 4, 0), Failing::Nothing, 11, BAD_HEADER),
    (792, &ROOT, (24, 8, 255), Failing::Nothing, 11, BAD_HEADER),
    (792, &ROOT, (24, 12, 0), Failing::Nothing, 11, BAD_HEADER),
    (792, &ROOT, (24, 16, 1), Failing::Nothing, 11, BAD_HEADER),
    (
        792,
        &ROOT,
        (25, 0, 1),
        Failing::Nothing,
        11,
        "bad log 1 0\n",
    ),
    (
        792,
        &ROOT,
        (25, 12, 9),
        Failing::Nothing,
        11,
        "bad log 1 0\n",
    ),
    (792, &ROOT, (25, 504, 0), Failing::Nothing, 0, NONE),
    (792, &ROOT, (25, 508, 2), Failing::Nothing, 0, NONE),
    (792, &ROOT, SAME, Failing::Host(1), 5, "none"),
    (792, &ROOT, SAME, Failing::Host(2), 4, FAULT),
    (792, &ROOT, SAME, Failing::Host(3), 0, ONE),
    (792, &ROOT, SAME, Failing::Put("-", 1), 5, ""),
    (792, &ROOT, (16, 0, 0), Failing::Put("-", 1), 6, ""),
    (792, &ROOT, SAME, Failing::Put("-", 2), 0, ONE),
    (792, &ROOT, SAME, Failing::Disk(Fail::Read(1)), 4, FAULT),
    (792, &ROOT, SAME, Failing::Disk(Fail::Read(2)), 4, FAULT),
    (792, &ROOT, SAME, Failing::Disk(Fail::Read(3)), 4, FAULT),
    (792, &ROOT, SAME, Failing::Disk(Fail::Read(4)), 0, ONE),
    // Whole.
    (792, &WRAPPED, SAME, Failing::Nothing, 0, WRAPPED_ONE),
    // First and third sector only.
    (
        792,
        &WRAPPED,
        (25, 504, 0),
        Failing::Nothing,
        0,
        WRAPPED_NONE,
    ),
    // Commit of another number.
    (
        792,
        &WRAPPED,
        (26, 52, 2),
        Failing::Nothing,
        11,
        WRAPPED_BAD,
    ),
    // Commit of another count.
    (
        792,
        &WRAPPED,
        (26, 56, 1),
        Failing::Nothing,
        11,
        WRAPPED_BAD,
    ),
    // Byte after the commit.
    (
        792,
        &WRAPPED,
        (26, 64, 1),
        Failing::Nothing,
        11,
        WRAPPED_BAD,
    ),
    // Deltas out of order.
    (
        792,
        &WRAPPED,
        (25, 28, 0x25e00),
        Failing::Nothing,
        11,
        WRAPPED_BAD,
    ),
];

#[test]
fn words_and_volumes(rt: HostRuntime) -> Result<(), std::test::Fail> {
    let alloc = rt.alloc();
    for (words, status, text) in WORDS {
        let image = volume(alloc, 792, &ROOT, SAME)?;
        let is_left = leaves(alloc, words, image, Failing::Nothing, (*status, text, 0))?;
        assert!(rt; is_left, "{words:?}");
    }
    for (k, (sectors, log, change, failing, status, text)) in VOLUMES.iter().enumerate() {
        let image = volume(alloc, *sectors, log, *change)?;
        let is_left = leaves(alloc, &["scan", "S"], image, *failing, (*status, text, 0))?;
        assert!(rt; is_left, "row {k}");
    }
    Ok(())
}

// Whether the log of that volume is listed where it is allowed, and bad where not.
fn is_judged(alloc: Global, image: Vec<u8>, is_allowed: bool) -> Result<bool, Mem>
    requires { length image.items % 512 ≡ 0 }
{
    let mut host = host_with(alloc, image, Failing::Nothing)?;
    let status = run_words(alloc, &mut host, &["scan", "S"])?;
    let is_bad = holds(&host, "-", "bad log 1 0\n");
    Ok(status == if is_allowed { 0 } else { 11 } && is_bad != is_allowed)
}

#[test]
fn deltas_at_the_edges_of_their_rows(rt: HostRuntime) -> Result<(), std::test::Fail> {
    let alloc = rt.alloc();
    for (kind, home, len, is_allowed) in ROWS {
        let image = one_delta(alloc, kind, home, len)?;
        let is_told = is_judged(alloc, image, is_allowed)?;
        assert!(rt; is_told, "{kind} {home} {len}");
    }
    let image = endless(alloc)?;
    let is_left = leaves(alloc, &["scan", "S"], image, Failing::Nothing, (0, NONE, 0))?;
    assert!(rt; is_left, "endless");
    Ok(())
}
