//! Sessions of `drive` over a host in memory: what they answer and leave, what they refuse, and each call that fails.
ghost use Rattle.std.specs.Prelude.{◌≡◌, ◌%◌, length};

use crate::volumes::{CLEAN, Failing, SAME, Word, answers, holds, host_with, made, put};
use host_io::MemHost;
use lufs_base::Mem;
use sector_disk::Fail;
use std::alloc::Global;

const WORDS: [&str; 4] = ["drive", "S", "sch", "s0"];

const SCRIPT: &str = "create /a 644\nstat /a\nlist /\n";

const REPLIES: &str = "1 ok\n2 ok 3 file 644 1 0 0 0 1000 0\n3 ok 1 end a\n";

const HISTORY: &str =
    "session 2 1000 1\nentry 0 1 3 0 0 0 a ok\nentry 0 2 - 0 0 0 a ok 3 file 644 1 0 0 0 1000 0\nentry 0 3 - 0 0 0 a ok 1 end a\n";

/// The history of a session whose first reply was lost.
const LOST: &str = "session 2 1000 1\nentry 0 1 3 0 0 - a ok\n";

const SUMMARY: &str = "answered 3 left 0 commits 0 rolls 0\n";

const NONE: &str = "answered 0 left 0 commits 0 rolls 0\n";

const USAGE: &str = "usage\n";

const FAULT: &str = "disk fault S\n";

/// What `scan` says where the last epoch is spent.
const LAST: &str = "epoch 4294967295 head 0 tid 1 ring 255\ncommitted 0 sectors 0\n";

/// A source, by pieces of its text and how often each stands there.
type Pieces = &'static [(&'static str, u32)];

/// Eight turns of the first client.
const EIGHT: Pieces = &[("0", 8)];

const LINES: Pieces = &[(SCRIPT, 1)];

/// A schedule, a script, the status, what is said, and the replies.
const SESSIONS: &[(Pieces, Pieces, u8, &str, &str)] = &[
    (EIGHT, &[], 0, NONE, ""),
    (&[], &[("# a note\n\n  \n", 1)], 0, NONE, ""),
    (
        &[("0", 3)],
        &[("create /a 644\nstat /a", 1)],
        0,
        "answered 0 left 2 commits 0 rolls 0\n",
        "",
    ),
    (
        &[("0", 4)],
        &[("create /a 644\nstat /a", 1)],
        0,
        "answered 1 left 1 commits 0 rolls 0\n",
        "1 ok\n",
    ),
    (
        &[("c0r0 0\n0", 1)],
        &[("create /a 644", 1)],
        0,
        "answered 1 left 0 commits 0 rolls 0\n",
        "1 ok\n",
    ),
    (
        EIGHT,
        &[("mkdir a 755\n!create /a 644\n\nlink /a /b\nstat\t/", 1)],
        0,
        "answered 4 left 0 commits 0 rolls 0\n",
        "1 syntax\n2 syntax\n4 syntax\n5 syntax\n",
    ),
    // Names that fill a chunk.
    (
        &[("0", 18)],
        &[
            ("create /", 1),
            ("n", 255),
            (" 644\ncreate /", 1),
            ("n", 256),
            (" 644\ncreate /", 1),
            ("n", 215),
            (" 644\ncreate /x 644\nstat /\n", 1),
        ],
        0,
        "answered 5 left 0 commits 0 rolls 0\n",
        "1 ok\n2 nametoolong\n3 ok\n4 ok\n5 ok 2 dir 755 2 0 0 1024 1000 1\n",
    ),
    (
        &[("0", 1_048_577)],
        &[("\n", 100_000)],
        9,
        "over limit sch 1048576\n",
        "none",
    ),
    (
        &[("\n", 100_000)],
        &[("\n", 100_001)],
        9,
        "over limit s0 100000\n",
        "none",
    ),
    (&[("\n", 100_000)], &[("\n", 100_000)], 0, NONE, ""),
];

/// A word of the volume that is changed, the status, what is said, and what `scan` and `check` say of what is left.
const LEFT: [(Word, u8, &str, &str, &str); 3] = [
    (
        SAME,
        0,
        SUMMARY,
        "epoch 2 head 0 tid 1 ring 255\ncommitted 0 sectors 0\n",
        "clean inodes 2 blocks 1 free 61\n",
    ),
    ((24, 4, u32::MAX), 8, "epoch spent S\n", LAST, CLEAN),
    (
        (24, 4, u32::MAX - 1),
        0,
        SUMMARY,
        LAST,
        "clean inodes 2 blocks 1 free 61\n",
    ),
];

/// Words of a command, the status and what is said.
const REFUSED: &[(&[&str], u8, &str)] = &[
    (&["drive", "S", "sch"], 1, USAGE),
    (&["drive", "S", "sch", "s0", "s1"], 1, USAGE),
    (&["drive", "S", "s0", "s0"], 1, USAGE),
    (&["drive", "S", "S", "s0"], 1, USAGE),
    (&["drive", "S", "sch", "S"], 1, USAGE),
    (&["drive", "-", "sch", "s0"], 1, USAGE),
    (&["drive", "S", "sch", "S.history"], 1, USAGE),
    (&["drive", "S", "s0.out", "s0"], 1, USAGE),
    (&["drive", "s0.out", "sch", "s0"], 1, USAGE),
    (&["drive", "S", "none", "s0"], 2, "missing none\n"),
    (&["drive", "S", "sch", "none"], 2, "missing none\n"),
    (&["drive", "T", "sch", "s0"], 2, "missing T\n"),
];

/// What fails, the status, what is said, the replies and the history.
const FAILS: &[(Failing, u8, &str, &str, &str)] = &[
    (Failing::Nothing, 0, SUMMARY, REPLIES, HISTORY),
    (Failing::Host(1), 5, "none", "none", "none"),
    (Failing::Host(2), 3, "read fault sch\n", "none", "none"),
    (Failing::Host(3), 3, "read fault s0\n", "none", "none"),
    (Failing::Host(4), 4, FAULT, "none", "none"),
    (
        Failing::Host(5),
        5,
        "reply fault S.history\n",
        "none",
        "none",
    ),
    (Failing::Host(6), 5, "reply fault s0.out\n", "none", ""),
    (
        Failing::Take("sch", 2),
        3,
        "read fault sch\n",
        "none",
        "none",
    ),
    (Failing::Take("s0", 1), 3, "read fault s0\n", "none", "none"),
    (Failing::Disk(Fail::Read(1)), 4, FAULT, "none", "none"),
    (Failing::Disk(Fail::Read(5)), 4, FAULT, "none", "none"),
    (
        Failing::Put("s0.out", 1),
        5,
        "reply fault s0.out\n",
        "",
        LOST,
    ),
    (
        Failing::Put("S.history", 1),
        5,
        "reply fault S.history\n",
        REPLIES,
        "",
    ),
    (Failing::Put("-", 1), 5, "", REPLIES, HISTORY),
    (Failing::Disk(Fail::Write(1)), 4, FAULT, REPLIES, HISTORY),
    (Failing::Disk(Fail::Flush(1)), 4, FAULT, REPLIES, HISTORY),
    (Failing::Disk(Fail::Write(4)), 4, FAULT, REPLIES, HISTORY),
    (Failing::Disk(Fail::Flush(2)), 4, FAULT, REPLIES, HISTORY),
];

// The text of these pieces.
fn joined(alloc: Global, pieces: Pieces) -> Result<Vec<u8>, Mem> {
    let mut text = Vec::new(alloc);
    for (piece, times) in pieces {
        for _ in 0..*times {
            text.extend_from_slice(piece.as_bytes())?;
        }
    }
    Ok(text)
}

// A host that holds the smallest volume with that word changed, a schedule and a script.
fn host_of(
    alloc: Global,
    change: Word,
    failing: Failing,
    schedule: Pieces,
    script: Pieces,
) -> Result<MemHost, Mem> {
    let mut image = made(alloc)?;
    put(&mut image, change);
    let mut host = host_with(alloc, image, failing)?;
    host.add_source("sch", joined(alloc, schedule)?.as_slice())?;
    host.add_source("s0", joined(alloc, script)?.as_slice())?;
    Ok(host)
}

// Whether a session of that schedule and script says that, and makes those replies.
fn replies(
    alloc: Global,
    schedule: Pieces,
    script: Pieces,
    status: u8,
    (text, replies): (&str, &str),
) -> Result<bool, Mem> {
    let mut host = host_of(alloc, SAME, Failing::Nothing, schedule, script)?;
    let is_told = answers(alloc, &mut host, &WORDS, status, text)?;
    Ok(is_told && holds(&host, "s0.out", replies))
}

// Whether the session says that over a volume with that word changed, and `scan` and `check` the other two texts after it.
fn is_left(alloc: Global, change: Word, status: u8, texts: [&str; 3]) -> Result<bool, Mem> {
    let [text, scanned, checked] = texts;
    let mut host = host_of(alloc, change, Failing::Nothing, EIGHT, LINES)?;
    Ok(
        answers(alloc, &mut host, &WORDS, status, text)?
            && answers(alloc, &mut host, &["scan", "S"], 0, scanned)?
            && answers(alloc, &mut host, &["check", "S"], 0, checked)?,
    )
}

// Whether these words are answered so, and no reply is made.
fn is_refused(alloc: Global, words: &[&str], status: u8, text: &str) -> Result<bool, Mem> {
    let mut host = host_of(alloc, SAME, Failing::Nothing, EIGHT, LINES)?;
    let is_told = answers(alloc, &mut host, words, status, text)?;
    Ok(is_told && holds(&host, "s0.out", "none"))
}

// Whether the session where a call fails says the first text, replies the second, and has the third as its history.
fn ends(alloc: Global, failing: Failing, status: u8, texts: [&str; 3]) -> Result<bool, Mem> {
    let [text, replies, history] = texts;
    let mut host = host_of(alloc, SAME, failing, EIGHT, LINES)?;
    let is_told = answers(alloc, &mut host, &WORDS, status, text)?;
    Ok(is_told && holds(&host, "s0.out", replies) && holds(&host, "S.history", history))
}

#[test]
fn sessions_and_what_they_leave(rt: HostRuntime) -> Result<(), std::test::Fail> {
    let alloc = rt.alloc();
    for (k, (schedule, script, status, text, said)) in SESSIONS.iter().enumerate() {
        let is_told = replies(alloc, schedule, script, *status, (text, said))?;
        assert!(rt; is_told, "row {k}");
    }
    for (change, status, text, scanned, checked) in LEFT {
        let is_left = is_left(alloc, change, status, [text, scanned, checked])?;
        assert!(rt; is_left, "{change:?}");
    }
    Ok(())
}

#[test]
fn words_and_calls_that_fail(rt: HostRuntime) -> Result<(), std::test::Fail> {
    let alloc = rt.alloc();
    for (words, status, text) in REFUSED {
        let is_refused = is_refused(alloc, words, *status, text)?;
        assert!(rt; is_refused, "{words:?}");
    }
    for (k, (failing, status, text, replies, history)) in FAILS.iter().enumerate() {
        let is_ended = ends(alloc, *failing, *status, [text, replies, history])?;
        assert!(rt; is_ended, "row {k}");
    }
    Ok(())
}
