//! Lines, replies and a history, by the examples of `docs/SCRIPTS.md`.
use lufs_base::{Bytes, Epoch, Name};
use script_text::{
    LinesError, history_text, is_short, lines_of, read_line, reply_text, session_text,
};
use std::process::Abort;
use std::test::Fail;
use tree_types::{
    Call, Cause, Commit, Cred, Entry, Line, NameList, PathText, Refusal, Reply, RollNote, StatInfo,
    Wait,
};

const CALLER: Cred = Cred { uid: 5, gid: 6 };

// What a line is: `-` skipped, `?` no call, `.` a call, `!` one that waits for its commit.
fn kind_of(line: &Option<Line>) -> u8 {
    match line {
        None => b'-',
        Some(line) => match (&line.call, line.sync) {
            (None, _) => b'?',
            (Some(_), false) => b'.',
            (Some(_), true) => b'!',
        },
    }
}

// Lines, each after what it is.
const KINDS: &str = "-
-   
-#create /a 644\t\r
? # x
?df\r
?df\t
?stat /\u{e4}
.  create   /a  644 
.create /a 0644
?create /a 1644
?create /a 648
?create a 644
?create /a
!!create /a 644
?! create /a 644
?!!create /a 644
?Create /a 644
.mkdir /d 755
.link /a /b
?link /a b
.symlink x /l
.rename /a /b
.remove /a
?rmdir /d /d
.rmdir /d
.chmod /a 600
.chown /a 4294967295 0
?chown /a 4294967296 0
.write /a 0 0aF9
?write /a 0 0aF
?write /a 0 0x
?write /a 0
.trunc /a 18446744073709551615
?trunc /a 18446744073709551616
?trunc /a 00
?trunc /a +1
!fsync /a
?!fsync /a
.read /a 0 4096
?read /a 0 4097
?read /a 0 0
.stat /a
.lstat /a
.list /
.list / a
?list / a/b
.readlink /l
.df
?df /
.as 5 5
?as 5";

#[test]
fn kinds_of_lines(rt: HostRuntime) -> Result<(), Fail> {
    for row in KINDS.as_bytes().split(|b| *b == b'\n') {
        let [want, text @ ..] = row else {
            return Err("an empty row".into());
        };
        let line = read_line(rt.alloc(), 1, CALLER, text)?;
        assert_eq!(rt; kind_of(&line), *want, "{}", row.escape_ascii());
    }
    Ok(())
}

#[test]
fn longest_lines(rt: HostRuntime) -> Result<(), Fail> {
    let alloc = rt.alloc();
    for (front, filler, length, want) in [
        ("df", b' ', 36_864, b'.'),
        ("df", b' ', 36_865, b'?'),
        ("#", b' ', 36_865, b'-'),
        ("write /a 0 ", b'0', 11 + 32_768, b'.'),
        ("write /a 0 ", b'0', 11 + 32_770, b'?'),
        ("list / ", b'a', 7 + 255, b'.'),
        ("list / ", b'a', 7 + 256, b'?'),
    ] {
        let mut text = Vec::from_slice(alloc, front.as_bytes())?;
        text.resize(length, filler)?;
        let line = read_line(alloc, 1, CALLER, &text)?;
        assert_eq!(rt; kind_of(&line), want, "{front} {length}");
    }
    Ok(())
}

#[test]
fn one_line(rt: HostRuntime) -> Result<(), Fail> {
    let alloc = rt.alloc();
    let line = read_line(alloc, 7, CALLER, b"!write /a/b 5000 61fF")?.ok_or("skipped")?;
    assert_eq!(rt; (line.number, line.cred, line.sync), (7, CALLER, true));
    match line.call {
        Some(
            Call::Write {
                path,
                offset,
                bytes,
            },
        ) => {
            assert_eq!(rt; path.as_slice(), b"/a/b".as_slice());
            assert_eq!(rt; offset, 5000);
            assert_eq!(rt; bytes.as_slice(), [0x61, 0xff].as_slice());
        },
        _ => return Err("another call".into()),
    }
    Ok(())
}

// What a reply's text is, with a byte after it that is left as it was.
fn expect_text(rt: &impl Abort, line: u32, reply: &Reply, want: &str) -> Result<(), Fail> {
    if !is_short(reply) {
        return Err("too long".into());
    }
    let mut out = [b'.'; 8256];
    let length = reply_text(line, reply, &mut out);
    assert_eq!(rt; out.get(..length), Some(want.as_bytes()), "{want}");
    assert_eq!(rt; out.get(length), Some(&b'.'), "{want}");
    Ok(())
}

#[test]
fn texts_of_stats(rt: HostRuntime) -> Result<(), Fail> {
    let file = Reply::Stat(StatInfo {
        ino: 3,
        mode: 0o100_644,
        links: 1,
        uid: 0,
        gid: 0,
        size: 0,
        mtime: 1000,
        blocks: 0,
    });
    expect_text(&rt, 3, &file, "3 ok 3 file 644 1 0 0 0 1000 0\n")?;
    let link = Reply::Stat(StatInfo {
        ino: u32::MAX,
        mode: 0o120_777,
        links: u16::MAX,
        uid: u32::MAX,
        gid: u32::MAX,
        size: u64::MAX,
        mtime: u64::MAX,
        blocks: u32::MAX,
    });
    expect_text(
        &rt,
        u32::MAX,
        &link,
        "4294967295 ok 4294967295 link 777 65535 4294967295 4294967295 18446744073709551615 18446744073709551615 4294967295\n",
    )
}

#[test]
fn texts_of_replies(rt: HostRuntime) -> Result<(), Fail> {
    let alloc = rt.alloc();
    expect_text(&rt, 12, &Reply::Done, "12 ok\n")?;
    expect_text(&rt, 19, &Reply::Df(0, 27), "19 ok 0 27\n")?;
    let refused = Reply::Refused(Refusal::Nametoolong);
    expect_text(&rt, 2, &refused, "2 nametoolong\n")?;
    for (bytes, want) in [
        ([0, 0xff, 0x1a].as_slice(), "5 ok 00ff1a\n"),
        (&[], "5 ok -\n"),
    ] {
        let read = Reply::Read(Bytes::from_slice(alloc, bytes)?);
        expect_text(&rt, 5, &read, want)?;
    }
    let text = Reply::Text(Bytes::from_slice(alloc, b"../x")?);
    expect_text(&rt, 1, &text, "1 ok ../x\n")?;
    let mut names = NameList::new(alloc);
    names.push(Name::from_slice(alloc, b"a")?)?;
    names.push(Name::from_slice(alloc, b"b.c")?)?;
    let more = Reply::Names(names, true);
    expect_text(&rt, 7, &more, "7 ok 2 more a b.c\n")?;
    let none = Reply::Names(NameList::new(alloc), false);
    expect_text(&rt, 7, &none, "7 ok 0 end\n")
}

#[test]
fn text_of_a_history(rt: HostRuntime) -> Result<(), Fail> {
    let alloc = rt.alloc();
    let entries = [
        Entry {
            stream: 0,
            line: 1,
            ino: Some(3),
            start: 3,
            at: 3,
            told: Some(3),
            sync: true,
            reply: Reply::Done,
            call: Some(Call::Create {
                path: PathText::from_slice(alloc, b"/a")?,
                mode: 0o644,
            }),
            cred: CALLER,
        },
        Entry {
            stream: 7,
            line: 2,
            ino: None,
            start: 4,
            at: 9,
            told: None,
            sync: false,
            reply: Reply::Refused(Refusal::Syntax),
            call: None,
            cred: CALLER,
        },
    ];
    let full = Wait::Full {
        used: 239,
        sealed: 0,
        pending: 1,
        need: 8432,
        ring: 255,
    };
    let commits = [
        Commit {
            boundary: 1,
            cause: Cause::SyncWaits(1),
        },
        Commit {
            boundary: 2,
            cause: Cause::Full(full),
        },
    ];
    let rolls = [RollNote {
        through: 1,
        cause: Cause::Half(200, 255),
    }];
    let text = history_text(alloc, Epoch(2), 1000, 8, 3, &entries, &commits, &rolls)?;
    let want =
        "session 2 1000 8\nentry 0 1 3 0 0 0 s ok\nentry 7 2 - 1 6 - a syntax\ncommit 1 sync 1\ncommit 2 full 239 0 1 8432 255\nroll 1 half 200 255\n";
    assert_eq!(rt; text.as_slice(), want.as_bytes());
    let text = session_text(alloc, 5, &entries, &commits, &rolls)?;
    let want = "answered 1 left 4 commits 2 rolls 1\n";
    assert_eq!(rt; text.as_slice(), want.as_bytes());
    Ok(())
}

// Skipped lines are counted and numbered, and a last line needs no line feed.
#[test]
fn lines_of_scripts(rt: HostRuntime) -> Result<(), Fail> {
    for (script, limit, want, count) in [
        ("", 0, "", 0),
        ("\n", 1, "", 1),
        ("df", 1, "1", 1),
        ("df\n", 1, "1", 1),
        ("\ndf\n#df\n \nx\n\n", 6, "25", 6),
        ("df\n\n", 1, "over", 0),
        ("df\ndf\ndf", 2, "over", 0),
    ] {
        let mut numbers = String::new(rt.alloc());
        let counted = match lines_of(rt.alloc(), script.as_bytes(), limit) {
            Ok(read) => {
                for line in &read.lines {
                    write!(numbers, "{}", line.number)?;
                }
                read.count
            },
            Err(LinesError::TooMany) => {
                numbers.push_str("over")?;
                0
            },
            Err(LinesError::Mem) => return Err("no memory".into()),
        };
        assert_eq!(rt; numbers.as_str(), want, "{script}");
        assert_eq!(rt; counted, count, "{script}");
    }
    Ok(())
}

// A script of as many lines as all scripts of a session may have, and one of one more.
#[test]
fn longest_script(rt: HostRuntime) -> Result<(), Fail> {
    let alloc = rt.alloc();
    let mut script = Vec::new(alloc);
    for _ in 0..100_000 {
        script.extend_from_slice(b"df\n")?;
    }
    let read = lines_of(alloc, &script, 100_000).map_err(|_| "too long")?;
    assert_eq!(rt; (read.lines.len(), read.count), (100_000, 100_000));
    script.push(b'x')?;
    let over = lines_of(alloc, &script, 100_000);
    assert!(rt; matches!(over, Err(LinesError::TooMany)));
    Ok(())
}
