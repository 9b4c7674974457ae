//! Tests: calls on a small volume with a file and a link to it, asked and then planned.
ghost use Rattle.std.specs.Prelude.{◌≡◌, IfOk, IsTrue};
ghost use Rattle.std.specs.List.{list_all};
ghost use Rattle.call_ops.specs.Served.{is_path_byte, is_served, has_right_words, changes_names};

use crate::volume::{Untold, Words, image_of};
use block_alloc::Hands;
use call_ops::{Asked, ask, plan};
use lufs_base::{BlockNo, Mem};
use meta_store::StoreError;
use std::alloc::Global;
use tree_types::{Call, Cred, PathText, Refusal, Reply};
use volume_model::{BlockList, Hand};

/// The root, inode 2, has block 37, in which it names the file `f`, inode 3, and the link `l`, inode 4, whose text `f` is in
/// block 38.
const MADE: &[Words] = &[
    (35, 0, &[0x0009_0255, 0, 27, 60]),
    (35, 8, &[0x1f00_0000]),
    (35, 40, &[0x0f00_0000]),
    (36, 64, &[0x41ed_0002, 0, 0, 0, 0, 512, 0, 1000, 37]),
    (36, 87, &[1]),
    (36, 96, &[0x81a4_0001, 0, 0, 0, 0, 0, 0, 1000]),
    (36, 128, &[0xa1ff_0001, 0, 0, 0, 0, 1, 0, 1000, 38]),
    (36, 151, &[1]),
    (37, 0, &[2, 0x000c_0001, 0x2e00_0000]),
    (37, 3, &[2, 0x000c_0002, 0x2e2e_0000]),
    (37, 6, &[3, 0x000c_0001, 0x6600_0000]),
    (37, 9, &[4, 0x01dc_0001, 0x6c00_0000]),
    (38, 0, &[0x6600_0000]),
];

#[derive(Clone, Copy)]
enum Kind {
    Create,
    Mkdir,
    Remove,
    Rmdir,
}

#[derive(Clone, Copy)]
enum Question {
    Stat,
    Lstat,
    List,
}

/// How a call is answered.
#[derive(Clone, Copy, PartialEq, Eq)]
enum Answer {
    Refused(Refusal),
    /// Of this inode.
    Stat(u32),
    /// So many names.
    Names(usize),
    /// It is done by a change, for which it wanted an inode or none and so many blocks.
    Done(bool, u32),
    Other,
}

fn is_path_byte(b: u8) -> bool
    ensures { result ≡ is_path_byte b }
{
    0x21 <= b && b <= 0x7e
}

fn are_path_bytes(bytes: &[u8]) -> bool
    ensures { result ≡ list_all is_path_byte bytes.now }
{
    bytes.iter().all(|b| is_path_byte(*b))
}

// A slash and so many other bytes.
fn path_of(alloc: Global, byte: u8, length: usize) -> Result<PathText, Mem>
    ensures { IfOk result (λ path. IsTrue (list_all is_path_byte path)) }
{
    let mut bytes = vec![in alloc; byte; length]?;
    bytes.insert(0, b'/')?;
    if !are_path_bytes(bytes.as_slice()) {
        return Err(Mem);
    }
    PathText::from_slice(alloc, bytes.as_slice())
}

fn change_of(kind: Kind, path: PathText) -> Call
    requires { IsTrue (list_all is_path_byte path) }
    ensures changes { IsTrue (changes_names result) }
    ensures served { IsTrue (is_served result) }
    ensures words { IsTrue (has_right_words result) }
{
    match kind {
        Kind::Create => Call::Create { path, mode: 0o644 },
        Kind::Mkdir => Call::Mkdir { path, mode: 0o755 },
        Kind::Remove => Call::Remove { path },
        Kind::Rmdir => Call::Rmdir { path },
    }
}

fn question_of(question: Question, path: PathText) -> Call
    requires { IsTrue (list_all is_path_byte path) }
    ensures served { IsTrue (is_served result) }
    ensures words { IsTrue (has_right_words result) }
{
    match question {
        Question::Stat => Call::Stat { path },
        Question::Lstat => Call::Lstat { path },
        Question::List => Call::List { path, after: None },
    }
}

fn answer_of(reply: &Reply) -> Answer {
    match reply {
        Reply::Refused(why) => Answer::Refused(*why),
        Reply::Stat(info) => Answer::Stat(info.ino),
        Reply::Names(names, _) => Answer::Names(names.len()),
        _ => Answer::Other,
    }
}

// What is wanted: inode 5, if one is, and blocks from 39 on.
fn hand_of(alloc: Global, inode: bool, blocks: u32) -> Result<Hand, Mem> {
    let mut list = BlockList::new(alloc);
    for k in 0..blocks {
        list.push(BlockNo(39u32.saturating_add(k)))?;
    }
    Ok(Hand {
        inode: if inode { Some(5) } else { None },
        blocks: list,
    })
}

const WRITER: Cred = Cred { uid: 0, gid: 0 };

/// A call: what it is, the byte that its path has after the slash and how often, and the answer.
type Changing = (Kind, u8, usize, Answer);

const CHANGING: &[Changing] = &[
    (Kind::Create, b'n', 1, Answer::Done(true, 0)),
    (Kind::Create, b'l', 1, Answer::Refused(Refusal::Exist)),
    (Kind::Mkdir, b'n', 1, Answer::Done(true, 1)),
    (Kind::Remove, b'l', 1, Answer::Done(false, 0)),
    (Kind::Remove, b'/', 1, Answer::Refused(Refusal::Isdir)),
    (Kind::Rmdir, b'l', 1, Answer::Refused(Refusal::Notdir)),
    (
        Kind::Create,
        b'/',
        1024,
        Answer::Refused(Refusal::Nametoolong),
    ),
];

/// A question, told as a call is.
type Asking = (Question, u8, usize, Answer);

const ASKING: &[Asking] = &[
    (Question::Stat, b'l', 1, Answer::Stat(3)),
    (Question::Lstat, b'l', 1, Answer::Stat(4)),
    (Question::List, b'/', 1023, Answer::Names(2)),
    (
        Question::List,
        b'/',
        1024,
        Answer::Refused(Refusal::Nametoolong),
    ),
    (Question::List, b'l', 1, Answer::Refused(Refusal::Notdir)),
    (Question::Stat, b'n', 1, Answer::Refused(Refusal::Noent)),
];

fn change(alloc: Global, kind: Kind, path: PathText) -> Result<Answer, StoreError>
    requires { IsTrue (list_all is_path_byte path) }
{
    let mut store = Untold::new(image_of(alloc, MADE, &[])?)?;
    let held = Hands::new(alloc);
    let call = change_of(kind, path);
    match ask(alloc, &mut store, &WRITER, &call, &held)? {
        Asked::Told(reply) => Ok(answer_of(&reply)),
        Asked::Wants {
            walked,
            inode,
            blocks,
        } => {
            let hand = hand_of(alloc, inode, blocks)?;
            let (_, reply) = plan(
                alloc, &mut store, &WRITER, &call, &walked, &hand, &held, 2000,
            )?;
            Ok(match reply {
                Reply::Done => Answer::Done(inode, blocks),
                other => answer_of(&other),
            })
        }
    }
}

fn told(alloc: Global, question: Question, path: PathText) -> Result<Answer, StoreError>
    requires { IsTrue (list_all is_path_byte path) }
{
    let mut store = Untold::new(image_of(alloc, MADE, &[])?)?;
    let call = question_of(question, path);
    Ok(
        match ask(alloc, &mut store, &WRITER, &call, &Hands::new(alloc))? {
            Asked::Told(reply) => answer_of(&reply),
            Asked::Wants { .. } => Answer::Other,
        },
    )
}

#[test]
fn calls_answered(rt: HostRuntime) -> Result<(), std::test::Fail> {
    let alloc = rt.alloc();
    for (kind, byte, length, want) in CHANGING {
        let answer = change(alloc, *kind, path_of(alloc, *byte, *length)?)?;
        assert!(rt; answer == *want, "{byte} {length}");
    }
    for (question, byte, length, want) in ASKING {
        let answer = told(alloc, *question, path_of(alloc, *byte, *length)?)?;
        assert!(rt; answer == *want, "{byte} {length}");
    }
    Ok(())
}
