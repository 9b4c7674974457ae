//! Tests: calls on a small volume, which is checked before each of them.
ghost use Rattle.std.specs.Prelude.{◌≡◌, ◌≤◌, ◌*◌, length, IfOk, IsTrue};
ghost use Rattle.std.specs.List.{list_all};
ghost use Rattle.call_ops.specs.Served.{is_path_byte, is_served, has_right_words};

use fsck_core::check;
use lufs_base::{Geometry, Mem};
use meta_store::{PlainStore, StoreError};
use plain_calls::serve;
use std::alloc::Global;
use tree_types::{Call, Cred, PathText, Refusal, Reply};
use volume_model::Verdict;

/// A volume of 99 blocks: group block 35, inode block 36, and body blocks from 37 on.
const SMALLEST: Geometry = Geometry {
    version: 1,
    groups: 1,
    bpg: 64,
    ipg: 32,
    log: 256,
};

/// Numbers of 32 bits that stand in a block: the block, which of its numbers the first of them is, and the numbers.
type Words<'a> = (u32, u32, &'a [u32]);

/// The root alone, inode 2, which has block 37.
const MADE: &[Words] = &[
    (35, 0, &[0x0009_0255, 0, 29, 61]),
    (35, 8, &[0x0700_0000]),
    (35, 40, &[0x0700_0000]),
    (36, 64, &[0x41ed_0002, 0, 0, 0, 0, 512, 0, 1000, 37]),
    (36, 87, &[1]),
    (37, 0, &[2, 0x000c_0001, 0x2e00_0000]),
    (37, 3, &[2, 0x01f4_0002, 0x2e2e_0000]),
];

#[derive(Clone, Copy, Debug, PartialEq, Eq)]
enum Kind {
    Create,
    Remove,
    Stat,
}

/// How a call is answered, and the inode that it made.
#[derive(Clone, Copy, Debug, PartialEq, Eq)]
enum Answer {
    Done(Option<u32>),
    Refused(Refusal),
    /// Of this inode.
    Stat(u32),
    Other,
}

/// A call that was served: what is in use before it, inodes and blocks, and how it was answered.
#[derive(Debug, Drop)]
struct Step {
    store: PlainStore,
    inodes: u32,
    blocks: u32,
    answer: Answer,
}

// Puts the numbers into the image, as far as it goes.
fn put(image: &mut [u8], words: &Words) {
    let (block, first, numbers) = *words;
    let mut at = 4096 * block as usize + 4 * first as usize;
    for number in numbers {
        for byte in number.to_be_bytes() {
            if let Some(place) = image.get_mut(at) {
                *place = byte;
            }
            at = at.saturating_add(1);
        }
    }
}

fn store_of(alloc: Global) -> Result<PlainStore, Mem> {
    let mut image = vec![in alloc; 0u8; 405_504]?;
    for words in MADE {
        put(&mut image, words);
    }
    if image.len() != 405_504 {
        return Err(Mem);
    }
    Ok(PlainStore::new(&SMALLEST, image))
}

fn call_of(kind: Kind, path: PathText) -> Call
    requires { IsTrue (list_all is_path_byte path) }
    ensures served { IsTrue (is_served result) }
    ensures words { IsTrue (has_right_words result) }
{
    match kind {
        Kind::Create => Call::Create { path, mode: 0o644 },
        Kind::Remove => Call::Remove { path },
        Kind::Stat => Call::Stat { path },
    }
}

fn answer_of(reply: &Reply, ino: Option<u32>) -> Answer {
    match reply {
        Reply::Done => Answer::Done(ino),
        Reply::Refused(why) => Answer::Refused(*why),
        Reply::Stat(info) => Answer::Stat(info.ino),
        _ => Answer::Other,
    }
}

// Serves a call on the name `n` of the root, on a volume that is sound.
fn serve_one(alloc: Global, mut store: PlainStore, kind: Kind) -> Result<Step, StoreError> {
    let call = call_of(kind, PathText::from_slice(alloc, b"/n")?);
    match check(alloc, &mut store)? {
        Verdict::Finding(..) => Err(StoreError::Disk),
        Verdict::Clean(counts) => {
            let served = serve(alloc, store, &Cred { uid: 0, gid: 0 }, &call, 2000);
            Ok(Step {
                answer: answer_of(&served.reply, served.ino),
                store: served.store,
                inodes: counts.inodes,
                blocks: counts.blocks,
            })
        },
    }
}

#[test]
fn calls_served(rt: HostRuntime) -> Result<(), std::test::Fail> {
    let alloc = rt.alloc();
    let mut store = store_of(alloc)?;
    for (kind, inodes, blocks, answer) in [
        (Kind::Create, 1, 1, Answer::Done(Some(3))),
        (Kind::Stat, 2, 1, Answer::Stat(3)),
        (Kind::Create, 2, 1, Answer::Refused(Refusal::Exist)),
        (Kind::Remove, 2, 1, Answer::Done(None)),
        (Kind::Stat, 1, 1, Answer::Refused(Refusal::Noent)),
    ] {
        let done = serve_one(alloc, store, kind)?;
        assert_eq!(rt; (done.inodes, done.blocks), (inodes, blocks));
        assert_eq!(rt; done.answer, answer);
        store = done.store;
    }
    Ok(())
}
