//! What calls on names ask of a store.
ghost use Rattle.std.specs.Prelude.{◌≡◌, ◌≤◌, true, List, Some, IfSome, IfOk, IsErrOf};
ghost use Rattle.volume_model.specs.declared.hand.Hand.{Hand};
ghost use Rattle.volume_model.specs.Format.{block};
ghost use Rattle.volume_model.specs.Sound.{Tree, StandsFor, free_inodes_of, free_blocks_of};
ghost use Rattle.sector_disk.specs.Disk.{FailsJustAt, CountsFailure};
ghost use Rattle.history_model.specs.Places.{is_directory_in};
ghost use Rattle.meta_store.specs.Store.{IsUnchanged};
ghost use Rattle.meta_store.specs.Changing.{IsKept};
ghost use Rattle.meta_store.specs.declared.error.StoreError.TheVariants.{Disk};
ghost use Rattle.inode_reads.specs.InodeOf.{IsInodeOf};
ghost use Rattle.name_ops.specs.Asked.{IsWritable, name_blocks, blocks_by, lack_by};

use block_alloc::{Hands, count_free};
use dir_reads::{Room, can_enter};
use inode_reads::{may, read_inode};
use lufs_base::{DiskFault, Ino, Name};
use meta_draft::Draft;
use meta_store::{MetaRead, StoreError};
use std::alloc::Global;
use tree_types::{Cred, Refusal};
use volume_model::Dinode;

/// The bytes of a directory whose direct blocks are full.
const DIRECT_FULL: u64 = 49_152;

/// The record of directory `dir`, if the caller may change its names.
pub(crate) fn writable<S: MetaRead>(
    alloc: Global,
    store: &mut S,
    cred: &Cred,
    dir: Ino,
) -> Result<Option<Dinode>, DiskFault>
    ensures value { (tree : Tree) (hands : List Hand) → IfSome (S.store store.old).content (λ image. StandsFor (S.store store.old).geometry (block image) tree hands
        → IfOk result (IsWritable (S.store store.old).geometry tree cred.now dir.0)) }
    ensures unchanged { IsUnchanged (S.store store.old) (S.store store.new) }
    ensures kept { IsKept (S.changing store.old) (S.changing store.new) }
    ensures failure { CountsFailure result (S.store store.old).disk (S.store store.new).disk }
{
    let Some(d) = read_inode(alloc, store, dir)? else {
        return Ok(None);
    };
    if !may(&d, cred, 2) {
        return Ok(None);
    }
    Ok(Some(d))
}

// How many blocks a directory of so many bytes wants, by where it has room; None where it can't have one chunk more.
fn blocks_by(room: Room, size: u64) -> Option<u32>
    ensures value { result ≡ blocks_by room size }
    ensures few { IfSome result (λ blocks. blocks ≤ 2) }
{
    match room {
        Room::Past => None,
        Room::Fits | Room::NewChunk => Some(0),
        Room::NewBlock => {
            if size == DIRECT_FULL {
                Some(2)
            } else {
                Some(1)
            }
        }
    }
}

/// How many blocks directory `dir`, which has this record, wants for a new name; None where it can't have one chunk more.
pub(crate) fn name_blocks<S: MetaRead>(
    alloc: Global,
    store: &mut S,
    dir: Ino,
    d: &Dinode,
    name: &Name,
) -> Result<Option<u32>, StoreError>
    ensures value { (tree : Tree) (hands : List Hand) → IfSome (S.store store.old).content (λ image. StandsFor (S.store store.old).geometry (block image) tree hands
        → IsInodeOf (S.store store.old).geometry tree dir.0 (Some d.now) → is_directory_in tree dir.0 ≡ true → IfOk result (λ blocks. blocks ≡ name_blocks tree dir.0 name.now)) }
    ensures few { IfOk result (λ blocks. IfSome blocks (λ n. n ≤ 2)) }
    ensures unchanged { IsUnchanged (S.store store.old) (S.store store.new) }
    ensures kept { IsKept (S.changing store.old) (S.changing store.new) }
    ensures failure { FailsJustAt (IsErrOf result Disk) (S.store store.old).disk (S.store store.new).disk }
{
    let room = can_enter(alloc, &Draft::new(alloc), store, dir, name)?;
    Ok(blocks_by(room, d.size))
}

// Why so much that is free isn't enough, if it isn't.
fn lack_by(inode: bool, blocks: u32, free_inodes: u32, free_blocks: u32) -> Option<Refusal>
    ensures { result ≡ lack_by inode blocks free_inodes free_blocks }
{
    if inode && free_inodes == 0 {
        Some(Refusal::Noinodes)
    } else if free_blocks < blocks {
        Some(Refusal::Nospace)
    } else {
        None
    }
}

/// Why what is free isn't enough for an inode or none and so many blocks, if it isn't.
pub(crate) fn lack<S: MetaRead>(
    store: &mut S,
    inode: bool,
    blocks: u32,
    held: &Hands,
) -> Result<Option<Refusal>, DiskFault>
    ensures value { (tree : Tree) → IfSome (S.store store.old).content (λ image. StandsFor (S.store store.old).geometry (block image) tree held.now
        → IfOk result (λ why. why ≡ lack_by inode blocks (free_inodes_of (S.store store.old).geometry tree) (free_blocks_of (S.store store.old).geometry tree))) }
    ensures unchanged { IsUnchanged (S.store store.old) (S.store store.new) }
    ensures kept { IsKept (S.changing store.old) (S.changing store.new) }
    ensures failure { CountsFailure result (S.store store.old).disk (S.store store.new).disk }
{
    let (free_inodes, free_blocks) = count_free(store, held)?;
    Ok(lack_by(inode, blocks, free_inodes, free_blocks))
}
