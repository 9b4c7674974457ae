//! An inode that is asked for, if the volume has it.
ghost use Rattle.std.specs.Prelude.{◌≡◌, option_map, IfSome, IfOk};
ghost use Rattle.volume_model.specs.Format.{block, IsDinode};
ghost use Rattle.volume_model.specs.Sound.{reading_of, used_at, used_inode};
ghost use Rattle.sector_disk.specs.Disk.{CountsFailure};
ghost use Rattle.meta_store.specs.Store.{IsUnchanged};
ghost use Rattle.meta_store.specs.Changing.{IsKept};
ghost use Rattle.inode_reads.specs.Answers.{AnswersByTree};
ghost use Rattle.inode_reads.specs.InodeOf.{IsInodeOf};

use lufs_base::{DiskFault, Ino};
use meta_draft::Draft;
use meta_store::MetaRead;
use std::alloc::Global;
use volume_model::Dinode;

/// Inode `i` of the store as it is, if it is in use. One that the volume doesn't have isn't, and nothing is read for it.
pub fn read_inode<S: MetaRead>(
    alloc: Global,
    store: &mut S,
    i: Ino,
) -> Result<Option<Dinode>, DiskFault>
    ensures record { IfSome (S.store store.old).content (λ image. IfOk result (λ found.
        option_map (used_inode (block image)) found ≡ used_at (reading_of (S.store store.old).geometry (block image)) i.0)) }
    ensures fits { IfOk result (λ found. IfSome found (IsDinode (S.store store.old).geometry.version)) }
    ensures tree { AnswersByTree (S.store store.old) (λ tree. IsInodeOf (S.store store.old).geometry tree i.0) result }
    ensures unchanged { IsUnchanged (S.store store.old) (S.store store.new) }
    ensures kept { IsKept (S.changing store.old) (S.changing store.new) }
    ensures failure { CountsFailure result (S.store store.old).disk (S.store store.new).disk }
{
    if !store.geometry().is_inode(i) {
        return Ok(None);
    }
    let draft = Draft::new(alloc);
    let found = draft.inode(store, i)?;
    Ok(found)
}
