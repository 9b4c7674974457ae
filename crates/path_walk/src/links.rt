//! The texts of symbolic links.
ghost use Rattle.std.specs.Prelude.{◌≡◌, ◌<◌, take, slice_index, option_map, IfSome, IfOk, IsErrOf};
ghost use Rattle.lufs_base.specs.Layout.{blocks_of};
ghost use Rattle.volume_model.specs.Format.{block};
ghost use Rattle.volume_model.specs.Sound.{block_numbered};
ghost use Rattle.sector_disk.specs.Disk.{FailsJustAt};
ghost use Rattle.meta_store.specs.Store.{IsUnchanged};
ghost use Rattle.meta_store.specs.Changing.{IsKept};
ghost use Rattle.meta_store.specs.declared.error.StoreError.TheVariants.{Disk};
ghost use Rattle.meta_draft.specs.Drafted.{drafted};
ghost use Rattle.path_walk.specs.Answers.{HoldsOfTree};
ghost use Rattle.path_walk.specs.Steps.{text_at};

use crate::inodes::used_inode;
use lufs_base::{BLOCK, BlockNo, Ino};
use meta_draft::Draft;
use meta_store::{MetaRead, StoreError};
use std::alloc::Global;
use volume_model::Dinode;

// The text of the link of this record, which its one block begins with. Nothing where that is no block of the volume.
fn text_of<S: MetaRead>(
    alloc: Global,
    draft: &Draft,
    store: &mut S,
    d: &Dinode,
) -> Result<Vec<u8>, StoreError>
    ensures value { IfSome (drafted draft.now.change (S.store store.old)).content (λ image. slice_index d.now.direct 0 < blocks_of (S.store store.old).geometry
        → IfOk result (λ text. text.items ≡ take d.now.size (block_numbered (block image) (slice_index d.now.direct 0)))) }
    ensures unchanged { IsUnchanged (S.store store.old) (S.store store.new) }
    ensures kept { IsKept (S.changing store.old) (S.changing store.new) }
    ensures failure { FailsJustAt (IsErrOf result Disk) (S.store store.old).disk (S.store store.new).disk }
{
    let number = d.direct[0];
    if number == 0 || number >= store.geometry().total() {
        return Ok(Vec::new(alloc));
    }
    let mut bytes = [0; BLOCK];
    draft.block(store, BlockNo(number), &mut bytes)?;
    let end = d.size.min(BLOCK as u64) as usize;
    let text = Vec::from_slice(alloc, &bytes[..end])?;
    Ok(text)
}

/// The text of inode `i`, if it is a link.
pub(crate) fn link_text<S: MetaRead>(
    alloc: Global,
    draft: &Draft,
    store: &mut S,
    i: Ino,
) -> Result<Option<Vec<u8>>, StoreError>
    ensures value { HoldsOfTree (drafted draft.now.change (S.store store.old)) (λ tree. IfOk result (λ text. option_map (λ v. v.items) text ≡ text_at tree i.0)) }
    ensures unchanged { IsUnchanged (S.store store.old) (S.store store.new) }
    ensures kept { IsKept (S.changing store.old) (S.changing store.new) }
    ensures failure { FailsJustAt (IsErrOf result Disk) (S.store store.old).disk (S.store store.new).disk }
{
    let Some(d) = used_inode(draft, store, i)? else {
        return Ok(None);
    };
    if !d.is_link() {
        return Ok(None);
    }
    let text = text_of(alloc, draft, store, &d)?;
    Ok(Some(text))
}
