//! The record of a directory.
ghost use Rattle.std.specs.Prelude.{◌≡◌, ◌<◌, ◌*◌, IfSome, IfOk};
ghost use Rattle.volume_model.specs.Format.{block, inodes_of, IsDinode};
ghost use Rattle.sector_disk.specs.Disk.{CountsFailure};
ghost use Rattle.meta_store.specs.Store.{IsUnchanged};
ghost use Rattle.meta_store.specs.Changing.{IsKept};
ghost use Rattle.meta_draft.specs.Drafted.{drafted};
ghost use Rattle.dir_reads.specs.Chunks.{directory_at};

use lufs_base::{DiskFault, Ino};
use meta_draft::Draft;
use meta_store::MetaRead;
use volume_model::Dinode;

/// The record of inode `i`, if it is a directory.
pub(crate) fn directory_record<S: MetaRead>(
    draft: &Draft,
    store: &mut S,
    i: Ino,
) -> Result<Option<Dinode>, DiskFault>
    requires inside { i.0 < inodes_of (S.store store.old).geometry }
    ensures value { IfSome (drafted draft.now.change (S.store store.old)).content (λ image. IfOk result (λ found. found ≡ directory_at (S.store store.old).geometry (block image) i.0)) }
    ensures inode { IfOk result (λ found. IfSome found (IsDinode (S.store store.old).geometry.version)) }
    ensures unchanged { IsUnchanged (S.store store.old) (S.store store.new) }
    ensures kept { IsKept (S.changing store.old) (S.changing store.new) }
    ensures failure { CountsFailure result (S.store store.old).disk (S.store store.new).disk }
{
    match draft.inode(store, i)? {
        Some(d) if d.is_directory() => Ok(Some(d)),
        _ => Ok(None),
    }
}
