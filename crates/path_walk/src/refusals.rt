//! Why a part of a path can't be looked up.
ghost use Rattle.std.specs.Prelude.{◌≡◌, IfOk};
ghost use Rattle.sector_disk.specs.Disk.{CountsFailure};
ghost use Rattle.meta_store.specs.Store.{IsUnchanged};
ghost use Rattle.meta_store.specs.Changing.{IsKept};
ghost use Rattle.meta_draft.specs.Drafted.{drafted};
ghost use Rattle.history_model.specs.Walk.{refused_part};
ghost use Rattle.path_walk.specs.Answers.{HoldsOfTree};
ghost use Rattle.path_walk.specs.Records.{may_search, refused_by_record};

use crate::inodes::used_inode;
use lufs_base::{DiskFault, Ino, Name};
use meta_draft::Draft;
use meta_store::MetaRead;
use tree_types::{Attr, Cred, Refusal, permits};
use volume_model::Dinode;

/// The right to look names up in a directory.
const SEARCH: u16 = 1;

/// The most bytes of a name.
const LONGEST: usize = 255;

// Whether the caller may look names up in a directory with this record.
fn may_search(cred: &Cred, d: &Dinode) -> bool
    ensures { result ≡ may_search cred.now d.now }
{
    let attr = Attr {
        mode: d.mode % 512,
        uid: d.uid,
        gid: d.gid,
        mtime: d.mtime,
    };
    permits(cred, &attr, SEARCH)
}

// Why a part can't be looked up in the inode of this record.
fn refused_by_record(cred: &Cred, found: Option<Dinode>, part: &Name) -> Option<Refusal>
    ensures { result ≡ refused_by_record cred.now found part.now }
{
    let Some(d) = found else {
        return Some(Refusal::Notdir);
    };
    if !d.is_directory() {
        Some(Refusal::Notdir)
    } else if !may_search(cred, &d) {
        Some(Refusal::Denied)
    } else if part.as_slice().len() > LONGEST {
        Some(Refusal::Nametoolong)
    } else {
        None
    }
}

/// Why a part can't be looked up in inode `dir`.
pub(crate) fn refused_part<S: MetaRead>(
    draft: &Draft,
    store: &mut S,
    cred: &Cred,
    dir: Ino,
    part: &Name,
) -> Result<Option<Refusal>, DiskFault>
    ensures value { HoldsOfTree (drafted draft.now.change (S.store store.old)) (λ tree. IfOk result (λ why. why ≡ refused_part tree cred.now dir.0 part.now)) }
    ensures unchanged { IsUnchanged (S.store store.old) (S.store store.new) }
    ensures kept { IsKept (S.changing store.old) (S.changing store.new) }
    ensures failure { CountsFailure result (S.store store.old).disk (S.store store.new).disk }
{
    let found = used_inode(draft, store, dir)?;
    Ok(refused_by_record(cred, found, part))
}
