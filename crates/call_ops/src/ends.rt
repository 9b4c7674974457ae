//! Where the path of a call ends.
ghost use Rattle.std.specs.Prelude.{◌≡◌, IsErrOf};
ghost use Rattle.sector_disk.specs.Disk.{FailsJustAt};
ghost use Rattle.history_model.specs.Ends.{is_long, end_of};
ghost use Rattle.meta_store.specs.Store.{IsUnchanged};
ghost use Rattle.meta_store.specs.Changing.{IsKept};
ghost use Rattle.meta_store.specs.declared.error.StoreError.TheVariants.{Disk};
ghost use Rattle.inode_reads.specs.Answers.{AnswersByTree};
ghost use Rattle.call_ops.specs.Ended.{ends_by, answer_of};

use meta_store::{MetaRead, StoreError};
use path_walk::{WalkError, Walked, walk};
use std::alloc::Global;
use tree_types::{Cred, PathText, Refusal};

/// The most bytes of a path.
const LONGEST_PATH: usize = 1024;

fn is_long(path: &PathText) -> bool
    ensures { result ≡ is_long path.now }
{
    LONGEST_PATH < path.len()
}

// A refusal of a walk is an answer, and no failure.
fn as_answer(walk: Result<Walked, WalkError>) -> Result<Result<Walked, Refusal>, StoreError>
    ensures { result ≡ answer_of walk }
{
    match walk {
        Ok(walked) => Ok(Ok(walked)),
        Err(WalkError::Refused(why)) => Ok(Err(why)),
        Err(WalkError::Disk) => Err(StoreError::Disk),
        Err(WalkError::Mem) => Err(StoreError::Mem),
    }
}

/// Where the one path of a call ends, or why it can't be walked; `follow` says that a link at its end is followed
/// (`docs/CALLS.md`, "Walking a path"). It answers `Disk` exactly where a read failed.
pub(crate) fn end_of<S: MetaRead>(
    alloc: Global,
    store: &mut S,
    cred: &Cred,
    path: &PathText,
    follow: bool,
) -> Result<Result<Walked, Refusal>, StoreError>
    ensures value { AnswersByTree (S.store store.old) (λ tree end. end_of tree cred.now follow path.now ≡ ends_by end) result }
    ensures unchanged { IsUnchanged (S.store store.old) (S.store store.new) }
    ensures kept { IsKept (S.changing store.old) (S.changing store.new) }
    ensures failure { FailsJustAt (IsErrOf result Disk) (S.store store.old).disk (S.store store.new).disk }
{
    if is_long(path) {
        return Ok(Err(Refusal::Nametoolong));
    }
    as_answer(walk(alloc, store, cred, path, follow))
}
