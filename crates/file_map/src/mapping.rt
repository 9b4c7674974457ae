//! Where the bytes of a file lie.
ghost use Rattle.std.specs.Prelude.{◌≡◌, ◌<◌, slice_index, option_map, IfSome, IfOk, IsErrOf};
ghost use Rattle.lufs_base.specs.Layout.{IsGeometry, blocks_of};
ghost use Rattle.sector_disk.specs.Disk.{FailsJustAt};
ghost use Rattle.meta_store.specs.Store.{IsUnchanged};
ghost use Rattle.meta_store.specs.Changing.{IsKept};
ghost use Rattle.meta_draft.specs.Drafted.{drafted};
ghost use Rattle.meta_store.specs.declared.error.StoreError.TheVariants.{Disk};
ghost use Rattle.file_map.specs.Answers.{AnswersOfReading};
ghost use Rattle.file_map.specs.Mapped.{numbered_within, block_mapped};

use crate::inode_lookup::used_inode;
use block_numbers::read_numbers;
use lufs_base::{BlockNo, Geometry, Ino};
use meta_draft::Draft;
use meta_store::{MetaRead, StoreError};
use std::alloc::Global;

/// The number at an index, 0 past the last one.
pub(crate) fn number_at(numbers: &[u32], index: usize) -> u32
    ensures { result ≡ slice_index numbers.now index }
{
    numbers.get(index).copied().unwrap_or(0)
}

// The block of this number, if the volume has it.
fn block_numbered(g: &Geometry, number: u32) -> Option<BlockNo>
    requires { IsGeometry g.now }
    ensures value { option_map (λ b. b.0) result ≡ numbered_within (blocks_of g.now) number }
    ensures inside { IfSome result (λ b. b.0 < blocks_of g.now) }
{
    if number != 0 && number < g.total() {
        Some(BlockNo(number))
    } else {
        None
    }
}

/// The block that inode `i` has at an index, or `None` where it has none there. That of a link at 0 has its text. It
/// answers `Disk` exactly where a read failed.
pub fn map<S: MetaRead>(
    alloc: Global,
    draft: &Draft,
    store: &mut S,
    i: Ino,
    index: u32,
) -> Result<Option<BlockNo>, StoreError>
    ensures value { AnswersOfReading (drafted draft.now.change (S.store store.old)) i.0 (λ r found. option_map (λ b. b.0) found ≡ block_mapped r i.0 index) result }
    ensures inside { IfOk result (λ found. IfSome found (λ b. b.0 < blocks_of (S.store store.old).geometry)) }
    ensures unchanged { IsUnchanged (S.store store.old) (S.store store.new) }
    ensures kept { IsKept (S.changing store.old) (S.changing store.new) }
    ensures failure { FailsJustAt (IsErrOf result Disk) (S.store store.old).disk (S.store store.new).disk }
{
    let Some(d) = used_inode(draft, store, i)? else {
        return Ok(None);
    };
    let numbers = read_numbers(alloc, draft, store, &d, u64::from(index) + 1)?;
    let number = number_at(&numbers, index as usize);
    Ok(block_numbered(store.geometry(), number))
}
