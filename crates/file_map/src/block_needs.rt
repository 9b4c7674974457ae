//! Which blocks a file lacks where bytes go.
ghost use Rattle.std.specs.Prelude.{◌≡◌, ◌≤◌, ◌+◌, ◌-◌, ◌*◌, ◌/◌, ◌==◌, ◌++◌, ◌∷◌, ℕ, [], nat_lt, true, false, ◌&&◌, slice_index, if◌then◌else◌, IfSome, IfOk, OnOk, IsErrOf};
ghost use Rattle.std.specs.List.{filter, range_with_len};
ghost use Rattle.volume_model.specs.Format.{block, is_file};
ghost use Rattle.volume_model.specs.Sound.{used_inode, has_right_numbers};
ghost use Rattle.sector_disk.specs.Disk.{FailsJustAt};
ghost use Rattle.history_model.specs.FileBytes.{greatest_size, direct_size, missing_indexes, misses_pointers};
ghost use Rattle.meta_store.specs.Store.{IsUnchanged};
ghost use Rattle.meta_store.specs.Changing.{IsKept};
ghost use Rattle.meta_draft.specs.Drafted.{drafted};
ghost use Rattle.meta_store.specs.declared.error.StoreError.TheVariants.{Disk};
ghost use Rattle.file_map.specs.Answers.{AnswersOfFile};
ghost use Rattle.file_map.specs.Needed.{IsNeeded};

use crate::indexes::IndexList;
use crate::inode_lookup::used_inode;
use crate::mapping::number_at;
use block_numbers::read_numbers;
use lufs_base::{BLOCK, Ino, Mem};
use meta_draft::Draft;
use meta_store::{MetaRead, StoreError};
use std::alloc::Global;
use volume_model::Dinode;

/// The largest size, in bytes, for which a file needs no pointer block.
const DIRECT_SIZE: u64 = 12 * BLOCK as u64;

/// The blocks that a file lacks where bytes go.
#[derive(Debug, Drop)]
pub struct Needed {
    /// The indexes at which it has none, in their order.
    pub indexes: IndexList,
    /// How many pointer blocks it lacks.
    pub pointers: u32,
}

// Adds an index at which the number is 0.
fn push_missing(list: &mut IndexList, number: u32, index: u32) -> Result<(), Mem>
    ensures { OnOk result (list.new ≡ list.old ++ (if number == 0 then index ∷ [] else [])) }
{
    if number == 0 {
        list.push(index)?;
    }
    Ok(())
}

// The indexes of these at which the number is 0, from `first` to before `end`.
fn missing(alloc: Global, numbers: &[u32], first: u32, end: u32) -> Result<IndexList, Mem>
    requires { first ≤ end }
    ensures { IfOk result (λ list. list ≡ filter (λ k. slice_index numbers.now k == 0) (range_with_len first (end - first))) }
{
    let mut list = IndexList::new(alloc);
    for index in first..end {
        let number = number_at(numbers, index as usize);
        push_missing(&mut list, number, index)?;
    }
    Ok(list)
}

// How many pointer blocks an inode lacks for so many bytes.
fn pointers_missing(d: &Dinode, size: u64) -> u32
    ensures { result ≡ (if nat_lt direct_size size && slice_index d.now.indirect 0 == 0 then 1 else 0) }
{
    if size > DIRECT_SIZE && d.indirect[0] == 0 {
        1
    } else {
        0
    }
}

// The blocks that the file of this record lacks where bytes from `first` to before `end` go.
fn blocks_of_record<S: MetaRead>(
    alloc: Global,
    draft: &Draft,
    store: &mut S,
    d: &Dinode,
    offset: u64,
    end: u64,
) -> Result<Needed, StoreError>
    requires order { offset ≤ end }
    requires most { end ≤ greatest_size }
    ensures value { IfSome (drafted draft.now.change (S.store store.old)).content (λ image. IfOk result (λ needed. (i : ℕ) → is_file d.now.mode ≡ true
        → has_right_numbers (S.store store.old).geometry i (used_inode (block image) d.now) ≡ true → IsNeeded (block image) (used_inode (block image) d.now) offset (end - offset) needed)) }
    ensures unchanged { IsUnchanged (S.store store.old) (S.store store.new) }
    ensures kept { IsKept (S.changing store.old) (S.changing store.new) }
    ensures failure { FailsJustAt (IsErrOf result Disk) (S.store store.old).disk (S.store store.new).disk }
{
    let first = (offset / BLOCK as u64) as u32;
    let past = end.div_ceil(BLOCK as u64);
    let numbers = read_numbers(alloc, draft, store, d, past)?;
    Ok(Needed {
        indexes: missing(alloc, &numbers, first, past as u32)?,
        pointers: pointers_missing(d, end),
    })
}

/// The blocks that file `i` lacks where `count` bytes from `offset` on go. It answers `Disk` exactly where a read failed.
pub fn blocks_needed<S: MetaRead>(
    alloc: Global,
    draft: &Draft,
    store: &mut S,
    i: Ino,
    offset: u64,
    count: u64,
) -> Result<Needed, StoreError>
    requires { offset + count ≤ greatest_size }
    ensures indexes { AnswersOfFile (drafted draft.now.change (S.store store.old)) i.0 (λ file needed. needed.indexes ≡ missing_indexes file offset count) result }
    ensures pointers { AnswersOfFile (drafted draft.now.change (S.store store.old)) i.0 (λ file needed. needed.pointers ≡ (if misses_pointers file offset count then 1 else 0)) result }
    ensures unchanged { IsUnchanged (S.store store.old) (S.store store.new) }
    ensures kept { IsKept (S.changing store.old) (S.changing store.new) }
    ensures failure { FailsJustAt (IsErrOf result Disk) (S.store store.old).disk (S.store store.new).disk }
{
    match used_inode(draft, store, i)? {
        Some(d) => blocks_of_record(alloc, draft, store, &d, offset, offset + count),
        None => Ok(Needed {
            indexes: IndexList::new(alloc),
            pointers: 0,
        }),
    }
}
