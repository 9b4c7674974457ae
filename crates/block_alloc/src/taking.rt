//! Takes what a call wants.
ghost use Rattle.std.specs.Prelude.{◌≤◌, ◌*◌, ◌≡◌, List, length, IfSome, IfOk, IsErrOf};
ghost use Rattle.volume_model.specs.declared.hand.Hand.{Hand};
ghost use Rattle.volume_model.specs.Format.{block};
ghost use Rattle.volume_model.specs.Sound.{Tree, StandsFor, reading_of};
ghost use Rattle.sector_disk.specs.Disk.{FailsJustAt};
ghost use Rattle.meta_store.specs.declared.error.StoreError.TheVariants.{Disk};
ghost use Rattle.meta_store.specs.Changing.{all_told};
ghost use Rattle.block_alloc.specs.Records.{AreRecords, AreReadGroups};
ghost use Rattle.block_alloc.specs.Taking.{answer_of};
ghost use Rattle.block_alloc.specs.Choosing.{IsChosen};
ghost use Rattle.block_alloc.specs.Marking.{TakesHand, TakesWhatItGot};

use crate::choice::choose_among;
use crate::marking::marking;
use crate::records::read_records;
use crate::{Hands, Taken};
use cyl_groups::Group;
use meta_store::{MetaStore, StoreError};
use std::alloc::Global;
use volume_model::Hand;

// Marks a hand that was chosen by these records.
fn take_hand<S: MetaStore>(
    alloc: Global,
    store: &mut S,
    records: &[Option<Group>],
    hand: &Hand,
) -> Result<(), StoreError>
    requires size { length records.now ≡ (S.store store.old).geometry.groups }
    requires groups { AreReadGroups (S.store store.old).geometry records.now }
    requires chosen { IsChosen (S.store store.old).geometry records.now (S.changing store.old).is_released hand.now }
    requires room { IfSome (S.changing store.old).room (λ room. 432 * (S.store store.old).geometry.groups ≤ room) }
    requires records { IfSome (S.store store.old).content (λ image. AreRecords (reading_of (S.store store.old).geometry (block image)) records.now) }
    requires stands { IfSome (S.store store.old).content (λ image. (tree : Tree) × (hands : List Hand) × StandsFor (S.store store.old).geometry (block image) tree hands) }
    ensures takes { TakesHand result hand.now (all_told (S.store store.old) (S.changing store.old)) (all_told (S.store store.new) (S.changing store.new)) }
    ensures failure { FailsJustAt (IsErrOf result Disk) (S.store store.old).disk (S.store store.new).disk }
{
    let change = marking(alloc, store.geometry(), records, hand)?;
    store.apply(alloc, &change)?;
    Ok(())
}

/// Takes an inode or none, and n blocks, for a call: the lowest that are free, may be given out now and are in no
/// hand. What is got is marked in the records of the groups, by one change, for which the store has room.
pub fn take<S: MetaStore>(
    alloc: Global,
    store: &mut S,
    inode: bool,
    n: u32,
    held: &Hands,
) -> Result<Taken, StoreError>
    requires room { IfSome (S.changing store.old).room (λ room. 432 * (S.store store.old).geometry.groups ≤ room) }
    requires stands { IfSome (S.store store.old).content (λ image. (tree : Tree) × StandsFor (S.store store.old).geometry (block image) tree held.now) }
    ensures answer { (tree : Tree) → IfSome (S.store store.old).content (λ image. StandsFor (S.store store.old).geometry (block image) tree held.now
        → IfOk result (λ taken. taken ≡ answer_of (S.store store.old).geometry (reading_of (S.store store.old).geometry (block image)) tree (S.changing store.old).is_released held.now inode n)) }
    ensures takes { TakesWhatItGot result (all_told (S.store store.old) (S.changing store.old)) (all_told (S.store store.new) (S.changing store.new)) }
    ensures failure { FailsJustAt (IsErrOf result Disk) (S.store store.old).disk (S.store store.new).disk }
{
    let records = read_records(alloc, store)?;
    let taken = choose_among(alloc, store, &records, inode, n, held.as_slice())?;
    match taken {
        Taken::Got(hand) => {
            take_hand(alloc, store, &records, &hand)?;
            Ok(Taken::Got(hand))
        }
        other => Ok(other),
    }
}
