//! The hand of a call: what it wants is taken, and goes back where the call isn't carried out.
ghost use Rattle.std.specs.Prelude.{◌≡◌, [], ◌∷◌, IfOk, OnErr};
ghost use Rattle.lufs_base.specs.Layout.{IsGeometry};
ghost use Rattle.volume_model.specs.Sound.{Tree};
ghost use Rattle.meta_store.specs.Changing.{all_told};
ghost use Rattle.block_alloc.specs.Marking.{IsHeldHand, no_hand};
ghost use Rattle.plain_calls.specs.InHand.{Stands, HasEnough, HasHand};

use block_alloc::{Hands, Taken, put_back, take};
use lufs_base::{BlockNo, Mem};
use meta_store::{MetaRead, PlainStore, StoreError};
use std::alloc::Global;
use volume_model::{BlockList, Hand};

// A hand of nothing.
fn empty_hand(alloc: Global) -> Hand
    ensures { result ≡ no_hand }
{
    Hand {
        inode: None,
        blocks: BlockList::new(alloc),
    }
}

/// Takes what a call wants, while nothing is held: nothing, or the lowest that are free. There is enough of it.
pub(crate) fn take_wanted(
    alloc: Global,
    store: &mut PlainStore,
    inode: bool,
    blocks: u32,
) -> Result<Hand, StoreError>
    requires geometry { IsGeometry (⟦<PlainStore as MetaRead>⟧.store store.old).geometry }
    requires enough { (tree : Tree) × Stands (⟦<PlainStore as MetaRead>⟧.store store.old) tree [] × HasEnough (⟦<PlainStore as MetaRead>⟧.store store.old).geometry tree inode blocks }
    ensures geometry { (⟦<PlainStore as MetaRead>⟧.store store.new).geometry ≡ (⟦<PlainStore as MetaRead>⟧.store store.old).geometry }
    ensures hand { (tree : Tree) → Stands (⟦<PlainStore as MetaRead>⟧.store store.old) tree [] → HasEnough (⟦<PlainStore as MetaRead>⟧.store store.old).geometry tree inode blocks
        → IfOk result (λ hand. HasHand inode blocks tree hand (all_told (⟦<PlainStore as MetaRead>⟧.store store.new) (⟦<PlainStore as MetaRead>⟧.changing store.new))) }
    ensures none { (tree : Tree) → Stands (⟦<PlainStore as MetaRead>⟧.store store.old) tree [] → OnErr result (Stands (⟦<PlainStore as MetaRead>⟧.store store.new) tree []) }
{
    if !inode && blocks == 0 {
        return Ok(empty_hand(alloc));
    }
    match take(alloc, store, inode, blocks, &Hands::new(alloc))? {
        Taken::Got(hand) => Ok(hand),
        _ => unreachable!(),
    }
}

/// Puts back all of a hand.
pub(crate) fn give_back(store: &mut PlainStore, hand: &Hand)
    requires { IsHeldHand hand.now (all_told (⟦<PlainStore as MetaRead>⟧.store store.old) (⟦<PlainStore as MetaRead>⟧.changing store.old)) }
    ensures geometry { (⟦<PlainStore as MetaRead>⟧.store store.new).geometry ≡ (⟦<PlainStore as MetaRead>⟧.store store.old).geometry }
    ensures stands { (tree : Tree) → Stands (⟦<PlainStore as MetaRead>⟧.store store.old) tree (hand.now ∷ []) → Stands (⟦<PlainStore as MetaRead>⟧.store store.new) tree [] }
{
    match put_back(store, hand) {
        Ok(()) => (),
        Err(_) => unreachable!(),
    }
}

// The same hand again.
fn copy_of(alloc: Global, hand: &Hand) -> Result<Hand, Mem>
    ensures { IfOk result (λ copy. copy ≡ hand.now) }
{
    let mut blocks = BlockList::new(alloc);
    for b in hand.blocks.as_slice() {
        blocks.push(BlockNo(*b))?;
    }
    Ok(Hand {
        inode: hand.inode,
        blocks,
    })
}

/// The hands of which this is the only one.
pub(crate) fn only_hand(alloc: Global, hand: &Hand) -> Result<Hands, Mem>
    ensures { IfOk result (λ hands. hands ≡ hand.now ∷ []) }
{
    let mut hands = Hands::new(alloc);
    hands.push(copy_of(alloc, hand)?)?;
    Ok(hands)
}
