//! A call is served: asked, and carried out.
ghost use Rattle.std.specs.Prelude.{◌≡◌, IfSome, IfOk, IsTrue, OnErr, []};
ghost use Rattle.lufs_base.specs.Layout.{IsGeometry};
ghost use Rattle.volume_model.specs.Format.{block};
ghost use Rattle.volume_model.specs.Sound.{Tree, StandsFor};
ghost use Rattle.call_ops.specs.Served.{is_served, has_right_words};
ghost use Rattle.plain_calls.specs.InHand.{Stands};
ghost use Rattle.plain_calls.specs.Served.{IsServed};

use crate::carrying::carry_out;
use crate::hands::{give_back, take_wanted};
use block_alloc::Hands;
use call_ops::{Asked, ask};
use meta_store::{MetaRead, PlainStore, StoreError};
use std::alloc::Global;
use tree_types::{Call, Cred, Refusal, Reply};

/// How a call was served.
#[derive(Debug, Drop)]
pub struct Served {
    /// The volume after it, whose transaction holds at most the change of this call.
    pub store: PlainStore,
    pub reply: Reply,
    /// The inode that the call made.
    pub ino: Option<u32>,
}

// The reply of the call, and the inode that it made. Without memory nothing changed, and nothing is held.
fn serve_over(
    alloc: Global,
    store: &mut PlainStore,
    cred: &Cred,
    call: &Call,
    moment: u64,
) -> Result<(Reply, Option<u32>), StoreError>
    requires geometry { IsGeometry (⟦<PlainStore as MetaRead>⟧.store store.old).geometry }
    requires served { IsTrue (is_served call.now) }
    requires words { IsTrue (has_right_words call.now) }
    requires stands { (tree : Tree) × Stands (⟦<PlainStore as MetaRead>⟧.store store.old) tree [] }
    ensures geometry { (⟦<PlainStore as MetaRead>⟧.store store.new).geometry ≡ (⟦<PlainStore as MetaRead>⟧.store store.old).geometry }
    ensures served { (tree : Tree) → Stands (⟦<PlainStore as MetaRead>⟧.store store.old) tree []
        → IfOk result (λ served. IfSome (⟦<PlainStore as MetaRead>⟧.store store.new).content (IsServed (⟦<PlainStore as MetaRead>⟧.store store.old).geometry moment tree cred.now call.now served.0 served.1)) }
    ensures none { (tree : Tree) → Stands (⟦<PlainStore as MetaRead>⟧.store store.old) tree [] → OnErr result (Stands (⟦<PlainStore as MetaRead>⟧.store store.new) tree []) }
{
    match ask(alloc, store, cred, call, &Hands::new(alloc))? {
        Asked::Told(reply) => Ok((reply, None)),
        Asked::Wants {
            walked,
            inode,
            blocks,
        } => {
            let hand = take_wanted(alloc, store, inode, blocks)?;
            match carry_out(alloc, store, cred, call, &walked, &hand, moment) {
                Ok(reply) => Ok((reply, hand.inode)),
                Err(error) => {
                    give_back(store, &hand);
                    Err(error)
                },
            }
        },
    }
}

/// Serves one call at this moment, in seconds since 1970 (`docs/CALLS.md`). It is answered `nomem` where there is no
/// memory, and then nothing changed.
pub fn serve(alloc: Global, store: PlainStore, cred: &Cred, call: &Call, moment: u64) -> Served
    requires served { IsTrue (is_served call.now) }
    requires words { IsTrue (has_right_words call.now) }
    requires stands { IfSome (⟦<PlainStore as MetaRead>⟧.store store).content (λ image. (tree : Tree) × StandsFor (⟦<PlainStore as MetaRead>⟧.store store).geometry (block image) tree []) }
    ensures geometry { (⟦<PlainStore as MetaRead>⟧.store result.store).geometry ≡ (⟦<PlainStore as MetaRead>⟧.store store).geometry }
    ensures served { (tree : Tree) → IfSome (⟦<PlainStore as MetaRead>⟧.store store).content (λ image. StandsFor (⟦<PlainStore as MetaRead>⟧.store store).geometry (block image) tree []
        → IfSome (⟦<PlainStore as MetaRead>⟧.store result.store).content (IsServed (⟦<PlainStore as MetaRead>⟧.store store).geometry moment tree cred.now call.now result.reply result.ino)) }
{
    let g = *store.geometry();
    // The transaction of the new store is empty, so that what a call costs doesn't grow with those before it.
    let mut store = PlainStore::new(&g, store.into_image());
    match serve_over(alloc, &mut store, cred, call, moment) {
        Ok((reply, ino)) => Served { store, reply, ino },
        Err(_) => Served {
            store,
            reply: Reply::Refused(Refusal::Nomem),
            ino: None,
        },
    }
}
