//! A window on a store: the block that was read last, which isn't read again.
ghost use Rattle.std.specs.Prelude.{◌≡◌, ◌<◌, None, Some, OnOk};
ghost use Rattle.lufs_base.specs.Layout.{blocks_of};
ghost use Rattle.sector_disk.specs.Disk.{CountsFailure};
ghost use Rattle.meta_store.specs.Store.{IsUnchanged};
ghost use Rattle.meta_store.specs.Changing.{IsKept};
ghost use Rattle.meta_draft.specs.Drafted.{drafted};
ghost use Rattle.dir_reads.specs.Chunks.{AreOfBlock};

use lufs_base::{BLOCK, BlockNo, DiskFault};
use meta_draft::Draft;
use meta_store::MetaRead;

/// The block that was read last.
#[derive(Drop)]
pub(crate) struct Window {
    /// The number of the block, once there is one.
    pub(crate) number: Option<u32>,
    pub(crate) bytes: [u8; BLOCK],
}

impl Window {
    pub(crate) fn new() -> Self
        ensures { result.number ≡ None }
    {
        Window {
            number: None,
            bytes: [0; BLOCK],
        }
    }

    /// Moves the window to block `b`.
    pub(crate) fn show<S: MetaRead>(
        &mut self,
        draft: &Draft,
        store: &mut S,
        b: u32,
    ) -> Result<(), DiskFault>
        requires inside { b < blocks_of (S.store store.old).geometry }
        requires held { AreOfBlock (drafted draft.now.change (S.store store.old)).content self.old.number self.old.bytes }
        ensures shown { OnOk result (self.new.number ≡ Some b) }
        ensures held { AreOfBlock (drafted draft.now.change (S.store store.old)).content self.new.number self.new.bytes }
        ensures unchanged { IsUnchanged (S.store store.old) (S.store store.new) }
        ensures kept { IsKept (S.changing store.old) (S.changing store.new) }
        ensures failure { CountsFailure result (S.store store.old).disk (S.store store.new).disk }
    {
        if self.number == Some(b) {
            return Ok(());
        }
        self.number = None;
        draft.block(store, BlockNo(b), &mut self.bytes)?;
        self.number = Some(b);
        Ok(())
    }
}
