//! The deltas of a log by the blocks that they lie in, as a replay lays them.
ghost use Rattle.std.specs.Prelude.{◌≡◌, ℕ, ◌/◌, ◌==◌, ◌++◌, ◌∷◌, [], List, length, Some, IfOk, OnOk, ◌&&◌, if◌then◌else◌};
ghost use Rattle.std.specs.List.{filter, list_any};
ghost use Rattle.lufs_base.specs.declared.geometry.Geometry.{Geometry};
ghost use Rattle.volume_model.specs.declared.log.Header.{Header};
ghost use Rattle.volume_model.specs.declared.log.Tx.{Tx};
ghost use Rattle.volume_model.specs.Format.{Image};
ghost use Rattle.volume_model.specs.Log.{WithHeader, Listed, log_of, is_cancel, recovered, lays_on};
ghost use Rattle.sector_disk.specs.Disk.{DiskTold};
ghost use Rattle.meta_store.specs.declared.laid.LaidDeltas.{LaidDeltas};
ghost use Rattle.meta_store.specs.Index.{deltas_of, IsIndexOf, replayed_told};

use lufs_base::{BLOCK, BlockNo, Bytes, Delta, DeltaKind, DeltaList, Mem};
use std::alloc::Global;
use std::collections::BTreeMap;
use volume_model::{Tx, TxList};

/// The deltas that a replay of a log lays over the volume, by the blocks that they lie in.
#[derive(Debug, Drop)]
pub struct LaidDeltas {
    by_block: BTreeMap<u64, DeltaList>,
}

// The block that a delta lies in.
pub(crate) fn block_of(delta: &Delta) -> u64
    ensures { result ≡ delta.now.home / 4096 }
{
    delta.home / BLOCK as u64
}

pub(crate) fn is_cancel(delta: &Delta) -> bool
    ensures { result ≡ is_cancel delta.now.kind }
{
    matches!(delta.kind, DeltaKind::Cancel)
}

pub(crate) fn copy_of(alloc: Global, delta: &Delta) -> Result<Delta, Mem>
    ensures { IfOk result (λ copy. copy ≡ delta.now) }
{
    let bytes = Bytes::from_slice(alloc, delta.bytes.as_slice())?;
    Ok(Delta {
        kind: delta.kind,
        home: delta.home,
        len: delta.len,
        bytes,
    })
}

impl LaidDeltas {
    /// What a replay of these transactions lays. It keeps copies of their deltas, so the list may go.
    pub fn new(alloc: Global, log: &TxList) -> Result<Self, Mem>
        ensures { IfOk result (IsIndexOf log.now) }
    {
        let mut laid = LaidDeltas {
            by_block: BTreeMap::new(alloc),
        };
        for tx in log.as_slice() {
            laid.cancel_blocks(tx.deltas.as_slice());
            laid.push_deltas(alloc, tx.deltas.as_slice())?;
        }
        Ok(laid)
    }

    // Takes out what was to be laid over the blocks that these deltas cancel.
    fn cancel_blocks(&mut self, deltas: &[Delta])
        ensures { (b : ℕ) → deltas_of self.new b ≡ (if list_any (λ d. is_cancel d.kind && d.home / 4096 == b) deltas.now then [] else deltas_of self.old b) }
    {
        for delta in deltas {
            self.cancel_block(delta);
        }
    }

    // Takes out what was to be laid over a block that this delta cancels.
    fn cancel_block(&mut self, delta: &Delta)
        ensures { (b : ℕ) → deltas_of self.new b ≡ (if is_cancel delta.now.kind && delta.now.home / 4096 == b then [] else deltas_of self.old b) }
    {
        if is_cancel(delta) {
            let _ = self.by_block.remove(&block_of(delta));
        }
    }

    // Adds those of these deltas that lay bytes, in order.
    fn push_deltas(&mut self, alloc: Global, deltas: &[Delta]) -> Result<(), Mem>
        ensures { OnOk result ((b : ℕ) → deltas_of self.new b ≡ deltas_of self.old b ++ filter (lays_on b) deltas.now) }
    {
        for delta in deltas {
            self.push_delta(alloc, delta)?;
        }
        Ok(())
    }

    // Adds a delta that lays bytes, after those of its block.
    fn push_delta(&mut self, alloc: Global, delta: &Delta) -> Result<(), Mem>
        ensures { OnOk result ((b : ℕ) → deltas_of self.new b ≡ deltas_of self.old b ++ (if lays_on b delta.now then delta.now ∷ [] else [])) }
    {
        if is_cancel(delta) {
            return Ok(());
        }
        let deltas = self
            .by_block
            .entry(block_of(delta))?
            .or_insert(DeltaList::new(alloc));
        deltas.push(copy_of(alloc, delta)?)
    }

    // What is laid over block `b`, in order.
    pub(crate) fn of_block(&self, b: BlockNo) -> &[Delta]
        ensures { result.now ≡ deltas_of self.now b.0 }
    {
        match self.by_block.get(&u64::from(b.0)) {
            Some(deltas) => deltas.as_slice(),
            None => &[],
        }
    }
}

/// Over a disk whose log was read, a store with the index of this log laid over tells the recovered content.
pub fn recovered_content()
    ensures { (g : Geometry) (disk : DiskTold) (image : Image) (h : Header) (txs : List Tx) (laid : LaidDeltas) → disk.present ≡ Some image → log_of g image ≡ WithHeader h (Listed txs)
        → IsIndexOf txs laid → (replayed_told g laid disk).content ≡ recovered g image }
{}
