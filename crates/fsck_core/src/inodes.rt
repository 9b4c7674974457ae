//! What a check keeps of the inodes as it reads them. Most inodes are settled by their record alone, so that only their
//! type and their links are kept.
ghost use Rattle.std.specs.Prelude.{◌≡◌, ◌<◌, ◌≤◌, ◌+◌, ◌*◌, ◌++◌, ◌∷◌, [], true, All, length, take, Some, None, OnOk, IfOk, IsTrue};
ghost use Rattle.lufs_base.specs.Layout.{IsGeometry};
ghost use Rattle.volume_model.specs.Format.{Blocks, inodes_of, is_body, is_directory};
ghost use Rattle.volume_model.specs.Sound.{inode_at, size_in_blocks};
ghost use Rattle.fsck_core.specs.Claimed.{blocks_claimed};
ghost use Rattle.fsck_core.specs.Inodes.{is_settled, AreKept, HasKept};

use crate::claims::Claims;
use crate::fields::{below_size, has_right_fields};
use lufs_base::{Geometry, Mem};
use std::alloc::Global;
use volume_model::Dinode;

/// What is kept of the record of an inode in use.
#[derive(Clone, Copy, Debug, PartialEq, Eq)]
pub(crate) struct Brief {
    pub(crate) mode: u16,
    pub(crate) links: u16,
}

impl Brief {
    /// Whether the inode is a directory.
    pub(crate) fn is_directory(&self) -> bool
        ensures { result ≡ is_directory self.now.mode }
    {
        matches!(self.mode, 0o040000..=0o040777)
    }
}

/// An inode in use that isn't settled.
#[derive(Debug, Drop)]
pub(crate) struct Unsettled {
    pub(crate) ino: u32,
    pub(crate) inode: Dinode,
}

/// What is kept of the inodes that were read.
#[derive(Drop)]
pub(crate) struct Inodes {
    /// One for each inode, None for one that isn't in use.
    pub(crate) briefs: Vec<Option<Brief>>,
    /// Those in use that aren't settled, in their order.
    pub(crate) unsettled: Vec<Unsettled>,
    /// The blocks of those that are.
    pub(crate) claims: Claims,
}

// Whether an inode in use is settled by its record: it is no directory, it has no pointer block, and its fields are
// right.
fn is_settled(g: &Geometry, d: &Dinode) -> bool
    requires geometry { IsGeometry g.now }
    ensures value { result ≡ is_settled g.now d.now }
    ensures bodies { IsTrue result → All (λ b. is_body g.now b ≡ true) (blocks_claimed d.now d.now.direct) }
    ensures direct { length d.now.direct ≡ 12 }
    ensures size { IsTrue result → d.now.size ≤ 4096 * 1036 }
    ensures below { IsTrue result → blocks_claimed d.now (take (size_in_blocks d.now.size) d.now.direct) ≡ blocks_claimed d.now d.now.direct }
{
    if d.is_directory() {
        return false;
    }
    if d.indirect[0] != 0 {
        return false;
    }
    has_right_fields(g, d, &d.direct)
}

impl Inodes {
    /// Of a volume with room for the briefs of its inodes none was read.
    pub(crate) fn new(alloc: Global, g: &Geometry) -> Result<Self, Mem>
        requires geometry { IsGeometry g.now }
        ensures kept { IfOk result (λ k. (blocks : Blocks) → AreKept g.now blocks 0 k.briefs.items k.unsettled.items k.claims) }
        ensures room { IfOk result (λ k. HasKept g.now 0 k.briefs.items k.unsettled.items k.claims) }
    {
        Ok(Inodes {
            briefs: Vec::with_capacity(alloc, (g.groups * g.ipg) as usize)?,
            unsettled: Vec::new(alloc),
            claims: Claims::new(alloc, g.total())?,
        })
    }

    /// Keeps inode `i`, the next one, which is in use.
    pub(crate) fn push_used(&mut self, g: &Geometry, i: u32, d: &Dinode) -> Result<(), Mem>
        requires geometry { IsGeometry g.now }
        requires few { i < 65536 }
        requires room { HasKept g.now i self.old.briefs.items self.old.unsettled.items self.old.claims }
        ensures kept { (blocks : Blocks) → i < inodes_of g.now → inode_at g.now blocks i ≡ Some (Some d.now) → 2 ≤ i
            → AreKept g.now blocks i self.old.briefs.items self.old.unsettled.items self.old.claims
            → OnOk result (AreKept g.now blocks (i + 1) self.new.briefs.items self.new.unsettled.items self.new.claims) }
        ensures room { OnOk result (HasKept g.now (i + 1) self.new.briefs.items self.new.unsettled.items self.new.claims) }
    {
        self.briefs.push(Some(Brief {
            mode: d.mode,
            links: d.links,
        }))?;
        if is_settled(g, d) {
            self.claims.claim_all(d, below_size(d, &d.direct));
            return Ok(());
        }
        self.unsettled.push(Unsettled { ino: i, inode: *d })?;
        Ok(())
    }

    /// Keeps the next inode, which isn't in use.
    pub(crate) fn push_free(&mut self) -> Result<(), Mem>
        ensures briefs { OnOk result (self.new.briefs.items ≡ self.old.briefs.items ++ None ∷ []) }
        ensures unsettled { self.new.unsettled ≡ self.old.unsettled }
        ensures claims { self.new.claims ≡ self.old.claims }
    {
        Ok(self.briefs.push(None)?)
    }
}
