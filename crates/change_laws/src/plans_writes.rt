//! Which writes change one inode alone, and what its new state keeps of a volume.
ghost use Rattle.std.specs.Prelude.{◌≡◌, ◌<◌, ℕ, ◌/◌, ◌%◌, ◌++◌, List, Contains};
ghost use Rattle.lufs_base.specs.Layout.{IsGeometry, inode_address};
ghost use Rattle.lufs_base.specs.declared.geometry.Geometry.{Geometry};
ghost use Rattle.volume_model.specs.declared.hand.Hand.{Hand};
ghost use Rattle.volume_model.specs.Format.{Blocks, inodes_of};
ghost use Rattle.volume_model.specs.Sound.{reading_of, state_at, used_of, used_at, Claim, claims_of, IsLaid, held_blocks, IsStored, AgreeWhereRead};
ghost use Rattle.volume_laws.specs.Changes.{AgreeWhereReadBut};
ghost use Rattle.change_laws.specs.Hands.{HaveTheSame};
ghost use Rattle.change_laws.specs.Exchange.{claimed_blocks, Exchanges};
ghost use Rattle.change_laws.specs.Plans.{OnlyInodeChanges};

/// Only one inode changes where bytes of its record are written, or of a block that it claims, or bytes that aren't read; and
/// so by one such write after another.
pub fn one_inode_written()
    ensures unread { (g : Geometry) (blocks others : Blocks) (i : ℕ) → IsGeometry g → i < inodes_of g → AgreeWhereRead g blocks others → OnlyInodeChanges g blocks others i }
    ensures record { (g : Geometry) (blocks others : Blocks) (i : ℕ) → IsGeometry g → IsLaid g (reading_of g blocks) → i < inodes_of g
        → AgreeWhereReadBut g blocks others (inode_address g i / 4096) (inode_address g i % 4096) 128 → OnlyInodeChanges g blocks others i }
    ensures block { (g : Geometry) (blocks others : Blocks) (claim : Claim) (at n : ℕ) → IsGeometry g → IsLaid g (reading_of g blocks)
        → Contains (claims_of (reading_of g blocks)) claim → AgreeWhereReadBut g blocks others claim.block at n → OnlyInodeChanges g blocks others claim.inode }
    ensures chain { (g : Geometry) (blocks middle others : Blocks) (i : ℕ) → OnlyInodeChanges g blocks middle i → OnlyInodeChanges g middle others i
        → OnlyInodeChanges g blocks others i }
{}

/// What is stored stays right where the one inode that changes exchanges what it claims with what is held.
pub fn one_inode_exchanged()
    ensures stored { (g : Geometry) (blocks others : Blocks) (i : ℕ) (hands after : List Hand) → IsStored g (reading_of g blocks) hands
        → OnlyInodeChanges g blocks others i → Exchanges g (reading_of g blocks) i (state_at g others i) hands after → IsStored g (reading_of g others) after }
    ensures laid { (g : Geometry) (blocks others : Blocks) (i : ℕ) (hands after : List Hand) → IsStored g (reading_of g blocks) hands
        → OnlyInodeChanges g blocks others i
        → HaveTheSame (claimed_blocks i (used_at (reading_of g blocks) i) ++ held_blocks hands) (claimed_blocks i (used_of (state_at g others i)) ++ held_blocks after)
        → IsLaid g (reading_of g others) }
{}
