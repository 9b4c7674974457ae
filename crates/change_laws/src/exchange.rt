//! What an inode claims, exchanged with what is held.
ghost use Rattle.std.specs.Prelude.{◌≡◌, ◌<◌, ℕ, List, ◌++◌};
ghost use Rattle.lufs_base.specs.declared.geometry.Geometry.{Geometry};
ghost use Rattle.volume_model.specs.declared.hand.Hand.{Hand};
ghost use Rattle.volume_model.specs.Sound.{InodeState, Reading, inodes_in, used_of, used_at, held_blocks, IsLaid, IsStored};
ghost use Rattle.volume_laws.specs.Changes.{with_state};
ghost use Rattle.change_laws.specs.Hands.{HaveTheSame};
ghost use Rattle.change_laws.specs.Exchange.{claimed_blocks, Exchanges};

/// An inode whose new state exchanges what it claims with what is held leaves a reading stored.
pub fn exchanged()
    ensures stored { (g : Geometry) (r : Reading) (i : ℕ) (state : InodeState) (hands others : List Hand)
        → IsStored g r hands → Exchanges g r i state hands others → IsStored g (with_state r i state) others }
    // While only part of the inode is written, its claims are laid.
    ensures laid { (g : Geometry) (r : Reading) (i : ℕ) (state : InodeState) (hands others : List Hand) → IsStored g r hands → i < inodes_in r
        → HaveTheSame (claimed_blocks i (used_at r i) ++ held_blocks hands) (claimed_blocks i (used_of state) ++ held_blocks others)
        → IsLaid g (with_state r i state) }
    ensures size { (r : Reading) (i : ℕ) (state : InodeState) → inodes_in (with_state r i state) ≡ inodes_in r }
{}

/// Of two states in the place of one inode's the later one counts.
pub fn state_replaced()
    ensures { (r : Reading) (i : ℕ) (state other : InodeState) → with_state (with_state r i state) i other ≡ with_state r i other }
{}
