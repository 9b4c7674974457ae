//! What claims are while a plan is made.
ghost use Rattle.std.specs.Prelude.{◌≡◌, ◌≢◌, ◌<◌, ◌≤◌, ◌==◌, ℕ, ◌+◌, ◌/◌, true, false, List, Contains};
ghost use Rattle.std.specs.List.{count_by};
ghost use Rattle.lufs_base.specs.Layout.{IsGeometry, blocks_of, group_start, inode_address};
ghost use Rattle.lufs_base.specs.declared.geometry.Geometry.{Geometry};
ghost use Rattle.volume_model.specs.declared.hand.Hand.{Hand};
ghost use Rattle.volume_model.specs.Format.{inodes_of, is_body};
ghost use Rattle.volume_model.specs.Sound.{InodeState, Reading, inodes_in, used_of, used_at, Claim, claims_of, claims_on, IsLaid, held_blocks, is_among, IsStored};
ghost use Rattle.volume_laws.specs.Changes.{with_state};
ghost use Rattle.change_laws.specs.Hands.{times};
ghost use Rattle.change_laws.specs.Exchange.{claimed_blocks};

/// Claims of a reading that is stored are laid: two of different inodes or parts are of different blocks, and no claimed block
/// is held.
pub fn claims_are_apart()
    ensures laid { (g : Geometry) (r : Reading) (hands : List Hand) → IsStored g r hands → IsLaid g r }
    ensures inodes { (g : Geometry) (r : Reading) (hands : List Hand) (claim other : Claim) → IsStored g r hands
        → Contains (claims_of r) claim → Contains (claims_of r) other → claim.inode ≢ other.inode → claim.block ≢ other.block }
    ensures parts { (g : Geometry) (r : Reading) (hands : List Hand) (claim other : Claim) → IsStored g r hands
        → Contains (claims_of r) claim → Contains (claims_of r) other → claim.part ≢ other.part → claim.block ≢ other.block }
    ensures body { (g : Geometry) (r : Reading) (hands : List Hand) (claim : Claim) → IsStored g r hands
        → Contains (claims_of r) claim → is_body g claim.block ≡ true }
    ensures unheld { (g : Geometry) (r : Reading) (hands : List Hand) (claim : Claim) → IsStored g r hands
        → Contains (claims_of r) claim → is_among claim.block (held_blocks hands) ≡ false }
{}

/// A body block, as each that is claimed or held, has no records, and lies after the log and in the volume.
pub fn body_blocks()
    ensures group_blocks { (g : Geometry) (b n : ℕ) → IsGeometry g → is_body g b ≡ true → n < g.groups → b ≢ group_start g n }
    ensures inode_blocks { (g : Geometry) (b i : ℕ) → IsGeometry g → is_body g b ≡ true → i < inodes_of g → b ≢ inode_address g i / 4096 }
    ensures after_log { (g : Geometry) (b : ℕ) → IsGeometry g → is_body g b ≡ true → group_start g 0 ≤ b }
    ensures inside { (g : Geometry) (b : ℕ) → is_body g b ≡ true → b < blocks_of g }
{}

/// Where one inode changes, a block is claimed less what the inode claimed of it, and more what it claims after.
pub fn claims_of_one_inode()
    ensures { (r : Reading) (i : ℕ) (state : InodeState) (b : ℕ) → i < inodes_in r
        → claims_on (with_state r i state) b + times b (claimed_blocks i (used_at r i)) ≡ claims_on r b + times b (claimed_blocks i (used_of state)) }
{}
