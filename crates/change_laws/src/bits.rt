//! One bit of the record of a group, set or cleared.
ghost use Rattle.std.specs.Prelude.{◌≡◌, ◌<◌, ◌≤◌, ℕ, ◌+◌, ◌*◌, ◌/◌, ◌^◌, Bool, true, false, List, length, ◌∷◌, Some};
ghost use Rattle.lufs_base.specs.Fields.{AreBytes};
ghost use Rattle.lufs_base.specs.Layout.{IsGeometry, group_start};
ghost use Rattle.lufs_base.specs.declared.geometry.Geometry.{Geometry};
ghost use Rattle.volume_model.specs.declared.hand.Hand.{Hand};
ghost use Rattle.volume_model.specs.Format.{GroupRecord, IsGroup, bit_at, clear_bits, HasBit};
ghost use Rattle.volume_model.specs.Sound.{Reading, inodes_in, record_at, has_right_counts, IsStored};
ghost use Rattle.volume_laws.specs.Changes.{with_group};
ghost use Rattle.change_laws.specs.Hands.{one_block, one_inode};
ghost use Rattle.change_laws.specs.Marks.{HasHandPut, HasBlockPut, HasInodePut};

/// One free block or inode whose bit is set joins the hands.
pub fn one_taken()
    ensures block { (g : Geometry) (r : Reading) (n place : ℕ) (hands : List Hand) (old new : GroupRecord) → IsGeometry g → IsStored g r hands
        → n < g.groups → g.ipg / 32 < place → place < g.bpg → record_at r n ≡ Some old → bit_at old.block_bits place ≡ false
        → HasBlockPut place true old new → has_right_counts g new ≡ true
        → IsStored g (with_group r n (Some new)) (one_block (group_start g n + place) ∷ hands) }
    ensures inode { (g : Geometry) (r : Reading) (n place : ℕ) (hands : List Hand) (old new : GroupRecord) → IsGeometry g → IsStored g r hands
        → n < g.groups → place < g.ipg → 2 ≤ n * g.ipg + place → n * g.ipg + place < inodes_in r → record_at r n ≡ Some old
        → bit_at old.inode_bits place ≡ false → HasInodePut place true old new → has_right_counts g new ≡ true
        → IsStored g (with_group r n (Some new)) (one_inode (n * g.ipg + place) ∷ hands) }
{}

/// One block or inode that is held alone leaves the hands, with its bit clear.
pub fn one_put_back()
    ensures block { (g : Geometry) (r : Reading) (n place : ℕ) (hands : List Hand) (old new : GroupRecord) → IsGeometry g
        → IsStored g r (one_block (group_start g n + place) ∷ hands) → n < g.groups → place < g.bpg → record_at r n ≡ Some old
        → HasBlockPut place false old new → has_right_counts g new ≡ true → IsStored g (with_group r n (Some new)) hands }
    ensures inode { (g : Geometry) (r : Reading) (n place : ℕ) (hands : List Hand) (old new : GroupRecord) → IsGeometry g
        → IsStored g r (one_inode (n * g.ipg + place) ∷ hands) → n < g.groups → place < g.ipg → record_at r n ≡ Some old
        → HasInodePut place false old new → has_right_counts g new ≡ true → IsStored g (with_group r n (Some new)) hands }
{}

/// Counts that go down by one where a bit is set, and up by one where it is cleared, stay right.
pub fn counts_stay_right()
    ensures block_set { (g : Geometry) (place : ℕ) (old new : GroupRecord) → has_right_counts g old ≡ true → place < g.bpg
        → bit_at old.block_bits place ≡ false → HasBlockPut place true old new → new.free_blocks + 1 ≡ old.free_blocks → has_right_counts g new ≡ true }
    ensures block_cleared { (g : Geometry) (place : ℕ) (old new : GroupRecord) → has_right_counts g old ≡ true → place < g.bpg
        → bit_at old.block_bits place ≡ true → HasBlockPut place false old new → new.free_blocks ≡ old.free_blocks + 1 → has_right_counts g new ≡ true }
    ensures inode_set { (g : Geometry) (place : ℕ) (old new : GroupRecord) → has_right_counts g old ≡ true → place < g.ipg
        → bit_at old.inode_bits place ≡ false → HasInodePut place true old new → new.free_inodes + 1 ≡ old.free_inodes → has_right_counts g new ≡ true }
    ensures inode_cleared { (g : Geometry) (place : ℕ) (old new : GroupRecord) → has_right_counts g old ≡ true → place < g.ipg
        → bit_at old.inode_bits place ≡ true → HasInodePut place false old new → new.free_inodes ≡ old.free_inodes + 1 → has_right_counts g new ≡ true }
{}

/// A record with one bit put is still one of its group, where the bit isn't of what is always in use.
pub fn group_stays()
    ensures block { (g : Geometry) (n place : ℕ) (value : Bool) (old new : GroupRecord) → IsGroup g n old → HasBlockPut place value old new
        → g.ipg / 32 < place → place < g.bpg → new.free_blocks < 2 ^ 32 → length new.block_bits ≡ 256 → AreBytes new.block_bits → IsGroup g n new }
    ensures inode { (g : Geometry) (n place : ℕ) (value : Bool) (old new : GroupRecord) → IsGroup g n old → HasInodePut place value old new
        → 2 ≤ n * g.ipg + place → place < g.ipg → new.free_inodes < 2 ^ 32 → length new.inode_bits ≡ 128 → AreBytes new.inode_bits → IsGroup g n new }
{}

/// A record with one bit of a block or an inode put is that of a hand with just these.
pub fn one_bit_put()
    ensures block { (g : Geometry) (n place : ℕ) (value : Bool) (old new : GroupRecord) → HasBit place value old.block_bits new.block_bits
        → new.inode_bits ≡ old.inode_bits → HasHandPut g n value (one_block (group_start g n + place)) old new }
    ensures inode { (g : Geometry) (n place : ℕ) (value : Bool) (old new : GroupRecord) → HasBit place value old.inode_bits new.inode_bits
        → new.block_bits ≡ old.block_bits → HasHandPut g n value (one_inode (n * g.ipg + place)) old new }
{}

/// One bit that is set counts one clear bit less, and one that is cleared counts one more.
pub fn bits_counted()
    ensures set { (place n : ℕ) (old new : List ℕ) → HasBit place true old new → bit_at old place ≡ false → place < n
        → clear_bits new n + 1 ≡ clear_bits old n }
    ensures cleared { (place n : ℕ) (old new : List ℕ) → HasBit place false old new → bit_at old place ≡ true → place < n
        → clear_bits new n ≡ clear_bits old n + 1 }
{}
