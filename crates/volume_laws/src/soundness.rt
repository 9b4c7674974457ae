//! The laws of what sound means, and of the tree that a volume stands for.
ghost use Rattle.std.specs.Prelude.{◌≡◌, ◌≤◌, ◌<◌, ◌↔◌, ℕ, ◌+◌, ◌*◌, ◌∷◌, ◌++◌, [], List, length, Some, None, true, false, Contains};
ghost use Rattle.lufs_base.specs.Fields.{AreBytes};
ghost use Rattle.lufs_base.specs.Layout.{IsGeometry, blocks_of};
ghost use Rattle.lufs_base.specs.declared.geometry.Geometry.{Geometry};
ghost use Rattle.volume_model.specs.declared.finding.Kind.{Kind};
ghost use Rattle.volume_model.specs.declared.hand.Hand.{Hand};
ghost use Rattle.volume_model.specs.declared.finding.Counts.{Counts};
ghost use Rattle.volume_model.specs.declared.finding.Verdict.TheVariants.{Clean, Finding};
ghost use Rattle.volume_model.specs.Format.{Image, block, Blocks, inodes_of, is_body, IsWhole};
ghost use Rattle.volume_model.specs.Sound.{Reading, reading_of, is_claimed, held_blocks, is_among, block_bit, clear_blocks_of, Sound, all_kinds, numbers_of_kind, is_broken, finding_of, counts_of, verdict_of, Tree, shape_of, used_in_tree, claimed_in_tree, free_blocks_of, StandsFor, tree_of, MountsAs, Opens, AgreeWhereRead, AgreeButInFileBytes, names_in_reading, names_in_tree, tree_of_reading, IsStored, IsRightTree, HasRightLinks, held_inodes, inode_bit, clear_inodes_of, free_inodes_of, Claim, claims_of, IsLaid, claim_length, metadata_claim_length, read_length, metadata_length};

/// Nothing is found exactly where no rule is broken; and what is found is the first rule that is, at its lowest number.
pub fn findings_in_order()
    ensures none { (g : Geometry) (r : Reading) (hands : List Hand)
        → (finding_of g r hands ≡ None) ↔ ((kind : Kind) (n : ℕ) → Contains (numbers_of_kind g r kind) n → is_broken g r hands kind n ≡ false) }
    ensures broken { (g : Geometry) (r : Reading) (hands : List Hand) (kind : Kind) (n : ℕ)
        → finding_of g r hands ≡ Some (kind, n) → Contains (numbers_of_kind g r kind) n × (is_broken g r hands kind n ≡ true) }
    ensures lowest { (g : Geometry) (r : Reading) (hands : List Hand) (kind : Kind) (n m : ℕ)
        → finding_of g r hands ≡ Some (kind, n) → m < n → Contains (numbers_of_kind g r kind) m → is_broken g r hands kind m ≡ false }
    ensures first { (g : Geometry) (r : Reading) (hands : List Hand) (kind earlier : Kind) (before after : List Kind) (n m : ℕ)
        → finding_of g r hands ≡ Some (kind, n) → all_kinds ≡ before ++ (kind ∷ after) → Contains before earlier
        → Contains (numbers_of_kind g r earlier) m → is_broken g r hands earlier m ≡ false }
{}

/// A check answers that a volume is clean exactly where it is sound while nothing is held, and else what it finds.
pub fn verdicts()
    ensures clean { (g : Geometry) (blocks : Blocks) (counts : Counts)
        → (verdict_of g blocks ≡ Clean counts) ↔ (Sound g blocks [] × (counts ≡ counts_of g (reading_of g blocks))) }
    ensures finding { (g : Geometry) (blocks : Blocks) (kind : Kind) (n : ℕ)
        → (verdict_of g blocks ≡ Finding kind n) ↔ (finding_of g (reading_of g blocks) [] ≡ Some (kind, n)) }
{}

/// Sound is three parts: what is stored, the tree that the names make, and the links. The rules on names are rules on the tree.
pub fn sound_in_parts()
    ensures parts { (g : Geometry) (blocks : Blocks) (hands : List Hand)
        → Sound g blocks hands ↔ (IsStored g (reading_of g blocks) hands × IsRightTree g (tree_of g blocks) × HasRightLinks (reading_of g blocks)) }
    ensures names { (blocks : Blocks) (r : Reading) → names_in_tree (tree_of_reading blocks r) ≡ names_in_reading r }
{}

/// A sound volume stands for exactly one tree, and mounting gives one shape.
pub fn one_tree()
    ensures some { (g : Geometry) (blocks : Blocks) (hands : List Hand) → Sound g blocks hands → StandsFor g blocks (tree_of g blocks) hands }
    ensures one { (g : Geometry) (blocks : Blocks) (tree other : Tree) (hands others : List Hand)
        → StandsFor g blocks tree hands → StandsFor g blocks other others → tree ≡ other }
    ensures opened { (image : Image) → Opens image → (shape : Tree) × MountsAs image shape }
    ensures mounted { (image : Image) (shape other : Tree) → MountsAs image shape → MountsAs image other → shape ≡ other }
{}

/// What of a volume its tree depends on: the records of groups, the inode blocks, the chunks of directories, the texts of
/// links, the pointer blocks, and the blocks of files. The bytes of files change nothing of its shape.
pub fn what_is_read()
    // With the same metadata, each inode has the same record and the same numbers of blocks.
    ensures same_reading { (g : Geometry) (blocks others : Blocks) → IsGeometry g → AgreeButInFileBytes g blocks others → reading_of g others ≡ reading_of g blocks }
    ensures metadata { (g : Geometry) (blocks others : Blocks) → AgreeWhereRead g blocks others → AgreeButInFileBytes g blocks others }
    ensures same_nodes { (g : Geometry) (blocks others : Blocks) → IsGeometry g → AgreeWhereRead g blocks others → tree_of g others ≡ tree_of g blocks }
    ensures same_shape_of_nodes { (g : Geometry) (blocks others : Blocks) → IsGeometry g → AgreeButInFileBytes g blocks others → shape_of (tree_of g others) ≡ shape_of (tree_of g blocks) }
    ensures same_tree { (g : Geometry) (blocks others : Blocks) (tree : Tree) (hands : List Hand)
        → IsGeometry g → AgreeWhereRead g blocks others → StandsFor g blocks tree hands → StandsFor g others tree hands }
    ensures same_shape { (g : Geometry) (blocks others : Blocks) (tree : Tree) (hands : List Hand)
        → IsGeometry g → AgreeButInFileBytes g blocks others → StandsFor g blocks tree hands
        → StandsFor g others (tree_of g others) hands × (shape_of (tree_of g others) ≡ shape_of tree) }
{}

/// The free blocks of a tree are as many as the clear block bits and the held blocks together.
pub fn free_blocks()
    ensures bit { (g : Geometry) (blocks : Blocks) (hands : List Hand) (b : ℕ) → Sound g blocks hands → is_body g b ≡ true
        → (block_bit g (reading_of g blocks) b ≡ false) ↔ ((is_claimed (reading_of g blocks) b ≡ false) × (is_among b (held_blocks hands) ≡ false)) }
    ensures clear { (g : Geometry) (blocks : Blocks) (tree : Tree) (hands : List Hand) → IsGeometry g → StandsFor g blocks tree hands
        → clear_blocks_of g (reading_of g blocks) + length (held_blocks hands) ≡ free_blocks_of g tree }
    ensures counts { (g : Geometry) (blocks : Blocks) (tree : Tree) (hands : List Hand) → StandsFor g blocks tree hands
        → counts_of g (reading_of g blocks) ≡ record { inodes = used_in_tree g tree; blocks = claimed_in_tree g tree; free = free_blocks_of g tree } }
{}

/// Which inodes of a sound volume are free, by its bits, its tree and what is held. The inodes 0 and 1 never are.
pub fn free_inodes()
    ensures bit { (g : Geometry) (blocks : Blocks) (hands : List Hand) (i : ℕ) → Sound g blocks hands → 2 ≤ i → i < inodes_of g
        → (inode_bit g (reading_of g blocks) i ≡ false) ↔ ((tree_of g blocks i ≡ None) × (is_among i (held_inodes hands) ≡ false)) }
    ensures clear { (g : Geometry) (blocks : Blocks) (tree : Tree) (hands : List Hand) → IsGeometry g → StandsFor g blocks tree hands
        → clear_inodes_of g (reading_of g blocks) + length (held_inodes hands) ≡ free_inodes_of g tree }
{}

/// Where claims are of body blocks, each claimed once at most, as in a sound volume: a block has one claim, and as many of its
/// bytes are read as that claim asks for.
pub fn laid_claims()
    ensures sound { (g : Geometry) (blocks : Blocks) (hands : List Hand) → Sound g blocks hands → IsLaid g (reading_of g blocks) }
    ensures one { (g : Geometry) (r : Reading) → IsLaid g r → (claim other : Claim) → Contains (claims_of r) claim → Contains (claims_of r) other
        → other.block ≡ claim.block → other ≡ claim }
    ensures read { (g : Geometry) (r : Reading) → IsLaid g r → (claim : Claim) → Contains (claims_of r) claim → read_length g r claim.block ≡ claim_length r claim }
    ensures metadata { (g : Geometry) (r : Reading) → IsLaid g r → (claim : Claim) → Contains (claims_of r) claim
        → metadata_length g r claim.block ≡ metadata_claim_length r claim }
{}

/// The blocks of an image with room for the volume are whole.
pub fn whole_blocks()
    ensures { (g : Geometry) (image : Image) → 4096 * blocks_of g ≤ length image → AreBytes image → IsWhole g (block image) }
{}
