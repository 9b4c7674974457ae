//! What the home blocks of a volume decide, and what an image that was written back stands for.
ghost use Rattle.std.specs.Prelude.{◌≡◌, ◌↔◌, [], List, Some};
ghost use Rattle.lufs_base.specs.Layout.{IsGeometry};
ghost use Rattle.lufs_base.specs.declared.geometry.Geometry.{Geometry};
ghost use Rattle.volume_model.specs.declared.hand.Hand.{Hand};
ghost use Rattle.volume_model.specs.declared.log.Header.{Header};
ghost use Rattle.volume_model.specs.Format.{Image, Blocks, block, geometry_of};
ghost use Rattle.volume_model.specs.Sound.{Tree, Sound, StandsFor, Opens, verdict_of};
ghost use Rattle.log_laws.specs.StaleSectors.{HasNoIdentAbove};
ghost use Rattle.log_laws.specs.LogOnImage.{ring_sector};
ghost use Rattle.plain_image.specs.HomeBlocks.{HaveSameHomes};
ghost use Rattle.plain_image.specs.WrittenBack.{IsWrittenBack};

/// What a volume stands for is decided by the blocks of its groups, and so is what a check of a sound one answers.
pub fn same_homes()
    ensures tree { (g : Geometry) (blocks others : Blocks) (tree : Tree) (hands : List Hand) → IsGeometry g → HaveSameHomes g blocks others
        → StandsFor g blocks tree hands ↔ StandsFor g others tree hands }
    ensures verdict { (g : Geometry) (blocks others : Blocks) (hands : List Hand) → IsGeometry g → HaveSameHomes g blocks others → Sound g blocks hands → verdict_of g others ≡ verdict_of g blocks }
{}

/// What was written back stands for what the image does, and may be opened.
pub fn written_images()
    ensures tree { (g : Geometry) (header : Header) (image before now : Image) (tree : Tree) → IsGeometry g → IsWrittenBack g header image before now
        → StandsFor g (block image) tree [] → StandsFor g (block now) tree [] }
    ensures opens { (g : Geometry) (header : Header) (image before now : Image) → IsGeometry g → IsWrittenBack g header image before now
        → geometry_of before ≡ Some g → HasNoIdentAbove g header.epoch (ring_sector g before) → Sound g (block image) [] → Opens now }
{}
