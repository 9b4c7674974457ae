//! Hands up to their order and their division.
ghost use Rattle.std.specs.Prelude.{◌≡◌, ℕ, List, [], ◌∷◌, ◌++◌, Option, None, IsPermutation};
ghost use Rattle.lufs_base.specs.declared.geometry.Geometry.{Geometry};
ghost use Rattle.volume_model.specs.declared.hand.Hand.{Hand};
ghost use Rattle.volume_model.specs.Format.{Blocks};
ghost use Rattle.volume_model.specs.Sound.{Reading, AreApart, IsStored, Sound, Tree, StandsFor};
ghost use Rattle.change_laws.specs.Hands.{HaveTheSame, HoldTheSame};

/// Hands that hold the same are as good as the others.
pub fn hands_alike()
    ensures apart { (g : Geometry) (r : Reading) (hands others : List Hand) → HoldTheSame hands others → AreApart g r hands → AreApart g r others }
    ensures stored { (g : Geometry) (r : Reading) (hands others : List Hand) → HoldTheSame hands others → IsStored g r hands → IsStored g r others }
    ensures sound { (g : Geometry) (blocks : Blocks) (hands others : List Hand) → HoldTheSame hands others → Sound g blocks hands → Sound g blocks others }
    ensures stands { (g : Geometry) (blocks : Blocks) (tree : Tree) (hands others : List Hand) → HoldTheSame hands others
        → StandsFor g blocks tree hands → StandsFor g blocks tree others }
{}

/// Hands hold the same in another order, where one is divided into two, where two are joined, and without an empty one.
pub fn hands_reordered()
    ensures same { (hands : List Hand) → HoldTheSame hands hands }
    ensures back { (hands others : List Hand) → HoldTheSame hands others → HoldTheSame others hands }
    ensures chain { (hands others last : List Hand) → HoldTheSame hands others → HoldTheSame others last → HoldTheSame hands last }
    ensures joined { (hands others more after : List Hand) → HoldTheSame hands others → HoldTheSame more after → HoldTheSame (hands ++ more) (others ++ after) }
    ensures swapped { (hands others : List Hand) → HoldTheSame (hands ++ others) (others ++ hands) }
    ensures to_front { (before after : List Hand) (hand : Hand) → HoldTheSame (before ++ (hand ∷ after)) (hand ∷ (before ++ after)) }
    ensures permuted { (hands others : List Hand) → IsPermutation hands others → HoldTheSame hands others }
    ensures divided { (inode : Option ℕ) (front back : List ℕ) (hands : List Hand)
        → HoldTheSame (record { inode = inode; blocks = front ++ back } ∷ hands)
        (record { inode = inode; blocks = front } ∷ (record { inode = None; blocks = back } ∷ hands)) }
    ensures blocks { (inode : Option ℕ) (numbers others : List ℕ) (hands : List Hand) → HaveTheSame numbers others
        → HoldTheSame (record { inode = inode; blocks = numbers } ∷ hands) (record { inode = inode; blocks = others } ∷ hands) }
    ensures empty { (hands : List Hand) → HoldTheSame (record { inode = None; blocks = [] } ∷ hands) hands }
{}
