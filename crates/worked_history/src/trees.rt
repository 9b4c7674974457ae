//! Trees that are right and some that aren't, computed.
ghost use Rattle.volume_model.specs.Worked.{smallest};
ghost use Rattle.history_model.specs.Right.{IsRightWithin};
ghost use Rattle.history_model.specs.Ranges.{HasLinksInRange, HasSizesInRange};
ghost use Rattle.history_model.specs.WorkedTrees.{new_tree};
ghost use Rattle.worked_history.specs.Trees.{family, twins, circle, orphan};

/// Two trees that are right, and the links and sizes of one.
pub fn right_trees()
    ensures new_volume { IsRightWithin smallest new_tree }
    ensures names { IsRightWithin smallest family }
    ensures links { HasLinksInRange smallest family }
    ensures sizes { HasSizesInRange family }
{}

/// Trees that aren't: a directory has two names, two are above each other, a name is of no inode in use.
pub fn wrong_trees()
    ensures two_names { ¬ (IsRightWithin smallest twins) }
    ensures apart { ¬ (IsRightWithin smallest circle) }
    ensures unused { ¬ (IsRightWithin smallest orphan) }
{}
